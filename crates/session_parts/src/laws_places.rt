//! Laws of the places that a store shows behind a step. None does anything.

ghost use Rattle.session_parts.specs.PlaceLaws.{AfterLeads, AskingStepIsShown, AtOnceLeads, PlaceStaysShown, StepAtOnceIsShown, TableAfter, TableStepIsShown};

/// Behind a step of a session in one table the store shows the place in which that table, what the session has in hand and the journal are as the
/// step leaves them, and the other tables are as they were but for the rows that count. So it is for one that touches no table; and where nothing
/// is done the store shows the same place.
pub fn a_step_is_shown()
    ensures in_one_table { TableStepIsShown }
    ensures asking { AskingStepIsShown }
    ensures in_no_table { StepAtOnceIsShown }
    ensures same { PlaceStaysShown }
{}

/// These places are those to which a step of the definition leads.
pub fn places_after_a_step()
    ensures table { TableAfter }
    ensures leads { AfterLeads }
    ensures at_once { AtOnceLeads }
{}
