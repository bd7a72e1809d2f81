//! Laws of the tables that a store shows. None does anything.

ghost use Rattle.session_parts.specs.TableLaws.{AnotherTableStays, FilledSlotStays, GivesNone, MarkedSlotStays, OwnTableGoesOn, OwnTableIsPruned, QuietOnesLockNone, RestsElsewhere, SameSlotsStay, TableIsKept, TableShowsAlike};

/// A session whose statement is between the steps of another table, or of a scan, or of an insert that moves no tuple, locks no page of the
/// table's indexes; and where it gives its locks, those of the others stay.
pub fn quiet_statements_lock_nothing()
    ensures none { QuietOnesLockNone }
    ensures gives { GivesNone }
{}

/// In a table other than its own a statement is at nothing; and such a table is shown as it was, with other rows that count where the step changes
/// transactions.
pub fn another_table_stays()
    ensures rests { RestsElsewhere }
    ensures stays { AnotherTableStays }
{}

/// The table of a step is shown as its machine leaves it, with all that the other sessions are at in it; and a table that is shown is one that a
/// machine may step in.
pub fn the_own_table_goes_on()
    ensures goes_on { OwnTableGoesOn }
    ensures pruned { OwnTableIsPruned }
    ensures kept { TableIsKept }
    ensures alike { TableShowsAlike }
{}

/// What another session's transaction sees of the slots of a table stays where nothing changes, where a row comes to a free slot, and where a row
/// is marked by a transaction that it doesn't see.
pub fn slots_stay_for_others()
    ensures same { SameSlotsStay }
    ensures filled { FilledSlotStays }
    ensures marked { MarkedSlotStays }
{}
