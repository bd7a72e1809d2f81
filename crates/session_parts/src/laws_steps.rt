//! Laws that say which step of the definition of texts a step of a store is. None does anything.

ghost use Rattle.session_parts.specs.StepLaws.{FindsNothingAsked, IsOneRequest, LacksMemoryThere, LacksNumber, MachineAsks, MachineTurns, TurnAsks, TurnConflicts, TurnGoesOn, TurnIsRefused, TurnReplies, TurnWaits};

/// A machine's step in a table is a turn of the statement there.
pub fn a_machine_turns()
    ensures { MachineTurns }
{}

/// So is a step of a machine that may ask for a summary or take up the first one, and one that drops the dead rows of a block.
pub fn a_machine_asks()
    ensures { MachineAsks }
{}

/// A turn is a step of the definition, with which its statement goes on, replies, meets a conflict or is refused; and so is one that waits.
pub fn a_turn_is_a_step()
    ensures goes_on { TurnGoesOn }
    ensures asks { TurnAsks }
    ensures replies { TurnReplies }
    ensures conflicts { TurnConflicts }
    ensures refused { TurnIsRefused }
    ensures waits { TurnWaits }
{}

/// So is a step that touches no table: a statement that is one request, one that lacks memory or a number before it has a step, and work that finds no
/// summary asked for.
pub fn one_request_is_a_step()
    ensures request { IsOneRequest }
    ensures memory { LacksMemoryThere }
    ensures number { LacksNumber }
    ensures nothing { FindsNothingAsked }
{}
