//! Whom a step waits for.

ghost use Rattle.script_laws.specs.TextLaws.{AnsweredLineReaches, AnsweredLinesReach, BegunLineReaches, NoStepWaitsAlone, OnlyHandsAreWaitedFor, RestsWithoutStatement};

use coverage::{blocked_statements_wait, table_stays_covered};
use value_text::{denoted_is_of_kind, value_of_is_denoted};

/// A step that waits tells another session, and that one has a statement in hand: so where no other session has one, no step waits. A session
/// without a statement in hand holds no lock, whatever was done before. Does nothing.
pub fn a_step_waits_for_a_statement_in_hand()
    ensures hands { OnlyHandsAreWaitedFor }
    ensures alone { NoStepWaitsAlone }
{
    table_stays_covered();
    blocked_statements_wait();
}

/// A session that has no statement in hand is at nothing in any table, whatever it and the others did before. Does nothing.
pub fn a_session_without_statement_rests()
    ensures { RestsWithoutStatement }
{
    table_stays_covered();
}

/// A place behind lines that were answered, from a start on, is one to which the script comes; and so is one between two steps of a line: what a line
/// does are names, submissions and steps of its session. Does nothing.
pub fn answered_lines_lead_there()
    ensures lines { AnsweredLinesReach }
    ensures behind { AnsweredLineReaches }
    ensures within { BegunLineReaches }
{
    value_of_is_denoted();
    denoted_is_of_kind();
}
