//! How many requests steps, lines and scripts make, and which scripts fit the journal.

ghost use Rattle.script_laws.specs.LineVerbs.{LinesAreReadByVerbs, WordsBoundRequests};
ghost use Rattle.script_laws.specs.RequestBounds.{LinesMakeFewRequests, ScriptsBegin, ScriptsHaveRoom, ScriptsWithRoomFit, StepsEnterFewRequests};

use value_text::{denoted_is_of_kind, value_of_is_denoted};

/// A step lengthens the journal, at any place: by two requests at most where its statement goes on, and by one where that is no delete. Does nothing.
pub fn a_step_enters_few_requests()
    ensures { StepsEnterFewRequests }
{}

/// From where a script begins, the lines that were answered made no more requests than theirs at most. So where those aren't more than the journal has
/// places, no line finds it full. Does nothing.
pub fn the_requests_of_lines_are_bounded()
    ensures begin { ScriptsBegin }
    ensures few { LinesMakeFewRequests }
    ensures fit { ScriptsWithRoomFit }
{}

/// A script that doesn't delete has that room where its lines and its begins are no more than the journal has places. One that may delete has it where
/// each of its lines may mark all rows. Does nothing.
pub fn short_scripts_have_room()
    ensures { ScriptsHaveRoom }
{}

/// The second word of a line that is read is its order's verb, and the third one that of a statement that is started. So a line that hasn't the word
/// `delete` there makes two requests at most, and a step or a finish makes none of its own. Does nothing.
pub fn words_bound_requests()
    ensures verbs { LinesAreReadByVerbs }
    ensures requests { WordsBoundRequests }
{
    value_of_is_denoted();
    denoted_is_of_kind();
}
