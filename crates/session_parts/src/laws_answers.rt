//! Laws of the answers that statements in hand have had. None does anything.

ghost use Rattle.session_parts.specs.AnswerLaws.{AnsweredDeletesMark, AnswersAreInPlace};

use coverage::refusals_have_their_cause;

/// Where a store shows the place, a delete of which a request was answered is at its marks in its table, so it lacks no memory; and the answers of each
/// statement that is fit for its next step fit what it is at there.
pub fn answers_are_in_place()
    ensures marks { AnsweredDeletesMark }
    ensures place { AnswersAreInPlace }
{
    refusals_have_their_cause();
}
