//! What a summarize and a desummarize answer.

ghost use Rattle.script_laws.specs.TextLaws.{DesummarizeAnswersItsRange, SummarizeCountsItsRanges};

use coverage::table_stays_covered;

/// A summarize of a whole table whose steps no other session's come between answers how many of the ranges that begin below the table's
/// blocks had no final tuple; and behind it each of them has one. Does nothing.
pub fn a_summarize_leaves_no_range_out()
    ensures { SummarizeCountsItsRanges }
{
    table_stays_covered();
}

/// A desummarize whose steps no other session's come between answers 1 exactly where its range had an entry, else 0; and behind it the range
/// has none. Does nothing.
#[tactic(auto, using(crate::proofs::Clears::desummarize_answers))]
pub fn a_desummarize_answers_its_range()
    ensures { DesummarizeAnswersItsRange }
{}
