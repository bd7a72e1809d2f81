//! What a summarize, a desummarize and a vacuum answer, and by which steps.

ghost use Rattle.script_laws.specs.RowLaws.{AOneRangeTableIsSummarized, ARangeIsDesummarized, ARangeIsSummarized, ASummarizedRangeIsLeft, AVacuumCountsRowsAndRanges, AVacuumCountsRowsAndTuples, NothingIsDesummarized};

/// A summarize of a range without a tuple makes the steps right, map, put, set and extent, a pass for each block, and map and copy, and answers 1
/// by its swap; so does one of a whole table that is one range. One of a range with a final tuple answers 0 where it has read that. Does
/// nothing.
pub fn a_range_is_summarized()
    ensures range { ARangeIsSummarized }
    ensures table { AOneRangeTableIsSummarized }
    ensures left { ASummarizedRangeIsLeft }
{}

/// A desummarize of a range with an entry makes the steps right, map and clear, and answers 1 by its drop; one of a range without an entry answers 0
/// where it has read the map. Does nothing.
pub fn a_range_is_desummarized()
    ensures entry { ARangeIsDesummarized }
    ensures none { NothingIsDesummarized }
{}

/// A vacuum of a table of one block and one index counts exactly the rows there that no transaction can see any more. It counts one range where that
/// is whole and has no tuple, and no page has tuples; and the unnamed tuples, where one page has tuples and the range isn't whole. Does nothing.
pub fn a_vacuum_counts_what_it_drops()
    ensures ranges { AVacuumCountsRowsAndRanges }
    ensures tuples { AVacuumCountsRowsAndTuples }
{}
