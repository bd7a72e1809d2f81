//! Whom a step waits for, and what it is told.

ghost use Rattle.script_laws.specs.RowLaws.{ADesummarizeWaitsForAPage, ALockIsWaitedFor, AnInsertWaitsForAPage};

/// The first step of a maintenance statement of a table whose summarise lock another session has is told error 11 with `work`, the table's name and
/// the holder's. A step that needs a page of an index which another session locks is told error 11 with `page`, the index's name, the page's number
/// and the holder's name: that of an insert whose tuple is copied there, and that of a desummarize whose entry names a place there. No other
/// text is told, and nothing changes. Does nothing.
pub fn a_step_is_told_its_holder()
    ensures lock { ALockIsWaitedFor }
    ensures insert { AnInsertWaitsForAPage }
    ensures desummarize { ADesummarizeWaitsForAPage }
{}
