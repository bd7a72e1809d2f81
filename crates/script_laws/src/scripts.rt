//! Lines from where a script stands at its first one.

ghost use Rattle.script_laws.specs.RowLaws.{ANewRowIsSummarized, AScriptSummarizesItsRow};

/// From new tables on, a begin is told `begun 1`, its insert `inserted 1.0`, and a summarize of another session then makes the steps of a range of one
/// block and is told `summarized 1`. So it is at any place where a sound transaction puts the first row of a new table. Does nothing.
pub fn a_script_summarizes_its_row()
    ensures new { ANewRowIsSummarized }
    ensures script { AScriptSummarizesItsRow }
{}
