//! Laws of refusals. None does anything.

ghost use Rattle.session_parts.specs.RefusalLaws.{InsertIsRefused, MaintenanceIsRefused, MaintenanceRefusalIsShown, MarkIsRefused, RefusalIsShown, RowIsRefused, ScanIsRefused};

/// A refusal is a turn of its statement: of an insert without a row or with a full index, of a scan for memory, of a mark for a conflict, and of
/// maintenance with a full index.
pub fn a_refusal_turns()
    ensures row { RowIsRefused }
    ensures insert { InsertIsRefused }
    ensures scan { ScanIsRefused }
    ensures mark { MarkIsRefused }
    ensures maintenance { MaintenanceIsRefused }
{}

/// The table of a refused statement is shown when its session has given its locks and its transaction has failed; and that of maintenance when
/// its session has given its page locks and the summarise lock.
pub fn a_refusal_is_shown()
    ensures transaction { RefusalIsShown }
    ensures maintenance { MaintenanceRefusalIsShown }
{}
