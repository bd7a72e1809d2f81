//! Laws of statements that are taken, and of sessions that are made. None does anything.

ghost use Rattle.session_parts.specs.SubmitLaws.{NamedIsShown, SubmittedIsShown};

/// A statement that is taken, and has made no step, is in hand in the place that the store shows then; and a session that is made is named there.
pub fn a_submitted_statement_is_shown()
    ensures submitted { SubmittedIsShown }
    ensures named { NamedIsShown }
{}
