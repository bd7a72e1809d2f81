//! The law of a store that was opened. It does nothing.

ghost use Rattle.session_parts.specs.OpeningLaws.{OpenedIsShown};

/// A store in which nobody has anything in hand and no table's summarise lock is held shows the place at which a script begins over its database.
pub fn an_opened_store_is_shown()
    ensures { OpenedIsShown }
{}
