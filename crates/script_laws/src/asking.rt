//! What becomes of a summary that an insert asks for.

ghost use Rattle.script_laws.specs.RowLaws.{AnAskIsDropped, AnAskJoins};

/// An insert whose row comes to the first place of a range asks for the summary of the range before, by its step ask: that joins the queue behind all
/// that is there, and where 64 are there it is dropped, and told before the insert's reply. Does nothing.
pub fn an_ask_beyond_64_is_dropped()
    ensures dropped { AnAskIsDropped }
    ensures joins { AnAskJoins }
{}
