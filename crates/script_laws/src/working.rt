//! What work answers.

ghost use Rattle.script_laws.specs.RowLaws.{WorkFindsNone, WorkTakesTheFirst};

/// Work takes the first summary that is asked for out of the queue by its step right, goes on as a summarize of that range, and answers its index,
/// its range and 1 where the range had no tuple. Where none is asked for, its first step is told `worked none`, and its line no other text but
/// that memory is short. Does nothing.
pub fn work_takes_the_first()
    ensures first { WorkTakesTheFirst }
    ensures none { WorkFindsNone }
{}
