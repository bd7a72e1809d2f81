//! What a select is answered.

ghost use Rattle.script_laws.specs.TextLaws.{SelectsMissNothing};

use script_semantics::answers_are_of_the_copy;

/// A select is answered exactly the rows of its session's copy that match, whatever its steps went over and however the other sessions' steps
/// came between them: none of its requests is answered before its reply. Does nothing.
pub fn a_select_misses_nothing()
    ensures { SelectsMissNothing }
{
    answers_are_of_the_copy();
}
