//! What plain lines are to the lines of the engine's language, and what is so of each script.

ghost use Rattle.std.specs.Prelude.{ℕ, List};
ghost use Rattle.block_model.specs.declared.schema.Schema.{Schema as OneSchema};
ghost use Rattle.plain_script.specs.PlainLineLaws.{AllOrdersAreWhole, OthersAreTheSame, PlainLinesAreLines, StepsAreNoWords};
ghost use Rattle.plain_script.specs.PlainScripts.{HasItsSessions, plain_script};
ghost use Rattle.plain_script.specs.ScriptLaws.{SessionsHaveTheirLines};

/// A line is refused at `start`, `step` or `finish` behind its session's name, and any other is what it is to the engine. So each whole
/// statement is read as the same. Does nothing.
pub fn plain_lines_are_lines()
    ensures steps { StepsAreNoWords }
    ensures others { OthersAreTheSame }
    ensures same { PlainLinesAreLines }
    ensures whole { AllOrdersAreWhole }
{}

/// Each script has at most as many sessions as there may be, no two of one name, and each line is one's. Does nothing.
pub fn sessions_are_apart()
    ensures { (schema : OneSchema) (lines : List (List ℕ)) → HasItsSessions (plain_script schema lines) }
{}

/// Each session has exactly what the lines of its name say, in their order, and a name of which a line says something is a session's, unless
/// there are as many as there may be. Does nothing.
pub fn sessions_have_their_lines()
    ensures { SessionsHaveTheirLines }
{}
