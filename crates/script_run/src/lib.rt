//! The run of a script: each line is answered by an engine, and its answer written before the next line is asked for. `Lines` hands out
//! each whole line of a source before it reads more, and takes no byte past the limit but the one that shows that there is more. The
//! contract of `run` says, for each fault that may end it, which lines were answered and what was written (specs/Runs), by the relation
//! that the engine names. It stands on block_model, io_traits and memchr. The layer above gives an `Engine`, a source and a sink to `run`.
#![tactic(auto)]

mod cursor;
mod end;
mod engine;
mod fault;
mod reader;
mod script;

pub use cursor::KEPT;
pub use end::{LinesEnd, Stage};
pub use engine::{AnswerFault, Engine};
pub use fault::RunFault;
pub use reader::Lines;
pub use script::run;
