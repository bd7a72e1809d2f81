//! A script of plain lines, read whole before any of its lines is answered, and kept by session: for sessions that work beside each other, one
//! worker each. In its grammar `start`, `step` and `finish` are no words. `read_script` answers exactly the sessions, the workers' lines and the
//! texts of all other lines that specs/PlainScripts says of the bytes, whatever the pieces in which they come. It stands on query_words for lines,
//! on script_run for the loop over them, and on reply_texts for texts. The layer above takes each statement out once, and uses the laws on lines.
#![tactic(auto)]

mod fault;
mod gatherer;
mod kept;
mod laws;
mod nowhere;
mod plain_line;
mod reader;
mod script_lines;

pub use fault::ScriptFault;
pub use laws::{plain_lines_are_lines, sessions_are_apart, sessions_have_their_lines};
pub use plain_line::{PLAIN, PlainLine, read_plain_line};
pub use reader::read_script;
pub use script_lines::ScriptLines;
