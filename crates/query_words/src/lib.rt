//! The words of a script's lines, both ways: what a line says where tables are declared, or the fault of the first word that has one, with
//! that word's place; and the text of a line, which reads as the same line. A line is cut by `next_word`; a word by itself is a verb, an
//! operator, the number of a block, or a value of some kind. The grammar is specs/Grammar.antt, apart from reader and printer. It stands on
//! block_model and store_layout for what lines speak of, on value_text for values, and on command_line, whose reader of declarations it
//! hands on. The layer above speaks of lines as `line_of` and `line_text`, and of faults as `refusal_of`.
#![tactic(auto)]

mod block;
mod limits;
mod line;
mod line_laws;
mod line_length;
mod maintenance;
mod operator;
mod order;
mod print;
mod query;
mod refusal_laws;
mod statement;
mod syntax;
mod value_word;
mod verb;
mod word;
mod written;

pub use block::{is_block, read_block};
pub use command_line::{DeclFault, read_declarations};
pub use line::{Line, LineFault, Order, read_line, read_line_in};
pub use line_laws::{fault_is_stop, grammar_is_read, printed_line_reads_back, read_is_grammar};
pub use line_length::MAX_LINE;
pub use operator::{op_text, read_op, takes_operator};
pub use print::print_line;
pub use refusal_laws::{places_of_refusals, words_stand_in_order};
pub use value_word::{is_value_word, value_in};
pub use verb::{ANSWERED, Verb, read_verb, statement_verb, verb_text};
pub use word::{Rest, Word, is_word, next_word};
