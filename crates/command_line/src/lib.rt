//! The command that the words of a command line are, and the declarations among them. `read_command` answers Ok only where the words are a
//! command, with the one that they are (specs/CommandWords.antt); which word belongs to which option, `=`, repeats, `--` and unknown words
//! are clap's doing. `read_declarations` answers Ok exactly on the lists of declarations, with the schema that they denote
//! (specs/DeclaredSchema.antt), and else names the first word at fault and the byte in it. Limits of a schema aren't judged here:
//! `Layout::new` judges them. It stands on block_model and value_text.
#![tactic(auto)]

mod answered;
mod class;
mod column;
mod command;
mod declaration;
mod declaration_laws;
mod declarations;
mod declare;
mod defaults;
mod index;
mod judge;
mod laws;
mod limits;
mod list;
mod matching;
mod name;
mod number;
mod part;
mod program;
mod setting;
mod table;
mod text;

pub use answered::ANSWERS_AUTOSUMMARIZE;
pub use command::{Command, CommandFault, read_command};
pub use declaration_laws::{
    bytes_are_one_declaration, faulty_words_denote_nothing, first_fault_is_one,
    words_denote_one_schema,
};
pub use declarations::{DeclFault, read_declarations, read_declarations_with};
pub use laws::{
    demos_have_limits, further_word_is_declared_last, options_have_their_numbers,
    options_stand_once, order_says_nothing, sizes_have_defaults, stored_run_is_bare,
    stored_threads_are_bare, words_are_one_command,
};
