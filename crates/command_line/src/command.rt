//! The command that words are.

ghost use Rattle.std.specs.Prelude.{◌≡◌, [], IfOk, IfErr, map, Some, None};
ghost use Rattle.clap.specs.Words.{found_of, rows_of};
ghost use Rattle.command_line.specs.ClapCommands.{command_matched, meaning_checked};
ghost use Rattle.command_line.specs.ClapRules.{RowsShow};
ghost use Rattle.command_line.specs.CommandWords.{WordsSaid, demo_form, demo_with, init_form, is_demo, run_form, stored_with, threads_form, IsCommand, IsOnlyCommand};
ghost use Rattle.command_line.specs.ReadingOrder.{command_of};
ghost use Rattle.command_line.specs.declared.command.Command.{Command};
ghost use Rattle.command_line.specs.declared.command.CommandFault.TheVariants.{Usage, Memory};

use crate::limits::{MAX_ROWS, MAX_SEED, MIN_ROWS};
use crate::matching::{declared_in, declares_nothing, has_size, matched, number_in, sizes_in};
use crate::text::{has_no_single_hyphen, texts_of};
use block_model::{NoMemory, Sizes, Words};
use clap::ArgMatches;
use std::alloc::{AllocError, AllocFailed, Global};
use thiserror::Error;

/// What the words of a command line ask for.
#[derive(Debug, Drop)]
pub enum Command {
    /// `init`: an empty store of these sizes, each the number of its option or its default, and of the declared words in their order.
    Init { sizes: Sizes, declarations: Words },
    /// `run` with declared words: the script is run over such a store.
    Run { sizes: Sizes, declarations: Words },
    /// `run` without them: the script is run over the store that stands there.
    RunStored,
    /// `threads` with declared words: the script is run over such a store, each session by a thread of its own.
    Threads { sizes: Sizes, declarations: Words },
    /// `threads` without them: it is run so over the store that stands there.
    ThreadsStored,
    /// `demo`: the seed and the number of rows.
    Demo { seed: u32, rows: u32 },
}

/// Why words aren't read as a command.
#[derive(Clone, Copy, Debug, PartialEq, Eq, Error)]
pub enum CommandFault {
    /// They are none.
    #[error("the words are no command")]
    Usage,
    /// Memory ran out.
    #[error("out of memory")]
    Memory,
}

impl From<NoMemory> for CommandFault {
    ghost from_gives = { λ _ fault. fault ≡ Memory };

    fn from(_error: NoMemory) -> CommandFault {
        CommandFault::Memory
    }
}

impl From<AllocError> for CommandFault {
    ghost from_gives = { λ _ fault. fault ≡ Memory };

    fn from(_error: AllocError) -> CommandFault {
        CommandFault::Memory
    }
}

impl<T: Drop> From<AllocFailed<T>> for CommandFault {
    ghost from_gives = { λ _ fault. fault ≡ Memory };

    fn from(_error: AllocFailed<T>) -> CommandFault {
        CommandFault::Memory
    }
}

/// The command that the words are, and the only one. Usage comes where they are none; want of memory is free.
#[tactic(auto, using(crate::proofs::SpeltLaws::ok_spelt, crate::proofs::SpeltLaws::usage_unspelt))]
pub fn read_command(alloc: Global, words: &Words) -> Result<Command, CommandFault>
    ensures ok { IfOk result (IsOnlyCommand words.now) }
    ensures usage { IfErr result (λ fault. fault ≡ Usage → (command : Command) → ¬ (IsCommand words.now command)) }
{
    read_in_order(alloc, words)
}

/// The command that the words are, read one after the other.
#[tactic(auto, using(crate::proofs::JudgedLemmas::command_alike))]
fn read_in_order(alloc: Global, words: &Words) -> Result<Command, CommandFault>
    ensures ok { IfOk result (λ command. command_of words.now ≡ Some command) }
    ensures usage { IfErr result (λ fault. fault ≡ Usage → command_of words.now ≡ None) }
{
    let texts = texts_of(alloc, words)?;
    read_texts(alloc, texts.as_slice())
}

/// The command that the texts are, by clap's matches.
fn read_texts<'a>(alloc: Global, words: &'a [&'a str]) -> Result<Command, CommandFault>
    ensures ok { IfOk result (λ command. command_matched (map (λ w. w.now) words.now) ≡ Some command) }
    ensures usage { IfErr result (λ fault. fault ≡ Usage → command_matched (map (λ w. w.now) words.now) ≡ None) }
{
    if !has_no_single_hyphen(words) {
        return Err(CommandFault::Usage);
    }
    let matches = matched(alloc, words)?;
    match matches.subcommand() {
        Some(("init", inner)) => init_in(alloc, inner),
        Some(("run", inner)) => run_in(alloc, inner),
        Some(("threads", inner)) => threads_in(alloc, inner),
        Some(("demo", inner)) => demo_in(inner),
        _ => Err(CommandFault::Usage),
    }
}

/// The matches of `init`, read.
fn init_in(alloc: Global, matches: &ArgMatches<'_>) -> Result<Command, CommandFault>
    ensures ok { IfOk result (λ command. (said : WordsSaid) → RowsShow (rows_of (found_of matches.now)) said → meaning_checked init_form said ≡ Some command) }
    ensures usage { IfErr result (λ fault. fault ≡ Usage → (said : WordsSaid) → RowsShow (rows_of (found_of matches.now)) said → meaning_checked init_form said ≡ None) }
{
    let Some(sizes) = sizes_in(matches) else {
        return Err(CommandFault::Usage);
    };
    let declarations = declared_in(alloc, matches)?;
    if declarations.len() == 0 {
        return Err(CommandFault::Usage);
    }
    Ok(Command::Init {
        sizes,
        declarations,
    })
}

/// The matches of `run`, read.
fn run_in(alloc: Global, matches: &ArgMatches<'_>) -> Result<Command, CommandFault>
    ensures ok { IfOk result (λ command. (said : WordsSaid) → RowsShow (rows_of (found_of matches.now)) said → meaning_checked run_form said ≡ Some command) }
    ensures usage { IfErr result (λ fault. fault ≡ Usage → (said : WordsSaid) → RowsShow (rows_of (found_of matches.now)) said → meaning_checked run_form said ≡ None) }
{
    let Some(sizes) = sizes_in(matches) else {
        return Err(CommandFault::Usage);
    };
    let declarations = declared_in(alloc, matches)?;
    if declarations.len() == 0 {
        return over_store(Command::RunStored, has_size(matches));
    }
    Ok(Command::Run {
        sizes,
        declarations,
    })
}

/// The matches of `threads`, read.
fn threads_in(alloc: Global, matches: &ArgMatches<'_>) -> Result<Command, CommandFault>
    ensures ok { IfOk result (λ command. (said : WordsSaid) → RowsShow (rows_of (found_of matches.now)) said → meaning_checked threads_form said ≡ Some command) }
    ensures usage { IfErr result (λ fault. fault ≡ Usage → (said : WordsSaid) → RowsShow (rows_of (found_of matches.now)) said → meaning_checked threads_form said ≡ None) }
{
    let Some(sizes) = sizes_in(matches) else {
        return Err(CommandFault::Usage);
    };
    let declarations = declared_in(alloc, matches)?;
    if declarations.len() == 0 {
        return over_store(Command::ThreadsStored, has_size(matches));
    }
    Ok(Command::Threads {
        sizes,
        declarations,
    })
}

/// The command over the store that stands there, where no option was given.
fn over_store(stored: Command, is_given: bool) -> Result<Command, CommandFault>
    ensures ok { IfOk result (λ command. stored_with stored is_given ≡ Some command) }
    ensures usage { IfErr result (λ fault. stored_with stored is_given ≡ None) }
{
    if is_given {
        return Err(CommandFault::Usage);
    }
    Ok(stored)
}

/// The matches of `demo`, read.
fn demo_in(matches: &ArgMatches<'_>) -> Result<Command, CommandFault>
    ensures ok { IfOk result (λ command. (said : WordsSaid) → RowsShow (rows_of (found_of matches.now)) said → meaning_checked demo_form said ≡ Some command) }
    ensures usage { IfErr result (λ fault. fault ≡ Usage → (said : WordsSaid) → RowsShow (rows_of (found_of matches.now)) said → meaning_checked demo_form said ≡ None) }
{
    let Some(seed) = number_in(matches, "seed") else {
        return Err(CommandFault::Usage);
    };
    let Some(rows) = number_in(matches, "rows") else {
        return Err(CommandFault::Usage);
    };
    if !declares_nothing(matches) {
        return Err(CommandFault::Usage);
    }
    demo_of(seed, rows)
}

/// A demo of these numbers, where they are within their limits.
fn demo_of(seed: u32, rows: u32) -> Result<Command, CommandFault>
    ensures ok { IfOk result (λ command. demo_with seed rows [] ≡ Some command) }
    ensures usage { IfErr result (λ fault. demo_with seed rows [] ≡ None) }
{
    if !is_demo(seed, rows) {
        return Err(CommandFault::Usage);
    }
    Ok(Command::Demo { seed, rows })
}

/// The numbers of a demo are within their limits.
fn is_demo(seed: u32, rows: u32) -> bool
    ensures { result ≡ is_demo seed rows }
{
    seed <= MAX_SEED && MIN_ROWS <= rows && rows <= MAX_ROWS
}
