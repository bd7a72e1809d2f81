//! What clap finds in words.

ghost use Rattle.std.specs.Prelude.{◌≡◌, ◌↔◌, [], IfOk, IfErr, MatchOption, map, false, true, Some, None, option_map, bytes_eq, codes, is_some};
ghost use Rattle.clap.specs.Words.{found_of, rows_of, subcommand_rows_of};
ghost use Rattle.command_line.specs.ClapCommands.{Enters, command_said, program_subs};
ghost use Rattle.command_line.specs.ClapReading.{has_no_single_hyphen, number_read, numbers_given, size_given};
ghost use Rattle.command_line.specs.ClapRules.{RowsShow, declared_id};
ghost use Rattle.command_line.specs.CommandWords.{WordsSaid, Text, is_any_given, size_options, sizes_of, value_of};
ghost use Rattle.command_line.specs.declared.command.CommandFault.TheVariants.{Usage};

use crate::command::CommandFault;
use crate::defaults::{FRAMES, HEAP_BLOCKS, INDEX_BLOCKS, LOG_PAGES, STATUS_BLOCKS};
use crate::number::read_number;
use crate::program::{DECLARED, program};
use block_model::{NoMemory, Sizes, Words};
use clap::ArgMatches;
use clap::error::ErrorKind;
use std::alloc::Global;

/// The matches of the command that the words are, by clap's reading. Usage comes exactly where they are none.
pub fn matched<'a>(alloc: Global, words: &'a [&'a str]) -> Result<ArgMatches<'a>, CommandFault>
    requires { has_no_single_hyphen (map (λ w. w.now) words.now) ≡ true }
    ensures ok { IfOk result (λ m. (said : Text × WordsSaid) × (command_said program_subs (map (λ w. w.now) words.now) ≡ Some said) × Enters (subcommand_rows_of m) said) }
    ensures usage { IfErr result (λ e. e ≡ Usage → command_said program_subs (map (λ w. w.now) words.now) ≡ None) }
{
    let command = program(alloc)?;
    match command.try_get_matches_from(words) {
        Ok(matches) => Ok(matches),
        Err(error) => match error.kind() {
            ErrorKind::OutOfMemory => Err(CommandFault::Memory),
            _ => Err(CommandFault::Usage),
        },
    }
}

/// The sizes of a store, each the number of its option or its default. None where an option's value is no number.
pub fn sizes_in(matches: &ArgMatches<'_>) -> Option<Sizes>
    ensures { (said : WordsSaid) → RowsShow (rows_of (found_of matches.now)) said → MatchOption result (numbers_given size_options said.values ≡ false) (λ sizes. (numbers_given size_options said.values ≡ true) × (sizes ≡ sizes_of said)) }
{
    Some(Sizes {
        heap_blocks: size_in(matches, "heap-blocks", HEAP_BLOCKS)?,
        index_blocks: size_in(matches, "index-blocks", INDEX_BLOCKS)?,
        status_blocks: size_in(matches, "status-blocks", STATUS_BLOCKS)?,
        log_pages: size_in(matches, "log-pages", LOG_PAGES)?,
        frames: size_in(matches, "frames", FRAMES)?,
    })
}

/// The number of the option, or the default where it isn't given. None where its value is no number.
fn size_in(matches: &ArgMatches<'_>, name: &str, default: u32) -> Option<u32>
    ensures { (said : WordsSaid) → RowsShow (rows_of (found_of matches.now)) said → bytes_eq declared_id name.now ≡ false → result ≡ size_given default (value_of name.now said.values) }
{
    match value_in(matches, name) {
        Some(value) => read_number(value.as_bytes()),
        None => Some(default),
    }
}

/// One of the sizes has an option.
pub fn has_size(matches: &ArgMatches<'_>) -> bool
    ensures { (said : WordsSaid) → RowsShow (rows_of (found_of matches.now)) said → result ≡ is_any_given size_options said }
{
    is_given(matches, "heap-blocks")
        || is_given(matches, "index-blocks")
        || is_given(matches, "status-blocks")
        || is_given(matches, "log-pages")
        || is_given(matches, "frames")
}

/// The option stands in the words.
fn is_given(matches: &ArgMatches<'_>, name: &str) -> bool
    ensures { (said : WordsSaid) → RowsShow (rows_of (found_of matches.now)) said → bytes_eq declared_id name.now ≡ false → result ≡ is_some (value_of name.now said.values) }
{
    value_in(matches, name).is_some()
}

/// The number of the option. None where it isn't given, and where its value is no number.
pub fn number_in(matches: &ArgMatches<'_>, name: &str) -> Option<u32>
    ensures { (said : WordsSaid) → RowsShow (rows_of (found_of matches.now)) said → bytes_eq declared_id name.now ≡ false → result ≡ number_read (value_of name.now said.values) }
{
    match value_in(matches, name) {
        Some(value) => read_number(value.as_bytes()),
        None => None,
    }
}

/// The value that was given for the option.
fn value_in<'a>(matches: &ArgMatches<'a>, name: &str) -> Option<&'a str>
    ensures { (said : WordsSaid) → RowsShow (rows_of (found_of matches.now)) said → bytes_eq declared_id name.now ≡ false → option_map (λ s. s.now) result ≡ value_of name.now said.values }
{
    matches.get_str(name)
}

/// No word is declared.
pub fn declares_nothing(matches: &ArgMatches<'_>) -> bool
    ensures { (said : WordsSaid) → RowsShow (rows_of (found_of matches.now)) said → (result ≡ true) ↔ (said.declared ≡ []) }
{
    matches.get_raw(DECLARED).is_none()
}

/// The declared words, in their order.
pub fn declared_in(alloc: Global, matches: &ArgMatches<'_>) -> Result<Words, NoMemory>
    ensures { IfOk result (λ words. (said : WordsSaid) → RowsShow (rows_of (found_of matches.now)) said → words ≡ said.declared) }
{
    match matches.get_raw(DECLARED) {
        Some(words) => copied(alloc, words),
        None => Ok(Words::new(alloc)),
    }
}

/// A copy of the words.
fn copied(alloc: Global, words: &[&str]) -> Result<Words, NoMemory>
    ensures { IfOk result (λ copy. copy ≡ map (λ w. w.now) words.now) }
{
    let mut copy = Words::new(alloc);
    'words: for word in words {
        copy.push(word.as_bytes())?;
    }
    Ok(copy)
}
