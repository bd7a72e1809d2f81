//! The commands as clap is given them.

ghost use Rattle.std.specs.Prelude.{◌≡◌, IfOk, map, false, codes};
ghost use Rattle.clap.specs.Words.{app_of, rule_of, shape_of, with_subcommand};
ghost use Rattle.clap.specs.declared.builder.command.Command.TheViews.{out-Command as fields_of};
ghost use Rattle.command_line.specs.ClapCommands.{no_commands, program_subs, raw_app, raw_declared, raw_leaf, raw_option};

use clap::{Arg, ArgAction, Command};
use std::alloc::{AllocError, Global};

/// What clap calls the declared words.
pub const DECLARED: &str = "DECL";

/// The options of a store's sizes.
static SIZE_OPTIONS: [&str; 5] = [
    "heap-blocks",
    "index-blocks",
    "status-blocks",
    "log-pages",
    "frames",
];

/// The options of a demo.
static DEMO_OPTIONS: [&str; 2] = ["seed", "rows"];

/// The program's command line.
pub fn program<'a>(alloc: Global) -> Result<Command<'a>, AllocError>
    ensures { IfOk result (λ c. app_of c ≡ raw_app (codes "brin") program_subs) }
{
    let with_init = with_command(alloc, no_commands(alloc), "init", SIZE_OPTIONS.as_slice())?;
    let with_run = with_command(alloc, with_init, "run", SIZE_OPTIONS.as_slice())?;
    let with_threads = with_command(alloc, with_run, "threads", SIZE_OPTIONS.as_slice())?;
    with_command(alloc, with_threads, "demo", DEMO_OPTIONS.as_slice())
}

/// A command line with no command: no help, no version, and one command is wanted.
fn no_commands<'a>(alloc: Global) -> Command<'a>
    ensures { app_of result ≡ no_commands }
{
    Command::new(alloc, "brin")
        .no_binary_name(true)
        .disable_help_flag(true)
        .disable_help_subcommand(true)
        .disable_version_flag(true)
        .subcommand_required(true)
}

/// One command more.
fn with_command<'a>(
    alloc: Global,
    command: Command<'a>,
    name: &'a str,
    options: &'a [&'a str],
) -> Result<Command<'a>, AllocError>
    ensures { IfOk result (λ r. app_of r ≡ with_subcommand (app_of command.entry) (raw_leaf (name.now, map (λ o. o.now) options.now))) }
{
    let added = command_named(alloc, name, options)?;
    command.subcommand(added)
}

/// A command with options of these names and declared words.
fn command_named<'a>(
    alloc: Global,
    name: &'a str,
    options: &'a [&'a str],
) -> Result<Command<'a>, AllocError>
    ensures shape { IfOk result (λ c. shape_of c ≡ raw_leaf (name.now, map (λ o. o.now) options.now)) }
    ensures local { IfOk result (λ c. (fields_of c).has_globals ≡ false) }
{
    let mut command = Command::new(alloc, name);
    'options: for option in options {
        command = command.arg(option_named(alloc, option))?;
    }
    command.arg(declared_words(alloc))
}

/// `--name VALUE` or `--name=VALUE`, at most once.
fn option_named<'a>(alloc: Global, name: &'a str) -> Arg<'a>
    ensures rule { rule_of result ≡ raw_option name.now }
    ensures local { result.global ≡ false }
{
    Arg::new(alloc, name).long(name).action(ArgAction::Set)
}

/// The words that are no options.
fn declared_words<'a>(alloc: Global) -> Arg<'a>
    ensures rule { rule_of result ≡ raw_declared }
    ensures local { result.global ≡ false }
{
    Arg::new(alloc, DECLARED).action(ArgAction::Append)
}
