//! What `clap` is told of the words, and what it makes of them.
ghost use Rattle.std.specs.Prelude.{◌≡◌, ◌≢◌, IfOk, OnOk, false, option_and_then};
ghost use Rattle.clap.specs.Walk.{rule_of};
ghost use Rattle.clap.specs.Words.{app_of, kind_of, subcommand_rows_of};
ghost use Rattle.clap.specs.declared.builder.command.Command.TheViews.{out-Command};
ghost use Rattle.rtlc_words.specs.machine.Grammar as spec;
ghost use Rattle.rtlc_words.specs.Words.{words_of};

use clap::error::ErrorKind;
use clap::{Arg, ArgAction, ArgMatches, Command, Error};
use plain_data::Memory;
use std::alloc::{AllocError, Global};

/// The option `--md NAME`.
fn description<'a>(alloc: Global) -> Arg<'a>
    ensures rule { rule_of result ≡ spec.md_rule }
    ensures local { result.global ≡ false }
{
    Arg::new(alloc, "md").long("md").action(ArgAction::Set)
}

/// Any number of positional words.
fn positional<'a>(alloc: Global) -> Arg<'a>
    ensures rule { rule_of result ≡ spec.words_rule }
    ensures local { result.global ≡ false }
{
    Arg::new(alloc, "words")
        .action(ArgAction::Append)
        .num_args(0..)
}

/// A command of the program. Each has the option `--md NAME`, and any number of positional words.
fn subcommand<'a>(alloc: Global, name: &'a str) -> Result<Command<'a>, AllocError>
    ensures app { IfOk result (λ command. app_of command ≡ spec.leaf name.entry.now) }
    ensures local { IfOk result (λ command. (out-Command command).has_globals ≡ false) }
{
    let described = Command::new(alloc, name).arg(description(alloc))?;
    described.arg(positional(alloc))
}

/// The program with no command. It has no help, and its words do not begin with its name.
fn bare<'a>(alloc: Global) -> Command<'a>
    ensures { app_of result ≡ spec.bare }
{
    Command::new(alloc, "rtlc")
        .no_binary_name(true)
        .disable_help_flag(true)
        .disable_help_subcommand(true)
        .disable_version_flag(true)
}

/// The program with one more command.
fn with_command<'a>(
    program: Command<'a>,
    alloc: Global,
    name: &'a str,
) -> Result<Command<'a>, AllocError>
    ensures { IfOk result (λ command.
        app_of command ≡ spec.with_leaf (app_of program.entry) name.entry.now) }
{
    match subcommand(alloc, name) {
        Ok(command) => program.subcommand(command),
        Err(error) => {
            drop(program);
            Err(error)
        }
    }
}

/// The program with two more commands.
fn with_two<'a>(
    program: Command<'a>,
    alloc: Global,
    first: &'a str,
    second: &'a str,
) -> Result<Command<'a>, AllocError>
    ensures { IfOk result (λ command. app_of command ≡ spec.with_leaf
        (spec.with_leaf (app_of program.entry) first.entry.now) second.entry.now) }
{
    with_command(with_command(program, alloc, first)?, alloc, second)
}

/// The program with its commands.
fn program<'a>(alloc: Global) -> Result<Command<'a>, AllocError>
    ensures { IfOk result (λ command. app_of command ≡ spec.program) }
{
    let program = with_two(bare(alloc), alloc, "asm", "list")?;
    let program = with_two(program, alloc, "recog", "dump")?;
    let program = with_two(program, alloc, "eval", "make")?;
    let program = with_two(program, alloc, "image", "reuse")?;
    let program = with_two(program, alloc, "schedule", "cycles")?;
    with_command(program, alloc, "plain")
}

/// An error is the want of memory, or says that the words are refused.
fn refused(error: &Error) -> Result<(), Memory>
    ensures { OnOk result (kind_of error.now ≢ ErrorKind.OutOfMemory) }
{
    if error.kind() == ErrorKind::OutOfMemory {
        Err(Memory)
    } else {
        Ok(())
    }
}

/// What `clap` makes of the words, or `None` where it refuses them.
pub(crate) fn parsed<'a>(
    alloc: Global,
    words: &'a [&'a str],
) -> Result<Option<ArgMatches<'a>>, Memory>
    ensures { IfOk result (λ matches.
        option_and_then subcommand_rows_of matches ≡ spec.found_in (words_of words.entry.now)) }
{
    match program(alloc)?.try_get_matches_from(words) {
        Ok(matches) => Ok(Some(matches)),
        Err(error) => {
            refused(&error)?;
            Ok(None)
        }
    }
}
