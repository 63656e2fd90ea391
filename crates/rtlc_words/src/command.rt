//! The commands.
ghost use Rattle.std.specs.Prelude.{◌≡◌, IfOk, None, Some, option_map};
ghost use Rattle.clap.specs.Words.{found_of, rows_of, subcommand_rows_of};
ghost use Rattle.pass_name.specs.Pass.{pass_named};
ghost use Rattle.rtlc_words.specs.machine.Grammar.{arguments_of, command_found};
ghost use Rattle.rtlc_words.specs.Words as spec;
ghost use Rattle.rtlc_words.specs.declared.command.Command.TheVariants as commands;
ghost use Rattle.rtlc_words.specs.Words.{words_of};

use crate::grammar::parsed;
use crate::numbers::{args_in, made_in, steps_in};
use clap::ArgMatches;
use pass_name::{Pass, Road};
use plain_data::Memory;
use rtx_tree::Name;
use std::alloc::Global;

/// What is told of the functions of an input.
#[derive(Drop)]
pub enum Told {
    /// Their assembly.
    Lines {
        /// The passes that they go through.
        road: Road,
    },
    /// The form that matches each instruction, and its alternative.
    Forms,
    /// The cycle of each instruction that was put in order.
    Cycles,
    /// The words of their image.
    Words,
    /// The functions as they are behind a pass.
    Behind {
        /// The pass.
        pass: Pass,
    },
    /// The outcomes of a function and of its code.
    Outcomes {
        /// The function's name.
        function: Name,
        /// How many steps the function is run for, from 1 to 1,000.
        steps: u16,
        /// `a0` to `a7`.
        args: [u64; 8],
    },
}

/// A command. Its description is the name that stands behind `--md`, if there is one.
#[derive(Drop)]
pub enum Command {
    /// Something is told of the functions of the input, by a description.
    Over {
        /// The description.
        description: Option<Name>,
        /// What is told.
        told: Told,
    },
    /// The functions of the input that are of the plain profile are told. No description is looked
    /// at.
    Plain,
    /// The forms of a description are listed.
    Listed {
        /// The description.
        description: Option<Name>,
    },
    /// A function is generated, and a summary is told of it.
    Made {
        /// The description.
        description: Option<Name>,
        /// The function's number, from 0 to 9,000.
        number: u16,
    },
}

fn name_of(alloc: Global, text: Option<&str>) -> Result<Option<Name>, Memory>
    ensures { IfOk result (λ name. name ≡ option_map (λ s. s.now) text.entry) }
{
    match text {
        Some(text) => Ok(Some(Name::of(alloc, text.as_bytes())?)),
        None => Ok(None),
    }
}

/// What is told where no positional word stands, or `None` where one does.
fn only(told: Told, words: &[&str]) -> Option<Told>
    ensures { result ≡ spec.only told (words_of words.now) }
{
    match words {
        [] => Some(told),
        _ => None,
    }
}

/// The functions behind the pass that the one positional word names.
fn behind(words: &[&str]) -> Option<Told>
    ensures { result ≡ spec.behind (words_of words.now) }
{
    match words {
        [name] => Pass::named(name).map(|pass| Told::Behind { pass }),
        _ => None,
    }
}

fn outcomes_with(
    alloc: Global,
    function: &str,
    steps: &str,
    args: &[&str],
) -> Result<Option<Told>, Memory>
    ensures { IfOk result (λ told. told ≡ spec.outcomes_with function.now
        (spec.steps_in steps.now) (spec.args_in (words_of args.now))) }
{
    match (steps_in(steps), args_in(args)) {
        (Some(steps), Some(args)) => Ok(Some(Told::Outcomes {
            function: Name::of(alloc, function.as_bytes())?,
            steps,
            args,
        })),
        _ => Ok(None),
    }
}

/// The outcomes of a function that the positional words name, for the steps and the numbers that
/// they write.
fn outcomes(alloc: Global, words: &[&str]) -> Result<Option<Told>, Memory>
    ensures { IfOk result (λ told. told ≡ spec.outcomes (words_of words.now)) }
{
    match words {
        [function, steps, args @ ..] => outcomes_with(alloc, function, steps, args),
        _ => Ok(None),
    }
}

/// The command that tells something of the functions, where something is told.
fn over(
    alloc: Global,
    description: Option<&str>,
    told: Option<Told>,
) -> Result<Option<Command>, Memory>
    ensures { IfOk result (λ command.
        command ≡ spec.over_told (option_map (λ s. s.now) description.entry) told) }
{
    match told {
        Some(told) => {
            let description = name_of(alloc, description)?;
            Ok(Some(Command::Over { description, told }))
        }
        None => Ok(None),
    }
}

fn listed(
    alloc: Global,
    description: Option<&str>,
    words: &[&str],
) -> Result<Option<Command>, Memory>
    ensures { IfOk result (λ command.
        command ≡ spec.listed (option_map (λ s. s.now) description.entry) (words_of words.now)) }
{
    match words {
        [] => {
            let description = name_of(alloc, description)?;
            Ok(Some(Command::Listed { description }))
        }
        _ => Ok(None),
    }
}

/// The command that tells which functions are of the plain profile. It takes no description.
fn plain(description: Option<&str>, words: &[&str]) -> Option<Command>
    ensures { result ≡ spec.plain (option_map (λ s.
        s.now) description.entry) (words_of words.now) }
{
    match (description, words) {
        (None, []) => Some(Command::Plain),
        _ => None,
    }
}

/// The command that generates the function with a number, where there is a number.
fn made_with(
    alloc: Global,
    description: Option<&str>,
    number: Option<u16>,
) -> Result<Option<Command>, Memory>
    ensures { IfOk result (λ command. command ≡ option_map (λ n.
        commands.Made (option_map (λ s. s.now) description.entry) n) number) }
{
    match number {
        Some(number) => {
            let description = name_of(alloc, description)?;
            Ok(Some(Command::Made {
                description,
                number,
            }))
        }
        None => Ok(None),
    }
}

/// The command that generates the function with the number that the one positional word writes.
fn generated(
    alloc: Global,
    description: Option<&str>,
    words: &[&str],
) -> Result<Option<Command>, Memory>
    ensures { IfOk result (λ command.
        command ≡ spec.generated (option_map (λ s. s.now) description.entry) (words_of words.now)) }
{
    match words {
        [word] => made_with(alloc, description, made_in(word)),
        _ => Ok(None),
    }
}

/// The command of a name, with a description and positional words.
fn command_by(
    alloc: Global,
    name: &str,
    description: Option<&str>,
    words: &[&str],
) -> Result<Option<Command>, Memory>
    ensures { IfOk result (λ command.
        command ≡ spec.command_by name.now (option_map (λ s.
        s.now) description.entry) (words_of words.now)) }
{
    match name {
        "asm" => over(
            alloc,
            description,
            only(Told::Lines { road: Road::Usual }, words),
        ),
        "list" => listed(alloc, description, words),
        "recog" => over(alloc, description, only(Told::Forms, words)),
        "dump" => over(alloc, description, behind(words)),
        "eval" => over(alloc, description, outcomes(alloc, words)?),
        "make" => generated(alloc, description, words),
        "image" => over(alloc, description, only(Told::Words, words)),
        "reuse" => over(
            alloc,
            description,
            only(
                Told::Lines {
                    road: Road::Reusing,
                },
                words,
            ),
        ),
        "schedule" => over(
            alloc,
            description,
            only(
                Told::Lines {
                    road: Road::Scheduled,
                },
                words,
            ),
        ),
        "cycles" => over(alloc, description, only(Told::Cycles, words)),
        "plain" => Ok(plain(description, words)),
        _ => Ok(None),
    }
}

/// The command of a name, with what `clap` found behind it.
fn command_with(
    alloc: Global,
    name: &str,
    found: &ArgMatches<'_>,
) -> Result<Option<Command>, Memory>
    ensures { IfOk result (λ command.
        command ≡ spec.command_named name.now
        (Some (arguments_of (rows_of (found_of found.now))))) }
{
    let words = found.get_strs("words").unwrap_or(&[]);
    command_by(alloc, name, found.get_str("md"), words)
}

/// The command that `clap` found.
fn command_in(alloc: Global, matches: &ArgMatches<'_>) -> Result<Option<Command>, Memory>
    ensures { IfOk result (λ command. command ≡ command_found (subcommand_rows_of matches.now)) }
{
    match matches.subcommand() {
        Some((name, found)) => command_with(alloc, name, found),
        None => Ok(None),
    }
}

/// The command that the words are, or `None` where they are none.
pub fn command_of(alloc: Global, words: &[&str]) -> Result<Option<Command>, Memory>
    ensures { IfOk result (λ command. command ≡ spec.command_of (words_of words.now)) }
{
    match parsed(alloc, words)? {
        Some(matches) => command_in(alloc, &matches),
        None => Ok(None),
    }
}
