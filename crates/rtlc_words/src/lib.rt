//! The words of the command line, read as a command.
//!
//! [`command_of`] takes the words behind the program's name, and gives the [`Command`] that they
//! are, or `None` where they are no command. Its contract is one equation: unless memory runs out,
//! the answer is the one that `specs/Words.antt` defines, and that definition speaks of words
//! alone. A call for help is no command.
//!
//! The words are read by `clap`, as a command with one level of subcommands (`grammar`). What
//! stands behind a command's name is checked by `command` and `numbers`. A command is what is told
//! of the functions of the input ([`Told`]), the list of a description, or the summary of a
//! generated function. One more command is a
//! line of `grammar::program`, a line of `command::command_by`, and a row of the definition's
//! table; and a variant of [`Told`] where it tells what none told before.
#![tactic(auto)]

mod command;
mod grammar;
mod numbers;

pub use command::{Command, Told, command_of};
