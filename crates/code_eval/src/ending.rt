//! What is told of the outcome of a run.
ghost use Rattle.std.specs.Prelude.{◌≡◌, ◌++◌, OnOk};
ghost use Rattle.code_eval.specs.Ending as spec;

use bits64::trunc;
use func_run::Standing;
use plain_data::Memory;
use rtl_step::width_of;
use rtx_tree::{MemByte, Mode};
use rv_line::CodeStanding;
use text_words::{print_count, print_text};

/// What is told of the outcome of a run.
#[derive(Clone, Copy)]
pub enum Ending {
    /// A step or a line had no meaning.
    Undefined,
    /// The run goes on.
    Running {
        /// How many calls were made.
        calls: u64,
    },
    /// The run waits for the reply to its last call.
    Asked {
        /// How many calls were made, with this one.
        calls: u64,
    },
    /// The run returned.
    Returned {
        /// The result, where there is one.
        value: Option<u64>,
        /// How many calls were made.
        calls: u64,
        /// How many bytes of what the caller sees are not zero.
        set: u64,
    },
}

/// How many bytes are not zero.
fn bytes_set(memory: &[MemByte]) -> u64
    ensures { result ≡ spec.bytes_set memory.now }
{
    memory.iter().filter(|b| b.byte != 0).count() as u64
}

/// What `a0` says of a result in a mode.
fn result_in(mode: Option<Mode>, a0: Option<u64>) -> Option<u64>
    ensures { result ≡ spec.result_in mode a0 }
{
    Some(trunc(a0?, width_of(mode?)?))
}

/// What is told of the run of a function.
pub fn rtl_ending(standing: &Standing) -> Ending
    ensures { result ≡ spec.rtl_standing standing.now }
{
    match standing {
        Standing::Undefined => Ending::Undefined,
        Standing::Running { calls } => Ending::Running { calls: *calls },
        Standing::Asked { calls } => Ending::Asked { calls: *calls },
        Standing::Returned {
            value,
            memory,
            calls,
        } => Ending::Returned {
            value: *value,
            calls: *calls,
            set: bytes_set(memory.bytes()),
        },
    }
}

/// What is told of the run of the code of a function whose result has a mode.
pub fn code_ending(mode: Option<Mode>, standing: &CodeStanding) -> Ending
    ensures { result ≡ spec.code_standing mode standing.now }
{
    match standing {
        CodeStanding::Stuck => Ending::Undefined,
        CodeStanding::Running { calls } => Ending::Running { calls: *calls },
        CodeStanding::Asked { calls } => Ending::Asked { calls: *calls },
        CodeStanding::Returned {
            value,
            memory,
            calls,
        } => Ending::Returned {
            value: result_in(mode, *value),
            calls: *calls,
            set: bytes_set(memory.bytes()),
        },
    }
}

fn print_calls(calls: u64, out: &mut Vec<u8>) -> Result<(), Memory>
    ensures { OnOk result (out.new.items ≡ out.old.items ++ spec.calls_text calls) }
{
    print_text(b", calls ", out)?;
    print_count(calls, out)
}

fn print_value(value: Option<u64>, out: &mut Vec<u8>) -> Result<(), Memory>
    ensures { OnOk result (out.new.items ≡ out.old.items ++ spec.value_text value) }
{
    match value {
        None => Ok(()),
        Some(value) => {
            print_text(b" ", out)?;
            print_count(value, out)
        }
    }
}

fn print_set(set: u64, out: &mut Vec<u8>) -> Result<(), Memory>
    ensures { OnOk result (out.new.items ≡ out.old.items ++ spec.set_text set) }
{
    print_text(b", bytes set ", out)?;
    print_count(set, out)
}

/// Appends what is told.
fn print_ending(ending: Ending, out: &mut Vec<u8>) -> Result<(), Memory>
    ensures { OnOk result (out.new.items ≡ out.old.items ++ spec.ending_text ending) }
{
    match ending {
        Ending::Undefined => print_text(b"undefined", out),
        Ending::Running { calls } => {
            print_text(b"running", out)?;
            print_calls(calls, out)
        }
        Ending::Asked { calls } => {
            print_text(b"asked", out)?;
            print_calls(calls, out)
        }
        Ending::Returned { value, calls, set } => {
            print_text(b"returned", out)?;
            print_value(value, out)?;
            print_calls(calls, out)?;
            print_set(set, out)
        }
    }
}

/// Appends a line of it, behind what was run.
pub fn print_line(ran: &[u8], ending: Ending, out: &mut Vec<u8>) -> Result<(), Memory>
    ensures { OnOk result (out.new.items ≡ out.old.items ++ spec.ending_line ran.now ending) }
{
    print_text(ran, out)?;
    print_text(b": ", out)?;
    print_ending(ending, out)?;
    print_text(b"\n", out)
}
