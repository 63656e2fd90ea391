//! The text of `cycles`.
ghost use Rattle.std.specs.Prelude.{◌≡◌, ◌≤◌, ◌++◌, ℕ, List, OnOk, length};
ghost use Rattle.md_forms.specs.declared.form.Entry.{Entry};
ghost use Rattle.rtx_tree.specs.Limit.{most_bytes};
ghost use Rattle.func_input.specs.Input.{FunctionsComeTo, InputComesTo};
ghost use Rattle.func_input.specs.Outcome.{Outcome, Gives};
ghost use Rattle.func_input.specs.machine.Steps.{AppendedSome};
ghost use Rattle.func_text.specs.Cycles as spec;
ghost use Rattle.func_text.specs.Cycles.{FunctionComes, FunctionsCome};

use crate::lines::{check_insns, print_number, print_part};
use func_after::after;
use func_input::{check_functions, read_functions};
use md_desc::Description;
use pass_name::Road;
use plain_data::Memory;
use rtx_tree::{Function, Name};
use run_refusal::Refusal;
use schedule::{CycleOf, schedule};
use std::alloc::Global;

/// Appends the line of an instruction.
#[tactic(auto, using(crate::proofs::CycleLine::line_made))]
fn print_cycle(function: &Name, cycle: &CycleOf, out: &mut Vec<u8>) -> Result<(), Memory>
    ensures { OnOk result (out.new.items ≡ out.old.items ++ spec.line_of function.now cycle.now) }
{
    print_part(function.bytes(), b' ', out)?;
    print_number(u64::from(cycle.uid), b' ', out)?;
    print_number(cycle.cycle as u64, b'\n', out)
}

/// Appends the lines of some instructions.
fn print_cycles(function: &Name, cycles: &[CycleOf], out: &mut Vec<u8>) -> Result<(), Memory>
    ensures { OnOk result (out.new.items ≡ out.old.items ++ spec.lines_of function.now cycles.now) }
{
    for cycle in cycles {
        print_cycle(function, cycle, out)?;
    }
    Ok(())
}

/// Appends the lines of a function.
fn print_function(
    alloc: Global,
    desc: &Description,
    f: &Function,
    out: &mut Vec<u8>,
) -> Result<(), Refusal>
    ensures { AppendedSome out.old.items out.new.items result (FunctionComes desc.now f.now) }
{
    let made = after(alloc, desc, Road::Usual, f)?;
    let (ordered, cycles) = schedule(alloc, desc, desc.pipeline(), made.function)?;
    check_insns(alloc, desc, &f.name, ordered.insns.as_slice())?;
    Ok(print_cycles(&f.name, cycles.as_slice(), out)?)
}

/// Appends the lines of some functions.
#[tactic(auto, using(func_after::proofs::Each::makes_start, func_after::proofs::Each::makes_on, func_after::proofs::Each::makes_wrong, func_after::proofs::Each::makes_all))]
fn print_functions(
    alloc: Global,
    desc: &Description,
    functions: &[Function],
    out: &mut Vec<u8>,
) -> Result<(), Refusal>
    ensures { AppendedSome out.old.items out.new.items result
        (FunctionsCome desc.now functions.now) }
{
    for f in functions {
        print_function(alloc, desc, f, out)?;
    }
    Ok(())
}

/// The lines of some functions.
fn cycles_text(
    alloc: Global,
    desc: &Description,
    functions: &[Function],
) -> Result<Vec<u8>, Refusal>
    ensures { Gives result (FunctionsCome desc.now functions.now) }
{
    let mut text = Vec::new(alloc);
    print_functions(alloc, desc, functions, &mut text)?;
    Ok(text)
}

/// The lines of the functions that were read, where none is refused.
fn cycles_read(
    alloc: Global,
    desc: &Description,
    functions: &[Function],
) -> Result<Vec<u8>, Refusal>
    ensures { Gives result (FunctionsComeTo (FunctionsCome desc.now) functions.now) }
{
    check_functions(alloc, functions)?;
    cycles_text(alloc, desc, functions)
}

/// The cycles of the instructions of an input that take a new order, by the pipeline of a
/// description, or what refuses it: bytes that are no text, a tree outside the language, a function
/// that breaks a rule or passes a limit, or in a function what a pass refuses and then, in the new
/// order, an instruction without a match, in this order. An input has at most 16,777,216 bytes.
///
/// # Errors
///
/// `Syntax`, `Limit`, `Construct`, `IllFormed`; as the passes tell them, `Unmatched`,
/// `Unsatisfied`, `NotEquated` and `Limit`; `Unmatched` at `output` where no form that matches an
/// instruction counts; `Memory` where memory ran out.
pub fn cycles_of(alloc: Global, desc: &Description, bytes: &[u8]) -> Result<Vec<u8>, Refusal>
    requires { length bytes.now ≤ most_bytes }
    ensures gives { Gives result (InputComesTo (FunctionsCome desc.now) bytes.now) }
    ensures one { (forms : List Entry) (bytes : List ℕ) (a b : Outcome) →
        InputComesTo (FunctionsCome forms) bytes a → InputComesTo (FunctionsCome forms) bytes b →
        a ≡ b }
{
    let functions = read_functions(alloc, bytes)?;
    cycles_read(alloc, desc, functions.as_slice())
}
