//! The text of `recog`.
ghost use Rattle.std.specs.Prelude.{◌≡◌, ◌≤◌, ℕ, List, length};
ghost use Rattle.md_forms.specs.declared.form.Entry.{Entry};
ghost use Rattle.md_forms.specs.Forms.{names_of};
ghost use Rattle.rtx_tree.specs.Limit.{most_bytes};
ghost use Rattle.func_input.specs.Input.{FunctionsComeTo, InputComesTo};
ghost use Rattle.func_input.specs.Outcome.{Outcome, Gives};
ghost use Rattle.func_input.specs.machine.Steps.{AppendedSome};
ghost use Rattle.func_text.specs.Recog.{FunctionComes, FunctionsCome};

use crate::lines::print_insns;
use func_after::after;
use func_input::{check_functions, read_functions};
use md_desc::Description;
use md_forms::names_of;
use pass_name::Road;
use rtx_tree::{Function, Name};
use run_refusal::Refusal;
use std::alloc::Global;

/// Appends the lines of a function.
#[tactic(auto, using(crate::proofs::Told::after_refuses, crate::proofs::Told::function_comes))]
fn print_function(
    alloc: Global,
    desc: &Description,
    names: &[Name],
    f: &Function,
    out: &mut Vec<u8>,
) -> Result<(), Refusal>
    requires { names.now ≡ names_of desc.now }
    ensures { AppendedSome out.old.items out.new.items result (FunctionComes desc.now f.now) }
{
    let made = after(alloc, desc, Road::Usual, f)?;
    let insns = made.function.insns.as_slice();
    print_insns(alloc, desc, names, &f.name, insns, out)
}

/// Appends the lines of some functions.
#[tactic(auto, using(func_after::proofs::Each::makes_start, func_after::proofs::Each::makes_on, func_after::proofs::Each::makes_wrong, func_after::proofs::Each::makes_all))]
fn print_functions(
    alloc: Global,
    desc: &Description,
    names: &[Name],
    functions: &[Function],
    out: &mut Vec<u8>,
) -> Result<(), Refusal>
    requires { names.now ≡ names_of desc.now }
    ensures { AppendedSome out.old.items out.new.items result
        (FunctionsCome desc.now functions.now) }
{
    for f in functions {
        print_function(alloc, desc, names, f, out)?;
    }
    Ok(())
}

/// The lines of the instructions of some functions.
fn recog_text(alloc: Global, desc: &Description, functions: &[Function]) -> Result<Vec<u8>, Refusal>
    ensures { Gives result (FunctionsCome desc.now functions.now) }
{
    let names = names_of(alloc, desc.forms().as_slice())?;
    let mut text = Vec::new(alloc);
    print_functions(alloc, desc, names.as_slice(), functions, &mut text)?;
    Ok(text)
}

/// The lines of the functions that were read, where none is refused.
fn recog_read(alloc: Global, desc: &Description, functions: &[Function]) -> Result<Vec<u8>, Refusal>
    ensures { Gives result (FunctionsComeTo (FunctionsCome desc.now) functions.now) }
{
    check_functions(alloc, functions)?;
    recog_text(alloc, desc, functions)
}

/// The lines of the instructions of an input as they come to output, by a description, or what
/// refuses it: bytes that are no text, a tree outside the language, a function that breaks a rule
/// or passes a limit, or in a function what a pass refuses and then an instruction without a match,
/// in this order. An input has at most 16,777,216 bytes.
///
/// # Errors
///
/// `Syntax`, `Limit`, `Construct`, `IllFormed`; as the passes tell them, `Unmatched`,
/// `Unsatisfied`, `NotEquated` and `Limit`; `Unmatched` at `output` where no form that matches an
/// instruction counts; `Memory` where memory ran out.
pub fn recog_of(alloc: Global, desc: &Description, bytes: &[u8]) -> Result<Vec<u8>, Refusal>
    requires { length bytes.now ≤ most_bytes }
    ensures gives { Gives result (InputComesTo (FunctionsCome desc.now) bytes.now) }
    ensures one { (forms : List Entry) (bytes : List ℕ) (a b : Outcome) →
        InputComesTo (FunctionsCome forms) bytes a → InputComesTo (FunctionsCome forms) bytes b →
        a ≡ b }
{
    let functions = read_functions(alloc, bytes)?;
    recog_read(alloc, desc, functions.as_slice())
}
