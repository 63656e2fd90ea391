//! The text of `dump`.
ghost use Rattle.std.specs.Prelude.{◌≡◌, ◌≤◌, ℕ, List, length};
ghost use Rattle.md_forms.specs.declared.form.Entry.{Entry};
ghost use Rattle.rtx_tree.specs.Limit.{most_bytes};
ghost use Rattle.pass_name.specs.declared.pass.Pass.{Pass};
ghost use Rattle.func_input.specs.Input.{FunctionsComeTo, InputComesTo};
ghost use Rattle.func_input.specs.Outcome.{Outcome, Gives};
ghost use Rattle.func_input.specs.machine.Steps.{AppendedSome};
ghost use Rattle.func_text.specs.Dump.{FunctionComes, FunctionsCome};

use func_after::behind;
use func_input::{check_functions, read_functions};
use md_desc::Description;
use pass_name::{Pass, Road};
use rtl_print::print_function;
use rtx_tree::Function;
use run_refusal::Refusal;
use std::alloc::Global;

/// Appends the text of a function behind a pass.
fn dump_function(
    alloc: Global,
    desc: &Description,
    pass: Pass,
    f: &Function,
    out: &mut Vec<u8>,
) -> Result<(), Refusal>
    ensures { AppendedSome out.old.items out.new.items result (FunctionComes desc.now pass f.now) }
{
    let made = behind(alloc, desc, Road::Usual, f, pass)?;
    Ok(print_function(&made.function, out)?)
}

/// Appends the texts of some functions.
#[tactic(auto, using(func_after::proofs::Each::makes_start, func_after::proofs::Each::makes_on, func_after::proofs::Each::makes_wrong, func_after::proofs::Each::makes_all))]
fn dump_functions(
    alloc: Global,
    desc: &Description,
    pass: Pass,
    functions: &[Function],
    out: &mut Vec<u8>,
) -> Result<(), Refusal>
    ensures { AppendedSome out.old.items out.new.items result
        (FunctionsCome desc.now pass functions.now) }
{
    for f in functions {
        dump_function(alloc, desc, pass, f, out)?;
    }
    Ok(())
}

/// The texts of some functions behind a pass.
fn dump_text(
    alloc: Global,
    desc: &Description,
    pass: Pass,
    functions: &[Function],
) -> Result<Vec<u8>, Refusal>
    ensures { Gives result (FunctionsCome desc.now pass functions.now) }
{
    let mut text = Vec::new(alloc);
    dump_functions(alloc, desc, pass, functions, &mut text)?;
    Ok(text)
}

/// The texts of the functions that were read, where none is refused.
fn dump_read(
    alloc: Global,
    desc: &Description,
    pass: Pass,
    functions: &[Function],
) -> Result<Vec<u8>, Refusal>
    ensures { Gives result (FunctionsComeTo (FunctionsCome desc.now pass) functions.now) }
{
    check_functions(alloc, functions)?;
    dump_text(alloc, desc, pass, functions)
}

/// The functions of an input as they are behind a pass, in canonical text, by a description, or
/// what refuses it: bytes that are no text, a tree outside the language, a function that breaks a
/// rule or passes a limit, or what a pass refuses, in this order. An input has at most 16,777,216
/// bytes.
///
/// # Errors
///
/// `Syntax`, `Limit`, `Construct`, `IllFormed`; as the passes up to that one tell them,
/// `Unmatched`, `Unsatisfied`, `NotEquated` and `Limit`; `Memory` where memory ran out.
pub fn dump_of(
    alloc: Global,
    desc: &Description,
    pass: Pass,
    bytes: &[u8],
) -> Result<Vec<u8>, Refusal>
    requires { length bytes.now ≤ most_bytes }
    ensures gives { Gives result (InputComesTo (FunctionsCome desc.now pass) bytes.now) }
    ensures one { (forms : List Entry) (pass : Pass) (bytes : List ℕ) (a b : Outcome) →
        InputComesTo (FunctionsCome forms pass) bytes a →
        InputComesTo (FunctionsCome forms pass) bytes b → a ≡ b }
{
    let functions = read_functions(alloc, bytes)?;
    dump_read(alloc, desc, pass, functions.as_slice())
}
