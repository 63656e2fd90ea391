//! The lines of functions.
ghost use Rattle.std.specs.Prelude.{◌≡◌, ◌++◌, ◌≤◌, ℕ, IfOk, List, OnOk, length};
ghost use Rattle.rtx_tree.specs.Limit.{most_bytes};
ghost use Rattle.func_input.specs.Input.{FunctionsComeTo, InputComesTo};
ghost use Rattle.func_input.specs.Outcome.{Outcome, Gives};
ghost use Rattle.plain_text.specs.Plain as spec;
ghost use Rattle.plain_text.specs.Plain.{ComeToLines};

use func_input::{check_functions, read_functions};
use plain_data::Memory;
use plain_shape::first_outside;
use rtx_tree::Function;
use run_refusal::Refusal;
use std::alloc::Global;
use text_words::{print_count, print_text};

fn print_standing(outside: Option<u32>, out: &mut Vec<u8>) -> Result<(), Memory>
    ensures { OnOk result (out.new.items ≡ out.old.items ++ spec.standing outside) }
{
    match outside {
        None => print_text(b"plain", out),
        Some(uid) => {
            print_text(b"outside ", out)?;
            print_count(u64::from(uid), out)
        }
    }
}

/// Appends the line of a function.
fn print_line(f: &Function, out: &mut Vec<u8>) -> Result<(), Memory>
    ensures { OnOk result (out.new.items ≡ out.old.items ++ spec.line_of f.now) }
{
    print_text(f.name.bytes(), out)?;
    print_text(b" ", out)?;
    print_standing(first_outside(f), out)?;
    print_text(b"\n", out)
}

/// Appends the lines of some functions.
fn print_lines(functions: &[Function], out: &mut Vec<u8>) -> Result<(), Memory>
    ensures { OnOk result (out.new.items ≡ out.old.items ++ spec.text_of functions.now) }
{
    for f in functions {
        print_line(f, out)?;
    }
    Ok(())
}

/// The lines of some functions.
fn text_of(alloc: Global, functions: &[Function]) -> Result<Vec<u8>, Memory>
    ensures { IfOk result (λ text. text.items ≡ spec.text_of functions.now) }
{
    let mut text = Vec::new(alloc);
    print_lines(functions, &mut text)?;
    Ok(text)
}

/// The lines of the functions that were read, where none is refused.
fn told(alloc: Global, functions: &[Function]) -> Result<Vec<u8>, Refusal>
    ensures { Gives result (FunctionsComeTo ComeToLines functions.now) }
{
    check_functions(alloc, functions)?;
    Ok(text_of(alloc, functions)?)
}

/// A line for each function of an input, or what refuses the input: bytes that are no text, a tree
/// outside the language, or a function that breaks a rule or passes a limit, in this order. An input
/// has at most 16,777,216 bytes.
///
/// # Errors
///
/// `Syntax`, `Limit`, `Construct`, `IllFormed`; `Memory` where memory ran out.
pub fn plain_of(alloc: Global, bytes: &[u8]) -> Result<Vec<u8>, Refusal>
    requires { length bytes.now ≤ most_bytes }
    ensures gives { Gives result (InputComesTo ComeToLines bytes.now) }
    ensures one { (bytes : List ℕ) (a b : Outcome) → InputComesTo ComeToLines bytes a →
        InputComesTo ComeToLines bytes b → a ≡ b }
{
    let functions = read_functions(alloc, bytes)?;
    told(alloc, functions.as_slice())
}
