//! What the bytes of an input come to: the assembly of its functions, or the first refusal.
ghost use Rattle.std.specs.Prelude.{◌≡◌, ℕ, List, Ok, ◌++◌, ◌≤◌, OnOk, OnErr, length};
ghost use Rattle.rtx_tree.specs.Limit.{most_bytes, most_output};
ghost use Rattle.rtx_tree.specs.declared.function.Function.{Function};
ghost use Rattle.pass_name.specs.declared.road.Road.{Road};
ghost use Rattle.md_forms.specs.declared.form.Entry.{Entry};
ghost use Rattle.func_input.specs.Outcome.{Gives as GivesText};
ghost use Rattle.func_text.specs.Assembly.{Outcome, AssemblyComes};
ghost use Rattle.func_text.specs.Compile.{FunctionsCome, InputComes, TextComes, Gives, Compiles};
ghost use Rattle.func_text.specs.Lines.{IsAssembly};
ghost use Rattle.func_text.specs.Same.{AreParts, AreSound, AreSame, AreSameFramed};
ghost use Rattle.func_after.specs.Leads.{IsDescribed};

use crate::assembly::{Assembly, assemble};
use crate::summary::Summary;
use func_input::{check_functions, read_functions};
use md_desc::Description;
use pass_name::Road;
use plain_data::Memory;
use rtx_tree::Function;
use run_refusal::Refusal;
use std::alloc::Global;

/// The assembly of functions by a description and a road, with the lines and labels that the parts
/// of its text spell, or what refuses one of them, as [`compile`] says.
///
/// # Errors
///
/// `IllFormed`, `Limit`, `Unmatched`, `Unsatisfied`, `NotEquated`, or `Memory` as [`compile`] says.
pub fn assembled(
    alloc: Global,
    description: &Description,
    road: Road,
    functions: &[Function],
) -> Result<Assembly, Refusal>
    ensures { Gives result (FunctionsCome description.now road functions.now) }
{
    check_functions(alloc, functions)?;
    assemble(alloc, description, road, functions)
}

/// Appends a text behind what stands there; the first is taken as it is.
fn append_text(text: Vec<u8>, out: &mut Vec<u8>) -> Result<(), Memory>
    ensures appended { OnOk result (out.new.items ≡ out.old.items ++ text.items) }
    ensures kept { OnErr result (out.new.items ≡ out.old.items) }
{
    let mut text = text;
    if out.is_empty() {
        *out = text;
    } else {
        out.append(&mut text)?;
    }
    Ok(())
}

/// Appends the assembly of functions by a description and a road, and gives its summary, or what
/// refuses one of them: a rule that it breaks or a limit that it passes, which are looked at for all
/// functions first; or in a function what a pass refuses, and then an instruction for which no lines
/// are written. What stands before the assembly does not count for its limit. After a refusal
/// nothing is appended.
///
/// # Errors
///
/// `IllFormed`, `Limit`, `Unmatched`, `Unsatisfied`, `NotEquated`, or `Memory` where memory ran
/// out, or a sum of the summary is 2^64 or more.
#[tactic(auto, using(crate::proofs::Laws::is_assembly, crate::proofs::Laws::is_within, crate::proofs::Behaviour::compiled_parts, crate::proofs::Behaviour::compiled_same, crate::proofs::Behaviour::compiled_framed))]
pub fn compile(
    alloc: Global,
    description: &Description,
    road: Road,
    functions: &[Function],
    out: &mut Vec<u8>,
) -> Result<Summary, Refusal>
    ensures gives { Compiles out.old.items out.new.items result
        (FunctionsCome description.now road functions.now) }
    ensures kept { OnErr result (out.new.items ≡ out.old.items) }

    // The lines of each function are those of the forms, each part of the text spells the lines and
    // labels beside it, and the text is within its limit.
    ensures lines { (forms : List Entry) (road : Road) (functions : List Function)
        (a : Assembly) →
        AssemblyComes forms road functions (Ok a) → IsAssembly forms road 0 functions a }
    ensures spelled { (forms : List Entry) (road : Road) (functions : List Function)
        (a : Assembly) →
        AssemblyComes forms road functions (Ok a) → AreParts functions a.text a.parts }
    ensures within { (forms : List Entry) (road : Road) (functions : List Function)
        (a : Assembly) →
        AssemblyComes forms road functions (Ok a) → length a.text ≤ most_output }

    // By the forms of a description, the lines and labels of each sound function have its
    // behaviour; and they have it in each frame that has the room at least of which the passes laid
    // out its frame.
    ensures behaves { (forms : List Entry) (road : Road) (functions : List Function)
        (a : Assembly) →
        IsDescribed forms → AreSound functions →
        AssemblyComes forms road functions (Ok a) → AreSame functions a.parts }
    ensures framed { (forms : List Entry) (road : Road) (functions : List Function)
        (a : Assembly) →
        IsDescribed forms → AreSound functions →
        AssemblyComes forms road functions (Ok a) → AreSameFramed forms road functions a.parts }
{
    let assembly = assembled(alloc, description, road, functions)?;
    let Assembly {
        text,
        parts,
        summary,
    } = assembly;
    drop(parts);
    append_text(text.into_vec(), out)?;
    Ok(summary)
}

/// The text of the assembly of the functions of an input by a description and a road, or what
/// refuses it: bytes that are no text, a tree outside the language, and then as [`compile`] says. An
/// input has at most 16,777,216 bytes.
///
/// # Errors
///
/// `Syntax`, `Limit`, `Construct`, `IllFormed`, `Unmatched`, `Unsatisfied`, `NotEquated`, or
/// `Memory` as [`compile`] says.
pub fn assembly_of(
    alloc: Global,
    description: &Description,
    road: Road,
    bytes: &[u8],
) -> Result<Vec<u8>, Refusal>
    requires { length bytes.now ≤ most_bytes }
    ensures gives { GivesText result (TextComes description.now road bytes.now) }
    ensures one { (forms : List Entry) (road : Road) (bytes : List ℕ) (a b : Outcome) →
        InputComes forms road bytes a → InputComes forms road bytes b → a ≡ b }
{
    let functions = read_functions(alloc, bytes)?;
    let mut text = Vec::new(alloc);
    compile(alloc, description, road, functions.as_slice(), &mut text)?;
    Ok(text)
}
