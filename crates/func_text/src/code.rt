//! A function of an input with its code, as lines and labels.
ghost use Rattle.std.specs.Prelude.{◌≡◌, ◌≤◌, ◌<◌, ℕ, List, Err, IfSome, false, length};
ghost use Rattle.rtx_tree.specs.Limit.{most_bytes};
ghost use Rattle.md_forms.specs.declared.form.Entry.{Entry};
ghost use Rattle.func_text.specs.Code as codes;
ghost use Rattle.func_text.specs.Code.{Answer, Gives, NameComes, CodeComes, IsCodedAt, IsUnnamed};

use crate::assembly::{Assembly, CodeItems};
use crate::input::assembled;
use func_input::read_functions;
use md_desc::Description;
use pass_name::Road;
use rtx_tree::{Function, Functions};
use run_refusal::Refusal;
use std::alloc::Global;

/// A function with its code.
#[derive(Drop)]
pub struct Coded {
    /// The function.
    pub function: Function,
    /// The lines and labels of its assembly.
    pub items: CodeItems,
}

/// The place of the first of some functions that has a name.
fn place_named(functions: &[Function], name: &[u8]) -> Option<usize>
    ensures place { result ≡ codes.place_named functions.now name.now }
    ensures within { IfSome result (λ place. place < length functions.now) }
{
    functions.iter().position(|f| f.name.bytes() == name)
}

/// The function at a place, with what stands there among the parts of an assembly.
fn coded_at(functions: Functions, assembly: Assembly, place: usize) -> Coded
    requires function { place < length functions }
    requires part { place < length assembly.parts }
    ensures { IsCodedAt functions assembly place result }
{
    let mut functions = functions;
    let mut parts = assembly.parts;
    Coded {
        function: functions.remove(place),
        items: parts.remove(place),
    }
}

/// What a name among functions comes to.
fn name_comes(
    alloc: Global,
    description: &Description,
    functions: Functions,
    name: &[u8],
) -> Result<Coded, Refusal>
    ensures comes { Gives result (NameComes description.now functions name.now) }
    ensures unnamed { result ≡ Err Refusal.Usage → codes.has_named functions name.now ≡ false }
{
    let Some(place) = place_named(functions.as_slice(), name) else {
        return Err(Refusal::Usage);
    };
    let assembly = assembled(alloc, description, Road::Usual, functions.as_slice())?;
    Ok(coded_at(functions, assembly, place))
}

/// The function of an input with a name, with the lines and labels that its part of the input's
/// assembly spells, or what refuses it: the name where no function has it, which is looked at once
/// the functions are read, or what refuses the assembly. An input has at most 16,777,216 bytes.
///
/// # Errors
///
/// `Usage` where no function has the name; `Syntax`, `Limit`, `Construct`, `IllFormed`,
/// `Unmatched`, `Unsatisfied`, `NotEquated`, or `Memory` as [`assembled`] says.
pub fn code_of(
    alloc: Global,
    description: &Description,
    bytes: &[u8],
    name: &[u8],
) -> Result<Coded, Refusal>
    requires { length bytes.now ≤ most_bytes }
    ensures gives { Gives result (CodeComes description.now bytes.now name.now) }
    ensures unnamed { result ≡ Err Refusal.Usage → IsUnnamed bytes.now name.now }
    ensures one { (forms : List Entry) (bytes name : List ℕ) (a b : Answer) →
        CodeComes forms bytes name a → CodeComes forms bytes name b → a ≡ b }
{
    let functions = read_functions(alloc, bytes)?;
    name_comes(alloc, description, functions, name)
}
