//! The image of the functions of an input.
ghost use Rattle.std.specs.Prelude.{◌≡◌, ◌≤◌, ℕ, List, IfOk, length};
ghost use Rattle.rtx_tree.specs.Limit.{most_bytes};
ghost use Rattle.md_forms.specs.declared.form.Entry.{Entry};
ghost use Rattle.func_input.specs.Input.{FunctionsComeTo};
ghost use Rattle.func_input.specs.Outcome.{Outcome, Gives};
ghost use Rattle.law_image.specs.WordsDo.{WordsDo};
ghost use Rattle.func_image.specs.Image as spec;
ghost use Rattle.func_image.specs.Image.{UnitsCome, WordsCome, ImageComes};

use func_input::read_functions;
use image_text::text_of;
use law_assembly::assembled;
use md_desc::Description;
use pass_name::Road;
use plain_data::{Items, Memory};
use rtx_tree::{Function, Limit};
use run_refusal::Refusal;
use rv_image::{AssembleRefusal, CodeUnit, assemble};
use rv_text::CodeItem;
use std::alloc::Global;

/// Functions with their lines and labels.
#[tactic(auto, using(crate::proofs::Comes::no_units, crate::proofs::Comes::units_push))]
fn units_of(
    alloc: Global,
    functions: &[Function],
    parts: Items<Items<CodeItem>>,
) -> Result<Items<CodeUnit>, Memory>
    requires { length parts ≡ length functions.now }
    ensures { IfOk result (λ units. units ≡ spec.units_of functions.now parts) }
{
    let mut units = Items::new(alloc);
    let mut at = 0;
    for items in parts.into_vec() {
        let name = functions[at].name.copy(alloc)?;
        units.push(CodeUnit { name, items })?;
        at += 1;
    }
    Ok(units)
}

/// The text of the image of some functions.
#[tactic(auto, using(crate::proofs::Comes::text_comes, crate::proofs::Comes::size_comes))]
fn units_text(alloc: Global, units: &[CodeUnit]) -> Result<Vec<u8>, Refusal>
    ensures { Gives result (UnitsCome units.now) }
{
    match assemble(alloc, units) {
        Ok(image) => Ok(text_of(alloc, &image)?),
        Err(AssembleRefusal::Limit { size }) => Err(Refusal::Limit {
            which: Limit::Image,
            count: size,
        }),
        Err(AssembleRefusal::Memory) => Err(Refusal::Memory),
    }
}

/// The text of the image of functions that were read.
fn image_read(
    alloc: Global,
    description: &Description,
    functions: &[Function],
) -> Result<Vec<u8>, Refusal>
    ensures { Gives result (FunctionsComeTo (WordsCome description.now) functions.now) }
{
    let assembly = assembled(alloc, description, Road::Usual, functions)?;
    let units = units_of(alloc, functions, assembly.parts)?;
    units_text(alloc, units.as_slice())
}

/// The text of the image of an input's functions by a description, or what refuses it: what refuses
/// the assembly of the input, or the number of bytes of an image that has too many. An input has at
/// most 16,777,216 bytes.
///
/// # Errors
///
/// `Syntax`, `Limit`, `Construct`, `IllFormed`, `Unmatched`, `Unsatisfied`, `NotEquated` as an
/// assembly tells them; `Limit` of an image that has more than 1,048,572 bytes; `Memory` where
/// memory ran out.
pub fn image_of(alloc: Global, description: &Description, bytes: &[u8]) -> Result<Vec<u8>, Refusal>
    requires { length bytes.now ≤ most_bytes }
    ensures gives { Gives result (ImageComes description.now bytes.now) }
    ensures one { (forms : List Entry) (bytes : List ℕ) (a b : Outcome) →
        ImageComes forms bytes a → ImageComes forms bytes b → a ≡ b }
    ensures does { WordsDo }
{
    let functions = read_functions(alloc, bytes)?;
    image_read(alloc, description, functions.as_slice())
}
