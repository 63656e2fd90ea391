//! The assembly of functions.
ghost use Rattle.std.specs.Prelude.{◌≡◌, length};
ghost use Rattle.func_text.specs.Assembly.{FunctionComes, AssemblyComes};
ghost use Rattle.func_text.specs.Compile.{Gives};
ghost use Rattle.func_text.specs.machine.Steps.{AppendsAssembly, WrittenComes};

use crate::summary::{Summary, empty, plus, summary_of};
use asm_out::write_function;
use func_after::{Compilation, after, refused_at};
use func_input::next_number;
use md_desc::Description;
use pass_name::{Pass, Road};
use plain_data::Items;
use rtx_tree::{Function, Name};
use run_refusal::Refusal;
use rv_text::CodeItem;
use std::alloc::Global;

/// Lines and labels, in order.
pub type CodeItems = Items<CodeItem>;

/// For each of some functions, in order, its lines and labels.
pub type Parts = Items<CodeItems>;

/// The assembly of some functions.
#[derive(Drop)]
pub struct Assembly {
    /// The text of all the functions, one behind the other.
    pub text: Name,
    /// The lines and labels that the parts of the text spell, in the order of the functions.
    pub parts: Parts,
    /// What was compiled, in numbers.
    pub summary: Summary,
}

/// Appends the text and the items of what the passes made of a function with a number, and gives
/// the summary of both.
fn write_after(
    alloc: Global,
    description: &Description,
    number: u32,
    f: &Function,
    made: &Compilation,
    text: &mut Vec<u8>,
    parts: &mut Parts,
) -> Result<Summary, Refusal>
    ensures { AppendsAssembly text.old.items text.new.items parts.old parts.new result
        (WrittenComes description.now number (length text.old.items) f.now made.now) }
{
    let mut items = Vec::new(alloc);
    match write_function(alloc, description, number, &made.function, text, &mut items) {
        Ok(()) => {
            let summary = summary_of(f, made, &items);
            parts.push(Items::from_vec(items))?;
            Ok(summary)
        }
        Err(e) => Err(refused_at(alloc, &f.name, Pass::Output, e)),
    }
}

/// Appends the text and the items of a function with a number by a road, and gives its summary.
fn write_next(
    alloc: Global,
    description: &Description,
    road: Road,
    number: u32,
    f: &Function,
    text: &mut Vec<u8>,
    parts: &mut Parts,
) -> Result<Summary, Refusal>
    ensures { AppendsAssembly text.old.items text.new.items parts.old parts.new result
        (FunctionComes description.now road number (length text.old.items) f.now) }
{
    let made = after(alloc, description, road, f)?;
    write_after(alloc, description, number, f, &made, text, parts)
}

/// The assembly of some functions by a road, in order, each with its number from 0 on.
pub(crate) fn assemble(
    alloc: Global,
    description: &Description,
    road: Road,
    functions: &[Function],
) -> Result<Assembly, Refusal>
    ensures { Gives result (AssemblyComes description.now road functions.now) }
{
    let mut text = Vec::new(alloc);
    let mut parts = Items::new(alloc);
    let mut summary = empty();
    let mut number: u32 = 0;
    for f in functions {
        let one = write_next(alloc, description, road, number, f, &mut text, &mut parts)?;
        summary = plus(summary, one)?;
        number = next_number(number)?;
    }
    Ok(Assembly {
        text: Name::from_vec(text),
        parts,
        summary,
    })
}
