//! What was compiled, in numbers.
ghost use Rattle.std.specs.Prelude.{◌≡◌, ◌+◌, IfOk};
ghost use Rattle.func_text.specs.Summary as spec;

use func_after::Compilation;
use plain_data::Memory;
use rtl_chain::instruction_count;
use rtx_tree::Function;
use rv_text::CodeItem;

/// What was compiled, in numbers that are summed over functions.
#[derive(Clone, Copy)]
pub struct Summary {
    /// The instructions of the functions that came in.
    pub instructions: u64,
    /// The instructions that were combined.
    pub combined: u64,
    /// The slots of the frames.
    pub slots: u64,
    /// The bytes of the frames.
    pub frame: u64,
    /// The lines of code that were written.
    pub lines: u64,
}

/// The summary of no function.
pub(crate) fn empty() -> Summary
    ensures { result ≡ spec.empty }
{
    Summary {
        instructions: 0,
        combined: 0,
        slots: 0,
        frame: 0,
        lines: 0,
    }
}

fn is_code(item: &CodeItem) -> bool
    ensures { result ≡ spec.is_code item.now }
{
    matches!(item, CodeItem::Code { .. })
}

/// How many lines of code there are.
fn line_count(items: &[CodeItem]) -> usize
    ensures { result ≡ spec.line_count items.now }
{
    items.iter().filter(|item| is_code(item)).count()
}

/// The summary of a function, what the passes made of it, and its lines and labels.
pub(crate) fn summary_of(f: &Function, made: &Compilation, items: &[CodeItem]) -> Summary
    ensures { result ≡ spec.summary_of f.now made.now items.now }
{
    Summary {
        instructions: instruction_count(f.insns.as_slice()) as u64,
        combined: made.combined as u64,
        slots: made.layout.slots.len() as u64,
        frame: made.layout.size,
        lines: line_count(items) as u64,
    }
}

/// A sum, unless it is 2^64 or more.
fn sum(a: u64, b: u64) -> Result<u64, Memory>
    ensures { IfOk result (λ total. total ≡ a + b) }
{
    match a.checked_add(b) {
        Some(total) => Ok(total),
        None => Err(Memory),
    }
}

/// The summary of two summaries' functions together: each number is the sum. A sum of 2^64 or more
/// gives `Memory`.
pub(crate) fn plus(a: Summary, b: Summary) -> Result<Summary, Memory>
    ensures { IfOk result (λ both. both ≡ spec.plus a b) }
{
    Ok(Summary {
        instructions: sum(a.instructions, b.instructions)?,
        combined: sum(a.combined, b.combined)?,
        slots: sum(a.slots, b.slots)?,
        frame: sum(a.frame, b.frame)?,
        lines: sum(a.lines, b.lines)?,
    })
}
