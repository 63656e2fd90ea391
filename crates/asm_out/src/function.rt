//! The assembly of a function.
ghost use Rattle.std.specs.Prelude.{◌≡◌, ◌∷◌, [], ◌+◌, ◌<◌, ◌≤◌, ◌^◌, ℕ, List, Ok, length};
ghost use Rattle.rtx_tree.specs.declared.function.Function.{Function};
ghost use Rattle.rtx_tree.specs.declared.function.Insn.{Insn};
ghost use Rattle.rv_text.specs.Body.{Spells};
ghost use Rattle.rv_text.specs.declared.line.CodeItem.{CodeItem};
ghost use Rattle.md_forms.specs.declared.form.Entry.{Entry};
ghost use Rattle.asm_out.specs.declared.piece.Piece.{Piece};
ghost use Rattle.asm_out.specs.Comes.{Opening, Closing, PartComes, PartsCome, FunctionComes, places_from};
ghost use Rattle.asm_out.specs.Outcome.{Outcome, Appends};
ghost use Rattle.rtx_tree.specs.Limit.{most_output};
ghost use Rattle.asm_out.specs.Written.{AreWritten, IsWritten};

use crate::frame::{closing, opening};
use crate::piece::append_piece;
use crate::places::write_places;
use crate::setting::Setting;
use live::live_rows_of;
use md_desc::Description;
use pass_refusal::PassRefusal;
use rtl_func::labels_of;
use rtx_tree::Function;
use rv_text::CodeItem;
use std::alloc::Global;

/// Appends the lines before a function's instructions.
fn write_opening(
    alloc: Global,
    f: &Function,
    out: &mut Vec<u8>,
    items: &mut Vec<CodeItem>,
) -> Result<(), PassRefusal>
    ensures { (forms : List Entry) (number : ℕ) →
        Appends out.old.items out.new.items items.old.items items.new.items result
        (PartsCome (PartComes forms number f.now) (length out.old.items) (Opening ∷ [])) }
{
    let piece = opening(alloc, &f.name)?;
    append_piece(piece, out, items)
}

/// Appends the line behind them.
fn write_closing(
    alloc: Global,
    f: &Function,
    out: &mut Vec<u8>,
    items: &mut Vec<CodeItem>,
) -> Result<(), PassRefusal>
    ensures { (forms : List Entry) (number : ℕ) →
        Appends out.old.items out.new.items items.old.items items.new.items result
        (PartsCome (PartComes forms number f.now) (length out.old.items) (Closing ∷ [])) }
{
    let piece = closing(alloc, &f.name)?;
    append_piece(piece, out, items)
}

/// Appends the text of a function's chain.
fn write_chain(
    alloc: Global,
    description: &Description,
    number: u32,
    f: &Function,
    out: &mut Vec<u8>,
    items: &mut Vec<CodeItem>,
) -> Result<(), PassRefusal>
    ensures { Appends out.old.items out.new.items items.old.items items.new.items result
        (PartsCome (PartComes description.now number f.now) (length out.old.items)
        (places_from 0 f.now.insns)) }
{
    if f.insns.len() > u32::MAX as usize {
        return Err(PassRefusal::Memory);
    }
    let labels = labels_of(alloc, f.insns.as_slice())?;
    let rows = live_rows_of(alloc, f)?;
    let setting = Setting {
        alloc,
        description,
        number,
        function: f,
        labels: &labels,
        rows: rows.as_slice(),
    };
    write_places(&setting, out, items)
}

/// Appends the parts of a function's text.
fn write_parts(
    alloc: Global,
    description: &Description,
    number: u32,
    f: &Function,
    out: &mut Vec<u8>,
    items: &mut Vec<CodeItem>,
) -> Result<(), PassRefusal>
    ensures { Appends out.old.items out.new.items items.old.items items.new.items result
        (FunctionComes description.now number f.now (length out.old.items)) }
{
    write_opening(alloc, f, out, items)?;
    write_chain(alloc, description, number, f, out, items)?;
    write_closing(alloc, f, out, items)
}

/// Appends the assembly of a function with a number, and the lines and labels that it spells: for
/// each label its line, and for each instruction that needs a form the filled template of the first
/// that counts at output, with the lowest enabled alternative that fits, where its lines are
/// equated with the instruction. The chain is written as it stands. After a refusal what was
/// appended before it stays.
///
/// # Errors
///
/// `Unmatched` at the first instruction for which no form counts; `NotEquated`, or `Limit` of
/// `TermSize`, where its comparison fails; `Limit` of `Output` where the text were longer than an
/// assembly may be; `Memory` where memory ran out.
pub fn write_function(
    alloc: Global,
    description: &Description,
    number: u32,
    f: &Function,
    out: &mut Vec<u8>,
    items: &mut Vec<CodeItem>,
) -> Result<(), PassRefusal>
    ensures appends { Appends out.old.items out.new.items items.old.items items.new.items result
        (FunctionComes description.now number f.now (length out.old.items)) }
    ensures one { (forms : List Entry) (number : ℕ) (f : Function) (size : ℕ) (a b : Outcome) →
        FunctionComes forms number f size a → FunctionComes forms number f size b → a ≡ b }
    ensures written { (forms : List Entry) (number : ℕ) (f : Function) (size : ℕ) (piece : Piece) →
        FunctionComes forms number f size (Ok piece) → IsWritten forms number f piece }
    ensures within { (forms : List Entry) (number : ℕ) (f : Function) (size : ℕ) (piece : Piece) →
        FunctionComes forms number f size (Ok piece) → size + length piece.text ≤ most_output }
    ensures spelled { (forms : List Entry) (number : ℕ) (f : Function) (place : ℕ)
        (insns : List Insn) (text : List ℕ)
        (items : List CodeItem) → number < 2 ^ 32 →
        AreWritten forms number f place insns text items → Spells text items }
{
    write_parts(alloc, description, number, f, out, items)
}
