//! Lines to text.
ghost use Rattle.std.specs.Prelude.{◌≡◌, ◌++◌, ◌∷◌, [], IfOk, OnOk, OnErr, IsSome, unwrap_or};
ghost use Rattle.std.specs.Fmt.{signed_decimal};
ghost use Rattle.rv_text.specs.Lines as spec;
ghost use Rattle.rv_text.specs.Text.{IsTextOf};

use crate::line::Line;
use crate::operand::Operand;
use crate::table::row_named;
use plain_data::Memory;
use rtx_tree::{HARD_REGS, reg_name};
use std::alloc::Global;
use text_words::{print_number, print_text};

fn print_register(reg: u8, out: &mut Vec<u8>) -> Result<(), Memory>
    ensures { OnOk result (out.new.items ≡ out.old.items ++ unwrap_or (spec.register_text reg) []) }
{
    if reg < HARD_REGS {
        out.extend_from_slice(reg_name(reg).as_bytes())?;
    }
    Ok(())
}

fn print_place(number: i64, reg: u8, out: &mut Vec<u8>) -> Result<(), Memory>
    ensures { OnOk result (out.new.items ≡ out.old.items ++
        (signed_decimal number ++ (40 ∷ (unwrap_or (spec.register_text reg) [] ++ 41 ∷ [])))) }
{
    print_number(number, out)?;
    out.push(b'(')?;
    print_register(reg, out)?;
    out.push(b')')?;
    Ok(())
}

fn print_operand(operand: Operand, line: &Line, out: &mut Vec<u8>) -> Result<(), Memory>
    ensures { OnOk result (out.new.items ≡ out.old.items ++ spec.shown operand line.now) }
{
    match operand {
        Operand::Rd => print_register(line.rd, out),
        Operand::Rs => print_register(line.rs, out),
        Operand::Rt => print_register(line.rt, out),
        Operand::Number { .. } => print_number(line.imm, out),
        Operand::Place { .. } => print_place(line.imm, line.rs, out),
        Operand::Target => print_text(line.target.bytes(), out),
        Operand::Ra => print_text(b"ra", out),
    }
}

fn print_operands(operands: &[Operand], line: &Line, out: &mut Vec<u8>) -> Result<(), Memory>
    ensures { OnOk result (out.new.items ≡ out.old.items ++ spec.shown_all 9 operands.now
        line.now) }
{
    let mut separator = b'\t';
    for operand in operands {
        out.push(separator)?;
        print_operand(*operand, line, out)?;
        separator = b',';
    }
    Ok(())
}

/// A line with its mnemonic and operands.
fn print_row(operands: &[Operand], line: &Line, out: &mut Vec<u8>) -> Result<(), Memory>
    ensures { OnOk result (out.new.items ≡ out.old.items ++
        (9 ∷ (line.now.name ++ spec.shown_all 9 operands.now line.now))) }
{
    out.push(b'\t')?;
    print_text(line.name.bytes(), out)?;
    print_operands(operands, line, out)
}

/// The text of a line.
fn text_of(alloc: Global, line: &Line) -> Result<Vec<u8>, Memory>
    ensures { IfOk result (λ text. text.items ≡ spec.line_text line.now) }
{
    let mut text = Vec::new(alloc);
    if let Some(row) = row_named(line.name.bytes()) {
        if line.is_of(row) {
            print_row(row.operands, line, &mut text)?;
        }
    }
    Ok(text)
}

/// Appends a line's text: a tab, the mnemonic and, where there are operands, a tab and these with
/// commas between. It reads back as the line. Of a value that is no line nothing is appended. After
/// `Memory` all is as before.
#[tactic(auto, using(crate::proofs::Printing::reads_back))]
pub fn print_line(alloc: Global, line: &Line, out: &mut Vec<u8>) -> Result<(), Memory>
    ensures ok { OnOk result (out.new.items ≡ out.old.items ++ spec.line_text line.now) }
    ensures err { OnErr result (out.new.items ≡ out.old.items) }
    ensures reads_back { IsSome (spec.action_of line.now) →
        IsTextOf (spec.line_text line.now) line.now }
{
    let text = text_of(alloc, line)?;
    out.extend_from_slice(text.as_slice())?;
    Ok(())
}
