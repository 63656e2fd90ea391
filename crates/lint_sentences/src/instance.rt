//! An instance and the lines that it is given.
ghost use Rattle.std.specs.Prelude.{◌≡◌, ◌++◌, OnOk, Option, flat_map};
ghost use Rattle.std.specs.Option.{option_copied};
ghost use Rattle.rtl_print.specs.Print.{printed};
ghost use Rattle.lint_sentences.specs.Instance as spec;
ghost use Rattle.lint_sentences.specs.Each.{each_from};

use plain_data::Memory;
use rtl_print::print_rtx;
use rtx_tree::{Code, Name, Operands, Rtx};
use text_words::{behind_blanks, print_count, print_text};

/// Operands are told whose number is below this.
const MOST_OPERANDS: usize = 30;

fn print_pattern(pattern: &Rtx, out: &mut Vec<u8>) -> Result<(), Memory>
    ensures { OnOk result (out.new.items ≡ out.old.items ++ spec.line_of (printed pattern.now)) }
{
    print_text(b"\t", out)?;
    print_rtx(pattern, out)?;
    print_text(b"\n", out)
}

// ---- operands

/// Appends an operand behind a tab.
fn print_some(number: usize, x: &Rtx, out: &mut Vec<u8>) -> Result<(), Memory>
    ensures { OnOk result (out.new.items ≡ out.old.items ++
        spec.operand_text number (Option.Some x.now)) }
{
    print_text(b"\t%", out)?;
    print_count(number as u64, out)?;
    print_text(b" ", out)?;
    print_rtx(x, out)
}

#[tactic(auto, using(lint_choices::proofs::PushedLaws::nothing_pushed))]
fn print_operand(number: usize, operand: Option<&Rtx>, out: &mut Vec<u8>) -> Result<(), Memory>
    ensures { OnOk result (out.new.items ≡ out.old.items ++
        spec.operand_text number (option_copied operand.entry)) }
{
    match operand {
        None => Ok(()),
        Some(x) => print_some(number, x, out),
    }
}

fn print_operand_at(operands: &Operands, number: usize, out: &mut Vec<u8>) -> Result<(), Memory>
    ensures { OnOk result (out.new.items ≡ out.old.items ++
        spec.operand_text_at operands.now number) }
{
    print_operand(number, operands.get(number), out)
}

fn print_each_operand(operands: &Operands, out: &mut Vec<u8>) -> Result<(), Memory>
    ensures { OnOk result (out.new.items ≡ out.old.items ++
        each_from (spec.operand_text_at operands.now) 0 30) }
{
    for number in 0..MOST_OPERANDS {
        print_operand_at(operands, number, out)?;
    }
    Ok(())
}

fn print_operands(operands: &Operands, out: &mut Vec<u8>) -> Result<(), Memory>
    ensures { OnOk result (out.new.items ≡ out.old.items ++ spec.operands_text operands.now) }
{
    print_each_operand(operands, out)?;
    print_text(b"\n", out)
}

// ---- operands that are one register

fn are_one(x: &Rtx, y: &Rtx) -> bool
    ensures { result ≡ spec.is_one_register (Option.Some x.now) (Option.Some y.now) }
{
    matches!(x.code, Code::Reg) && (matches!(y.code, Code::Reg) && x.number == y.number)
}

fn is_one_register(one: Option<&Rtx>, other: Option<&Rtx>) -> bool
    ensures { result ≡
        spec.is_one_register (option_copied one.entry) (option_copied other.entry) }
{
    match (one, other) {
        (Some(x), Some(y)) => are_one(x, y),
        _ => false,
    }
}

fn print_shared_text(second: usize, first: usize, out: &mut Vec<u8>) -> Result<(), Memory>
    ensures { OnOk result (out.new.items ≡ out.old.items ++ spec.shared_text second first) }
{
    print_text(b"\toperands ", out)?;
    print_count(first as u64, out)?;
    print_text(b" and ", out)?;
    print_count(second as u64, out)?;
    print_text(b" are one register\n", out)
}

/// Appends that two operands are one register, where they are.
#[tactic(auto, using(lint_choices::proofs::PushedLaws::nothing_pushed))]
fn print_shared_by(
    operands: &Operands,
    second: usize,
    first: usize,
    out: &mut Vec<u8>,
) -> Result<(), Memory>
    ensures { OnOk result (out.new.items ≡ out.old.items ++
        spec.shared_by operands.now second first) }
{
    if is_one_register(operands.get(second), operands.get(first)) {
        print_shared_text(second, first, out)
    } else {
        Ok(())
    }
}

fn print_shared_with(operands: &Operands, second: usize, out: &mut Vec<u8>) -> Result<(), Memory>
    ensures { OnOk result (out.new.items ≡ out.old.items ++
        spec.shared_with operands.now second) }
{
    for first in 0..second {
        print_shared_by(operands, second, first, out)?;
    }
    Ok(())
}

fn print_shared(operands: &Operands, out: &mut Vec<u8>) -> Result<(), Memory>
    ensures { OnOk result (out.new.items ≡ out.old.items ++ spec.shared_texts operands.now) }
{
    for second in 0..MOST_OPERANDS {
        print_shared_with(operands, second, out)?;
    }
    Ok(())
}

// ---- lines

fn print_line(text: &[u8], out: &mut Vec<u8>) -> Result<(), Memory>
    ensures { OnOk result (out.new.items ≡ out.old.items ++ spec.line_shown text.now) }
{
    print_text(b"\t", out)?;
    print_text(behind_blanks(text), out)?;
    print_text(b"\n", out)
}

fn print_lines(lines: &[Name], out: &mut Vec<u8>) -> Result<(), Memory>
    ensures { OnOk result (out.new.items ≡ out.old.items ++ flat_map spec.line_shown lines.now) }
{
    for line in lines {
        print_line(line.bytes(), out)?;
    }
    Ok(())
}

/// Appends the pattern of an instance, its operands, which of them are one register, and its lines.
pub fn print_instance(
    pattern: &Rtx,
    operands: &Operands,
    lines: &[Name],
    out: &mut Vec<u8>,
) -> Result<(), Memory>
    ensures { OnOk result (out.new.items ≡ out.old.items ++
        spec.instance_text pattern.now operands.now lines.now) }
{
    print_pattern(pattern, out)?;
    print_operands(operands, out)?;
    print_shared(operands, out)?;
    print_lines(lines, out)
}
