//! The fault of a template for an instruction.
ghost use Rattle.std.specs.Prelude.{◌≡◌, ◌<◌, ◌^◌, Ok, Some, IfOk};
ghost use Rattle.equate.specs.Side as sides;
ghost use Rattle.equate.specs.Verdict as verdicts;
ghost use Rattle.equate.specs.Answers.{Gives};
ghost use Rattle.equate.specs.Views.{side_of};
ghost use Rattle.md_output.specs.Read.{AreReadAs};
ghost use Rattle.lint_judge.specs.Judged.{Tells, IsCompared, IsJudged};
ghost use Rattle.lint_judge.specs.machine.Steps as steps;

use crate::lines::{is_quoted, is_unread, texts_of};
use crate::live::all_live;
use equate::{Side, Verdict, equate};
use md_output::read_lines;
use md_text::Template;
use plain_data::{Items, Memory};
use rtx_tree::{Insn, Name, Operands};
use rv_text::Line;
use std::alloc::Global;
use std::slice;
use sym_term::TermRefusal;
use term_text::Item;
use term_tree::Term;

/// Why the lines of a template are not equated with an instruction.
#[derive(Drop)]
pub enum Fault {
    /// A sequence of the template can't print its operand in the line at a place, counted from 0.
    Unprinted {
        /// The place.
        place: u32,
    },
    /// The text at a place is no line.
    Unknown {
        /// The place.
        place: u32,
    },
    /// The line at a place leads elsewhere, and is not the last.
    Early {
        /// The place.
        place: u32,
    },
    /// A term is too large.
    Large,
    /// An item of which the instruction and the lines have different terms.
    Differs {
        /// The item.
        item: Item,
        /// The term of the instruction.
        left: Term,
        /// The term of the lines.
        right: Term,
    },
    /// The lines need what the instruction doesn't.
    Needs {
        /// The register, address, divisor or symbol.
        term: Term,
    },
}

/// What comes of a template for an instruction.
#[derive(Drop)]
pub struct Judged {
    /// The texts of its lines.
    pub texts: Items<Name>,
    /// Why they are not equated with the instruction, where they aren't.
    pub fault: Option<Fault>,
}

/// Why the line at a place can't be compared.
fn line_fault(texts: &[Name], lines: &[Line], place: u32) -> Fault
    ensures { (v : verdicts.Verdict) → v ≡ verdicts.BadShape place →
        Tells texts.now lines.now (Some result) v }
{
    if !is_unread(lines, place) {
        return Fault::Early { place };
    }
    if is_quoted(texts, place) {
        Fault::Unprinted { place }
    } else {
        Fault::Unknown { place }
    }
}

/// The fault that a verdict tells.
fn fault_of(texts: &[Name], lines: &[Line], told: Verdict) -> Option<Fault>
    ensures { (v : verdicts.Verdict) → Gives (Ok told) v → Tells texts.now lines.now result v }
{
    match told {
        Verdict::Same => None,
        Verdict::Differ { item, left, right } => Some(Fault::Differs { item, left, right }),
        Verdict::Needs { term, .. } => Some(Fault::Needs { term }),
        Verdict::Shape { index } => Some(line_fault(texts, lines, index)),
    }
}

/// The lines of a side.
fn lines_in(side: &Side) -> &[Line]
    ensures { result.now ≡ steps.lines_in side.entry.now }
{
    match side {
        Side::Insns { .. } => &[],
        Side::Lines { lines, .. } => lines.as_slice(),
    }
}

/// What a comparison of an instruction with lines of these texts comes to.
fn compare(alloc: Global, texts: &[Name], side: &Side, insn: &Insn) -> Result<Option<Fault>, Memory>
    requires short { sides.side_length (side_of side.now) < 2 ^ 32 }
    requires read { AreReadAs texts.now (steps.lines_in side.now) }
    requires lines { side_of side.now ≡ sides.Lines 0 (steps.lines_in side.now) }
    ensures { IfOk result (IsCompared texts.now insn.now) }
{
    let live = all_live(alloc)?;
    match equate(alloc, slice::from_ref(insn), side, &live) {
        Ok(told) => Ok(fault_of(texts, lines_in(side), told)),
        Err(TermRefusal::Size { .. }) => Ok(Some(Fault::Large)),
        Err(TermRefusal::Memory) => Err(Memory),
    }
}

/// Why lines of these texts are not equated with an instruction, where they aren't. More lines than
/// 32 bits count find no memory.
fn compared(alloc: Global, texts: &[Name], insn: &Insn) -> Result<Option<Fault>, Memory>
    ensures { IfOk result (IsCompared texts.now insn.now) }
{
    let lines = read_lines(alloc, texts)?;
    if lines.len() > u32::MAX as usize {
        return Err(Memory);
    }
    let side = Side::Lines { function: 0, lines };
    compare(alloc, texts, &side, insn)
}

/// What comes of a template in an alternative, for an instruction and its operands, all registers
/// live behind.
pub fn judge(
    alloc: Global,
    template: &Template,
    alternative: u32,
    operands: &Operands,
    insn: &Insn,
) -> Result<Judged, Memory>
    ensures { IfOk result (IsJudged template.now alternative operands.now insn.now) }
{
    let texts = texts_of(alloc, template, alternative, operands, insn.uid)?;
    let fault = compared(alloc, texts.as_slice(), insn)?;
    Ok(Judged { texts, fault })
}
