//! The registers that scratches are given.
ghost use Rattle.std.specs.Prelude.{◌≡◌, IfOk, filter, map};
ghost use Rattle.std.specs.List.{list_any};
ghost use Rattle.rtx_tree.specs.Tree.{head_of, mentions_reg};
ghost use Rattle.peep2.specs.Scratch as spec;

use md_recog::is_scratch;
use plain_data::{Items, Memory};
use rtx_tree::{Insn, Operands, RegSet, Rtx};
use std::alloc::Global;

/// The registers that scratches may be given, in the order in which they are tried: t0 to t6, a0 to
/// a7.
const SCRATCH_ORDER: [u32; 15] = [5, 6, 7, 28, 29, 30, 31, 10, 11, 12, 13, 14, 15, 16, 17];

/// Whether the registers that are dead at a point of a window have this one.
fn is_dead_at(dead: &[RegSet], point: usize, reg: u32) -> bool
    ensures { result ≡ spec.is_dead_at dead.now point reg }
{
    match dead.get(point) {
        Some(regs) => regs.contains(reg),
        None => false,
    }
}

/// Whether a register stands in the pattern of one of some instructions.
fn stands_in(insns: &[Insn], reg: u32) -> bool
    ensures { result ≡ list_any (λ i. mentions_reg reg i.pattern) insns.now }
{
    insns.iter().any(|insn| insn.pattern.mentions(reg))
}

/// Whether a register stands in one of their patterns.
fn is_mentioned(insns: &[Insn], reg: u32) -> bool
    ensures { result ≡ list_any (mentions_reg reg) (map (λ i. i.pattern) insns.now) }
{
    stands_in(insns, reg)
}

/// Whether a register is live neither before a window nor behind it, and stands nowhere in it.
fn is_free(dead: &[RegSet], insns: &[Insn], reg: u32) -> bool
    ensures { result ≡ spec.is_free dead.now (map (λ i. i.pattern) insns.now) reg }
{
    is_dead_at(dead, 0, reg) && is_dead_at(dead, insns.len(), reg) && !is_mentioned(insns, reg)
}

/// Of some registers those that are free, in order.
fn free_among(
    alloc: Global,
    order: &[u32],
    dead: &[RegSet],
    insns: &[Insn],
) -> Result<Items<u32>, Memory>
    ensures { IfOk result (λ regs. regs
        ≡ filter (spec.is_free dead.now (map (λ i. i.pattern) insns.now)) order.now) }
{
    let mut regs = Items::new(alloc);
    for reg in order {
        if is_free(dead, insns, *reg) {
            regs.push(*reg)?;
        }
    }
    Ok(regs)
}

/// The registers that scratches may be given, in order.
pub fn free_registers(alloc: Global, dead: &[RegSet], insns: &[Insn]) -> Result<Items<u32>, Memory>
    ensures { IfOk result (λ regs. regs
        ≡ spec.free_registers dead.now (map (λ i. i.pattern) insns.now)) }
{
    free_among(alloc, &SCRATCH_ORDER, dead, insns)
}

/// The number of a scratch's operand. One past 32 bits finds no memory.
fn number_of(scratch: &Rtx) -> Result<Option<u32>, Memory>
    ensures { IfOk result (λ r. r ≡ spec.natural (head_of scratch.now).number) }
{
    if scratch.number < 0 {
        return Ok(None);
    }
    if scratch.number > i64::from(u32::MAX) {
        return Err(Memory);
    }
    Ok(Some(scratch.number as u32))
}

/// The operands with a register for each scratch among the elements of a window, or `None` where
/// there are too few.
pub fn with_scratches(
    alloc: Global,
    patterns: &[Rtx],
    regs: &[u32],
    operands: Operands,
) -> Result<Option<Operands>, Memory>
    ensures { IfOk result (λ r.
        r ≡ spec.with_scratches (spec.scratches_of patterns.now) regs.now operands) }
{
    let Some((pattern, more)) = patterns.split_first() else {
        return Ok(Some(operands));
    };
    if !is_scratch(pattern) {
        return with_scratches(alloc, more, regs, operands);
    }
    let Some((reg, rest)) = regs.split_first() else {
        return Ok(None);
    };
    let Some(number) = number_of(pattern)? else {
        return Ok(None);
    };
    let mut given = operands;
    given.put(number, Rtx::reg(alloc, pattern.mode, *reg))?;
    with_scratches(alloc, more, rest, given)
}
