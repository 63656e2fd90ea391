//! A function with some plain instructions.
ghost use Rattle.std.specs.Prelude.{◌≡◌, ◌++◌, IfOk, OnOk, map};
ghost use Rattle.lint_functions.specs.Functions as spec;

use crate::function::{plain, tried};
use plain_data::{Items, Memory};
use rtx_tree::{Code, Function, Insn, Insns, Mode, Rtx};
use std::alloc::Global;

/// The uid of the first.
const FIRST: u32 = 200;

/// The registers of arguments.
static ARGUMENTS: [u8; 8] = [10, 11, 12, 13, 14, 15, 16, 17];

fn arguments() -> &'static [u8]
    ensures { result.now ≡ spec.arguments }
{
    &ARGUMENTS
}

/// Plain instructions of some patterns, with uids from one on; more than uids count find no memory.
#[tactic(auto, using(crate::proofs::NumberedLaws::numbered_next, lint_choices::proofs::PushedLaws::pushed_ends))]
fn numbered(alloc: Global, patterns: &[Rtx]) -> Result<Insns, Memory>
    ensures { IfOk result (λ insns. insns ≡ spec.numbered 200 patterns.now) }
{
    let mut insns = Items::new(alloc);
    let mut uid = FIRST;
    for pattern in patterns {
        insns.push(plain(alloc, uid, pattern.copy(alloc)?))?;
        let Some(next) = uid.checked_add(1) else {
            return Err(Memory);
        };
        uid = next;
    }
    Ok(insns)
}

fn use_of(alloc: Global, reg: u8) -> Result<Insn, Memory>
    ensures { IfOk result (λ insn. insn ≡ spec.use_of reg) }
{
    let own = Rtx::reg(alloc, Mode::DI, u32::from(reg));
    let pattern = Rtx::of_one(alloc, Code::Use, Mode::Void, own)?;
    Ok(plain(alloc, 100 + u32::from(reg), pattern))
}

#[tactic(auto, using(lint_choices::proofs::PushedLaws::mapped_next, lint_choices::proofs::PushedLaws::pushed_ends))]
fn push_uses(alloc: Global, regs: &[u8], out: &mut Insns) -> Result<(), Memory>
    ensures { OnOk result (out.new ≡ out.old ++ map spec.use_of regs.now) }
{
    for reg in regs {
        out.push(use_of(alloc, *reg)?)?;
    }
    Ok(())
}

#[tactic(auto, using(lint_choices::proofs::PushedLaws::nothing_pushed))]
fn push_uses_if(alloc: Global, are_live: bool, out: &mut Insns) -> Result<(), Memory>
    ensures { OnOk result (out.new ≡ out.old ++ spec.uses_if are_live) }
{
    if are_live {
        push_uses(alloc, arguments(), out)
    } else {
        Ok(())
    }
}

/// A function with plain instructions of some patterns, behind which a0 to a7 are live, or a0 alone.
pub fn several(alloc: Global, patterns: &[Rtx], are_live: bool) -> Result<Function, Memory>
    ensures { IfOk result (λ f. f ≡ spec.several patterns.now are_live) }
{
    let mut insns = numbered(alloc, patterns)?;
    push_uses_if(alloc, are_live, &mut insns)?;
    tried(alloc, 0, insns)
}
