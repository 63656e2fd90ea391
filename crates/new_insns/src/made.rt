//! Instructions made of patterns.
ghost use Rattle.std.specs.Prelude.{◌≡◌, IfOk};
ghost use Rattle.new_insns.specs.Made as spec;
ghost use Rattle.new_insns.specs.machine.Front as steps;

use plain_data::{Items, Memory};
use rtl_func::kinds_agree;
use rtx_tree::{ArgUse, ArgUses, Insn, Insns, Kids, Kind, Rtx};
use std::alloc::Global;

/// The kind of an instruction that has a pattern.
pub fn kind_of(x: &Rtx) -> Kind
    ensures { result ≡ spec.kind_of x.now }
{
    if kinds_agree(Kind::Jump, x) {
        Kind::Jump
    } else if kinds_agree(Kind::Call, x) {
        Kind::Call
    } else {
        Kind::Plain
    }
}

/// The uses of a call in the place of a call.
fn uses_between(alloc: Global, old: Kind, new: Kind, uses: &[ArgUse]) -> Result<ArgUses, Memory>
    ensures { IfOk result (λ copies. copies ≡ spec.uses_between old new uses.now) }
{
    match (old, new) {
        (Kind::Call, Kind::Call) => Items::from_slice(alloc, uses),
        _ => Ok(Items::new(alloc)),
    }
}

/// An instruction in the place of another, with a uid.
fn insn_for(alloc: Global, old: &Insn, uid: u32, pattern: Rtx) -> Result<Insn, Memory>
    ensures { IfOk result (λ insn. insn ≡ spec.insn_for old.now uid pattern) }
{
    let kind = kind_of(&pattern);
    let uses = uses_between(alloc, old.kind, kind, old.uses.as_slice())?;
    Ok(Insn {
        uid,
        kind,
        pattern,
        uses,
    })
}

/// The instructions of patterns that stand in front of the last, with uids from a number on. Uids
/// past 32 bits find no memory.
#[tactic(auto, using(crate::proofs::FrontLaws::front_push))]
fn front_for(alloc: Global, old: &Insn, uid: u32, patterns: Vec<Rtx>) -> Result<Insns, Memory>
    ensures { IfOk result (λ insns. insns ≡ steps.front_for old.now uid patterns.items) }
{
    let mut insns = Items::new(alloc);
    let mut next = uid;
    for pattern in patterns {
        insns.push(insn_for(alloc, old, next, pattern)?)?;
        match next.checked_add(1) {
            Some(above) => next = above,
            None => return Err(Memory),
        }
    }
    Ok(insns)
}

/// The instructions that a sequence makes in the place of a window that ends with an instruction:
/// the last has its uid, and the others take uids from a number on. Uids past 32 bits find no
/// memory.
#[tactic(auto, using(crate::proofs::FrontLaws::made_push))]
pub fn insns_for(alloc: Global, old: &Insn, uid: u32, sequence: Kids) -> Result<Insns, Memory>
    ensures { IfOk result (λ insns. insns ≡ spec.insns_for old.now uid sequence) }
{
    let mut patterns = sequence.into_vec();
    let Some(last) = patterns.pop() else {
        return Ok(Items::new(alloc));
    };
    let mut insns = front_for(alloc, old, uid, patterns)?;
    insns.push(insn_for(alloc, old, old.uid, last)?)?;
    Ok(insns)
}
