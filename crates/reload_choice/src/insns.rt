//! The instructions of a plan.
ghost use Rattle.std.specs.Prelude.{◌≡◌, ◌≤◌, ◌++◌, length, IfOk, OnOk};
ghost use Rattle.reload_choice.specs.Insns as spec;
ghost use Rattle.reload_moves.specs.Registers.{asks_of};

use crate::given::{Given, Plan};
use crate::news::news_of;
use plain_data::{Items, Memory};
use reload_fit::{address_on, on_register, slot_far};
use reload_moves::{Move, Part, asks_of, moves_after, moves_before};
use reload_operands::{Base, Operand, put};
use rtx_tree::{Code, Kids, Mode, Rtx};
use std::alloc::Global;

/// The number of `sp`.
const SP: u32 = 2;

fn set_of(alloc: Global, target: Rtx, source: Rtx) -> Result<Rtx, Memory>
    ensures { IfOk result (λ x. x ≡ spec.set_of target source) }
{
    Rtx::of_two(alloc, Code::Set, Mode::Void, target, source)
}

fn set_reg(alloc: Global, mode: Mode, reg: u32, source: Rtx) -> Result<Rtx, Memory>
    ensures { IfOk result (λ x. x ≡ spec.set_reg mode reg source) }
{
    set_of(alloc, Rtx::reg(alloc, mode, reg), source)
}

fn far_sum(alloc: Global, into: u32) -> Result<Rtx, Memory>
    ensures { IfOk result (λ x. x ≡ spec.far_sum into) }
{
    let into = Rtx::reg(alloc, Mode::DI, into);
    let sp = Rtx::reg(alloc, Mode::DI, SP);
    Rtx::of_two(alloc, Code::Plus, Mode::DI, into, sp)
}

/// The two halves of a far base.
#[tactic(auto, using(reload_moves::proofs::Appended::appended_each))]
fn push_far_insns(alloc: Global, into: u32, offset: i64, insns: &mut Kids) -> Result<(), Memory>
    ensures { OnOk result (insns.new ≡ insns.old ++ spec.far_insns into offset) }
{
    insns.push(set_reg(alloc, Mode::DI, into, Rtx::const_int(alloc, offset))?)?;
    insns.push(set_reg(alloc, Mode::DI, into, far_sum(alloc, into)?)?)
}

fn slot_address(alloc: Global, into: u32, base: Base) -> Result<Rtx, Memory>
    ensures { IfOk result (λ x. x ≡ spec.slot_address into base) }
{
    if slot_far(base).is_some() {
        Ok(Rtx::reg(alloc, Mode::DI, into))
    } else {
        address_on(alloc, SP, base.slot.cast_signed())
    }
}

fn base_insn(alloc: Global, into: u32, base: Base) -> Result<Rtx, Memory>
    ensures { IfOk result (λ x. x ≡ spec.base_insn into base) }
{
    let address = slot_address(alloc, into, base)?;
    let slot = Rtx::of_one(alloc, Code::Mem, Mode::DI, address)?;
    set_reg(alloc, Mode::DI, into, slot)
}

fn push_base_insns(alloc: Global, into: u32, x: &Operand, insns: &mut Kids) -> Result<(), Memory>
    ensures { OnOk result (insns.new ≡ insns.old ++ spec.base_insns into x.now.base) }
{
    match x.base {
        Some(base) => insns.push(base_insn(alloc, into, base)?),
        None => Ok(()),
    }
}

/// An operand, with the register in its address where there is one.
fn reached(alloc: Global, base: Option<u32>, x: &Operand) -> Result<Rtx, Memory>
    ensures { IfOk result (λ tree. tree ≡ spec.reached base x.now) }
{
    match base {
        Some(reg) => on_register(alloc, reg, x),
        None => x.tree.copy(alloc),
    }
}

fn in_insn(alloc: Global, into: u32, base: Option<u32>, x: &Operand) -> Result<Rtx, Memory>
    ensures { IfOk result (λ insn. insn ≡ spec.in_insn into base x.now) }
{
    let source = reached(alloc, base, x)?;
    set_reg(alloc, x.mode, into, source)
}

fn out_insn(alloc: Global, from: u32, base: Option<u32>, x: &Operand) -> Result<Rtx, Memory>
    ensures { IfOk result (λ insn. insn ≡ spec.out_insn from base x.now) }
{
    let target = reached(alloc, base, x)?;
    set_of(alloc, target, Rtx::reg(alloc, x.mode, from))
}

/// The instructions of a move of an operand.
fn push_at(alloc: Global, x: &Operand, step: Move, insns: &mut Kids) -> Result<(), Memory>
    ensures { OnOk result (insns.new ≡ insns.old ++ spec.insns_at step x.now) }
{
    match step {
        Move::Far { .. } => Ok(()),
        Move::Base { into, .. } => push_base_insns(alloc, into, x, insns),
        Move::In { into, base, .. } => insns.push(in_insn(alloc, into, base, x)?),
        Move::Out { from, base, .. } => insns.push(out_insn(alloc, from, base, x)?),
    }
}

fn push_at_place(
    alloc: Global,
    operands: &[Operand],
    place: usize,
    step: Move,
    insns: &mut Kids,
) -> Result<(), Memory>
    ensures { OnOk result (insns.new ≡ insns.old ++ spec.at_place operands.now place step) }
{
    match operands.get(place) {
        Some(x) => push_at(alloc, x, step, insns),
        None => Ok(()),
    }
}

fn push_insns(
    alloc: Global,
    operands: &[Operand],
    step: Move,
    insns: &mut Kids,
) -> Result<(), Memory>
    ensures { OnOk result (insns.new ≡ insns.old ++ spec.insns_of operands.now step) }
{
    match step {
        Move::Far { into, offset } => push_far_insns(alloc, into, offset, insns),
        Move::Base { place, .. } | Move::In { place, .. } | Move::Out { place, .. } => {
            push_at_place(alloc, operands, place, step, insns)
        }
    }
}

fn all_insns(alloc: Global, operands: &[Operand], moves: &[Move]) -> Result<Kids, Memory>
    ensures { IfOk result (λ insns. insns ≡ spec.all_insns operands.now moves.now) }
{
    let mut insns = Items::new(alloc);
    for step in moves {
        push_insns(alloc, operands, *step, &mut insns)?;
    }
    Ok(insns)
}

/// The instructions before the one of a plan.
pub fn insns_before(alloc: Global, given: &Given, plan: &Plan) -> Result<Kids, Memory>
    requires { length (asks_of plan.now.parts) ≤ 4 }
    ensures { IfOk result (λ insns. insns ≡ spec.insns_before given.now.operands plan.now.parts) }
{
    let parts = plan.parts.as_slice();
    let asks = asks_of(alloc, parts)?;
    let moves = moves_before(alloc, asks.as_slice(), parts)?;
    all_insns(alloc, given.operands.as_slice(), moves.as_slice())
}

/// The instruction with all that is new in it.
pub fn between(alloc: Global, given: &Given, parts: &[Part]) -> Result<Rtx, Memory>
    requires { length (asks_of parts.now) ≤ 4 }
    ensures { IfOk result (λ insn.
        insn ≡ spec.between given.now.pattern given.now.operands parts.now given.now.insn) }
{
    let asks = asks_of(alloc, parts)?;
    let news = news_of(alloc, asks.as_slice(), given.operands.as_slice(), parts)?;
    put(alloc, &given.pattern, &news, &given.insn)
}

/// The instruction of a plan.
pub fn insn_between(alloc: Global, given: &Given, plan: &Plan) -> Result<Rtx, Memory>
    requires { length (asks_of plan.now.parts) ≤ 4 }
    ensures { IfOk result (λ insn.
        insn ≡ spec.between given.now.pattern given.now.operands plan.now.parts given.now.insn) }
{
    between(alloc, given, plan.parts.as_slice())
}

/// The instructions after the one of a plan.
pub fn insns_after(alloc: Global, given: &Given, plan: &Plan) -> Result<Kids, Memory>
    requires { length (asks_of plan.now.parts) ≤ 4 }
    ensures { IfOk result (λ insns. insns ≡ spec.insns_after given.now.operands plan.now.parts) }
{
    let parts = plan.parts.as_slice();
    let asks = asks_of(alloc, parts)?;
    let moves = moves_after(alloc, asks.as_slice(), parts)?;
    all_insns(alloc, given.operands.as_slice(), moves.as_slice())
}
