//! The candidates of a placeholder.
ghost use Rattle.std.specs.Prelude.{◌≡◌, ◌++◌, ◌∷◌, IfOk, OnOk, flat_map};
ghost use Rattle.lint_made.specs.Candidates as spec;

use crate::candidate::Candidate;
use plain_data::{Items, Memory};
use rtx_tree::{Code, Mode};
use std::alloc::Global;

type Candidates = Items<Candidate>;

/// The modes in which an operand is tried first.
fn modes_of(alloc: Global, mode: Mode) -> Result<Items<Mode>, Memory>
    ensures { IfOk result (λ modes. modes ≡ spec.modes_of mode) }
{
    match mode {
        Mode::Void => Items::from_slice(alloc, &[Mode::QI, Mode::HI, Mode::SI, Mode::DI]),
        Mode::QI | Mode::HI | Mode::SI | Mode::DI => Items::from_slice(alloc, &[mode]),
    }
}

/// The others.
fn other_modes(alloc: Global, mode: Mode) -> Result<Items<Mode>, Memory>
    ensures { IfOk result (λ modes. modes ≡ spec.other_modes mode) }
{
    match mode {
        Mode::Void => Ok(Items::new(alloc)),
        Mode::QI => Items::from_slice(alloc, &[Mode::HI, Mode::SI, Mode::DI]),
        Mode::HI => Items::from_slice(alloc, &[Mode::QI, Mode::SI, Mode::DI]),
        Mode::SI => Items::from_slice(alloc, &[Mode::QI, Mode::HI, Mode::DI]),
        Mode::DI => Items::from_slice(alloc, &[Mode::QI, Mode::HI, Mode::SI]),
    }
}

fn push_register(mode: Mode, out: &mut Candidates) -> Result<(), Memory>
    ensures { OnOk result (out.new ≡ out.old ++ spec.register_in mode) }
{
    out.push(Candidate::Register { mode })
}

#[tactic(auto, using(lint_choices::proofs::PushedLaws::pushed_next, lint_choices::proofs::PushedLaws::pushed_ends))]
fn push_registers(modes: &[Mode], out: &mut Candidates) -> Result<(), Memory>
    ensures { OnOk result (out.new ≡ out.old ++ spec.registers_of modes.now) }
{
    for mode in modes {
        push_register(*mode, out)?;
    }
    Ok(())
}

fn push_memory(mode: Mode, out: &mut Candidates) -> Result<(), Memory>
    ensures { OnOk result (out.new ≡ out.old ++ spec.memory_of mode) }
{
    out.push(Candidate::Memory { mode, offset: 0 })?;
    out.push(Candidate::Memory {
        mode,
        offset: -2048,
    })?;
    out.push(Candidate::Memory { mode, offset: 2047 })?;
    out.push(Candidate::Memory { mode, offset: 8 })?;
    out.push(Candidate::StackMemory { mode, offset: 2040 })
}

#[tactic(auto, using(lint_choices::proofs::PushedLaws::pushed_next, lint_choices::proofs::PushedLaws::pushed_ends))]
fn push_each_memory(modes: &[Mode], out: &mut Candidates) -> Result<(), Memory>
    ensures { OnOk result (out.new ≡ out.old ++ flat_map spec.memory_of modes.now) }
{
    for mode in modes {
        push_memory(*mode, out)?;
    }
    Ok(())
}

fn push_addresses(out: &mut Candidates) -> Result<(), Memory>
    ensures { OnOk result (out.new ≡ out.old ++ spec.addresses) }
{
    out.push(Candidate::Address { offset: 0 })?;
    out.push(Candidate::Address { offset: -2048 })?;
    out.push(Candidate::Address { offset: 2047 })?;
    out.push(Candidate::Address { offset: 5000 })
}

fn push_number(number: i64, out: &mut Candidates) -> Result<(), Memory>
    ensures { OnOk result (out.new ≡ out.old ++ spec.number_in number) }
{
    out.push(Candidate::Number { number })
}

#[tactic(auto, using(lint_choices::proofs::PushedLaws::pushed_next, lint_choices::proofs::PushedLaws::pushed_ends))]
fn push_numbers(numbers: &[i64], out: &mut Candidates) -> Result<(), Memory>
    ensures { OnOk result (out.new ≡ out.old ++ flat_map spec.number_in numbers.now) }
{
    for number in numbers {
        push_number(*number, out)?;
    }
    Ok(())
}

/// Constants and a symbol, where the operand is no target.
#[tactic(auto, using(lint_choices::proofs::PushedLaws::pushed_both, lint_choices::proofs::PushedLaws::nothing_pushed))]
fn push_constants(is_target: bool, numbers: &[i64], out: &mut Candidates) -> Result<(), Memory>
    ensures { OnOk result (out.new ≡ out.old ++ spec.constants_for is_target numbers.now) }
{
    if is_target {
        return Ok(());
    }
    push_numbers(numbers, out)?;
    out.push(Candidate::Symbol)
}

/// Memory, addresses, and registers of other modes.
#[tactic(auto, using(lint_choices::proofs::PushedLaws::pushed_three))]
fn push_rest(alloc: Global, mode: Mode, out: &mut Candidates) -> Result<(), Memory>
    ensures { OnOk result (out.new ≡ out.old ++ spec.rest_of mode) }
{
    let modes = modes_of(alloc, mode)?;
    let others = other_modes(alloc, mode)?;
    push_each_memory(modes.as_slice(), out)?;
    push_addresses(out)?;
    push_registers(others.as_slice(), out)
}

#[tactic(auto, using(lint_choices::proofs::PushedLaws::pushed_three))]
fn operand_candidates(
    alloc: Global,
    is_target: bool,
    mode: Mode,
    numbers: &[i64],
) -> Result<Candidates, Memory>
    ensures { IfOk result (λ out. out ≡ spec.operand_candidates is_target mode numbers.now) }
{
    let modes = modes_of(alloc, mode)?;
    let mut out = Items::new(alloc);
    push_registers(modes.as_slice(), &mut out)?;
    push_constants(is_target, numbers, &mut out)?;
    push_rest(alloc, mode, &mut out)?;
    Ok(out)
}

fn scratch_candidates(alloc: Global, mode: Mode) -> Result<Candidates, Memory>
    ensures { IfOk result (λ out. out ≡ spec.registers_of (spec.modes_of mode)) }
{
    let modes = modes_of(alloc, mode)?;
    let mut out = Items::new(alloc);
    push_registers(modes.as_slice(), &mut out)?;
    Ok(out)
}

/// An operator's code in a mode, if it has a value.
fn push_operator(code: Code, mode: Mode, out: &mut Candidates) -> Result<(), Memory>
    ensures { OnOk result (out.new ≡ out.old ++ spec.operator_in mode code) }
{
    if code.class().is_value() {
        out.push(Candidate::Operator { code, mode })?;
    }
    Ok(())
}

#[tactic(auto, using(lint_choices::proofs::PushedLaws::pushed_next, lint_choices::proofs::PushedLaws::pushed_ends), unfolding(crate::specs::Candidates::operators_in))]
fn push_operators(mode: Mode, out: &mut Candidates) -> Result<(), Memory>
    ensures { OnOk result (out.new ≡ out.old ++ spec.operators_in mode) }
{
    let codes = Code::all();
    for code in codes {
        push_operator(*code, mode, out)?;
    }
    Ok(())
}

#[tactic(auto, using(lint_choices::proofs::PushedLaws::pushed_next, lint_choices::proofs::PushedLaws::pushed_ends))]
fn push_each_operator(modes: &[Mode], out: &mut Candidates) -> Result<(), Memory>
    ensures { OnOk result (out.new ≡ out.old ++ flat_map spec.operators_in modes.now) }
{
    for mode in modes {
        push_operators(*mode, out)?;
    }
    Ok(())
}

fn operator_candidates(alloc: Global, mode: Mode) -> Result<Candidates, Memory>
    ensures { IfOk result (λ out. out ≡ spec.operator_candidates mode) }
{
    let others = other_modes(alloc, mode)?;
    let mut out = Items::new(alloc);
    push_operators(mode, &mut out)?;
    push_each_operator(others.as_slice(), &mut out)?;
    Ok(out)
}

/// What is tried in the place of a placeholder, by its code and mode, whether the form changes it,
/// and the constants that are tried there.
pub fn candidates_by(
    alloc: Global,
    code: Code,
    is_target: bool,
    mode: Mode,
    numbers: &[i64],
) -> Result<Items<Candidate>, Memory>
    ensures { IfOk result (λ out. out ≡ spec.candidates_by code is_target mode numbers.now) }
{
    match code {
        Code::MatchOperand => operand_candidates(alloc, is_target, mode, numbers),
        Code::MatchScratch => scratch_candidates(alloc, mode),
        Code::MatchOperator => operator_candidates(alloc, mode),
        _ => Ok(Items::new(alloc)),
    }
}
