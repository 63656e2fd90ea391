//! The trees of candidates.
ghost use Rattle.std.specs.Prelude.{◌≡◌, IfOk};
ghost use Rattle.lint_made.specs.Candidates as spec;

use crate::candidate::Candidate;
use plain_data::Memory;
use rtx_tree::{Code, Mode, Name, Rtx};
use std::alloc::Global;

/// The number of the stack pointer.
const STACK_POINTER: u32 = 2;

fn sum_at(alloc: Global, reg: u32, offset: i64) -> Result<Rtx, Memory>
    ensures { IfOk result (λ tree. tree ≡ spec.sum_at reg offset) }
{
    let base = Rtx::reg(alloc, Mode::DI, reg);
    let offset = Rtx::const_int(alloc, offset);
    Rtx::of_two(alloc, Code::Plus, Mode::DI, base, offset)
}

/// The address of a register and an offset.
fn place_at(alloc: Global, reg: u32, offset: i64) -> Result<Rtx, Memory>
    ensures { IfOk result (λ tree. tree ≡ spec.place_at reg offset) }
{
    if offset == 0 {
        return Ok(Rtx::reg(alloc, Mode::DI, reg));
    }
    sum_at(alloc, reg, offset)
}

fn memory_at(alloc: Global, mode: Mode, reg: u32, offset: i64) -> Result<Rtx, Memory>
    ensures { IfOk result (λ tree. tree ≡ spec.memory_at mode reg offset) }
{
    let address = place_at(alloc, reg, offset)?;
    Rtx::of_one(alloc, Code::Mem, mode, address)
}

fn symbol_tried(alloc: Global) -> Result<Rtx, Memory>
    ensures { IfOk result (λ tree. tree ≡ spec.symbol_tree) }
{
    let name = Name::of(alloc, b"symbol")?;
    Ok(Rtx::of_name(alloc, Code::SymbolRef, Mode::DI, name))
}

/// A candidate's tree, with a register in its slot. An operator's has no parts
/// yet, and what is the same as another operand is a dup of it.
pub fn tree_with(alloc: Global, reg: u32, candidate: Candidate) -> Result<Rtx, Memory>
    ensures { IfOk result (λ tree. tree ≡ spec.tree_with reg candidate) }
{
    match candidate {
        Candidate::Register { mode } => Ok(Rtx::reg(alloc, mode, reg)),
        Candidate::Number { number } => Ok(Rtx::const_int(alloc, number)),
        Candidate::Symbol => symbol_tried(alloc),
        Candidate::Memory { mode, offset } => memory_at(alloc, mode, reg, offset),
        Candidate::StackMemory { mode, offset } => memory_at(alloc, mode, STACK_POINTER, offset),
        Candidate::Address { offset } => place_at(alloc, reg, offset),
        Candidate::Operator { code, mode } => Ok(Rtx::leaf(alloc, code, mode, 0)),
        Candidate::Same { operand } => {
            Ok(Rtx::leaf(alloc, Code::MatchDup, Mode::Void, i64::from(operand)))
        }
    }
}
