//! Basic blocks.
ghost use Rattle.std.specs.Prelude.{◌≡◌, ◌<◌, ◌^◌, IfOk, length, slice_get};
ghost use Rattle.std.specs.Option.{option_copied};
ghost use Rattle.rtx_tree.specs.Patterns.{is_label_kind};
ghost use Rattle.rtl_func.specs.Blocks as spec;

use plain_data::Memory;
use rtx_tree::{Function, Insn, Kind};
use std::alloc::Global;

/// A basic block: the places from `first` on, below `end`.
#[derive(Clone, Copy)]
pub struct Block {
    /// The block's first place.
    pub first: u32,
    /// The place past the block's last.
    pub end: u32,
}

fn is_label(insn: &Insn) -> bool
    ensures { result ≡ is_label_kind insn.now.kind }
{
    matches!(insn.kind, Kind::Label)
}

/// Whether an instruction is a jump.
pub fn is_jump(insn: &Insn) -> bool
    ensures { result ≡ spec.is_jump_kind insn.now.kind }
{
    matches!(insn.kind, Kind::Jump)
}

fn starts_block(insns: &[Insn], place: usize) -> bool
    requires { place < length insns.now }
    ensures { result ≡ spec.starts_block insns.now place }
{
    place == 0 || is_label(&insns[place]) || is_jump(&insns[place - 1])
}

/// The basic blocks of a function's chain, in order: one starts at the first place, at each label
/// and after each jump. They cover the chain, and none is empty.
#[tactic(auto, using(crate::proofs::BlockLaws::blocks_cover))]
pub fn blocks(alloc: Global, f: &Function) -> Result<Vec<Block>, Memory>
    requires { length f.now.insns < 2 ^ 32 }
    ensures blocks { IfOk result (λ blocks. blocks.items ≡ spec.blocks_of f.now.insns) }
    ensures cover { spec.Cover 0 (spec.blocks_of f.now.insns) (length f.now.insns) }
{
    let insns = f.insns.as_slice();
    let mut blocks = Vec::new(alloc);
    if insns.is_empty() {
        return Ok(blocks);
    }
    let mut first: u32 = 0;
    for place in 1..insns.len() {
        if starts_block(insns, place) {
            let end = place as u32;
            blocks.push(Block { first, end })?;
            first = end;
        }
    }
    let end = insns.len() as u32;
    blocks.push(Block { first, end })?;
    Ok(blocks)
}
