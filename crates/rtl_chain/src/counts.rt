//! The counts of a chain.
ghost use Rattle.std.specs.Prelude.{◌≡◌, ◌≤◌, ◌<◌, ◌+◌, ◌^◌, List, length, vec_len};
ghost use Rattle.rtl_chain.specs.Counts as spec;
ghost use Rattle.rtx_tree.specs.Tree.{head_of, kids_of};

use rtx_tree::{Code, Insn, Kind, Rtx};

fn is_instruction(insn: &Insn) -> bool
    ensures { result ≡ spec.is_instruction insn.now }
{
    matches!(insn.kind, Kind::Plain | Kind::Jump | Kind::Call)
}

/// How many instructions a chain has: plain ones, jumps and calls.
pub fn instruction_count(insns: &[Insn]) -> usize
    ensures { result ≡ spec.instruction_count insns.now }
{
    insns.iter().filter(|insn| is_instruction(insn)).count()
}

/// The greatest uid of a chain, or 0 where there is none.
pub fn greatest_uid(insns: &[Insn]) -> u32
    ensures { result ≡ spec.greatest_uid insns.now }
{
    let mut greatest: u32 = 0;
    for insn in insns {
        greatest = greatest.max(insn.uid);
    }
    greatest
}

/// One above the number of the pseudo register that the tree is, or 0.
fn above_pseudo(x: &Rtx) -> u64
    ensures { result ≡ spec.above_pseudo (head_of x.now).code (head_of x.now).number }
{
    if matches!(x.code, Code::Reg) && x.number >= 64 {
        (x.number - 63).unsigned_abs()
    } else {
        0
    }
}

/// One above the greatest number of a pseudo register in a tree, or 0 where it names none.
#[tactic(auto, using(crate::proofs::Counted::next_pseudo_out))]
fn next_pseudo_in(x: &Rtx) -> u64
    ensures { result ≡ spec.next_pseudo_in x.now }
{
    let mut greatest = above_pseudo(x);
    for kid in x.kids.as_slice() {
        greatest = greatest.max(next_pseudo_in(kid));
    }
    greatest
}

/// One above the greatest number of a pseudo register of a chain, or 0 where it names none.
pub fn next_pseudo(insns: &[Insn]) -> u64
    ensures { result ≡ spec.next_pseudo insns.now }
{
    let mut greatest: u64 = 0;
    for insn in insns {
        greatest = greatest.max(next_pseudo_in(&insn.pattern));
    }
    greatest
}
