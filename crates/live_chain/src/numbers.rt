//! The numbers that are kept of a chain.
ghost use Rattle.std.specs.Prelude.{◌≡◌, ◌≤◌, ◌<◌, ◌+◌, ◌++◌, ℕ, List, max, true, false, Some, None, slice_get, slice_range, take, drop, IfSome};
ghost use Rattle.std.specs.List.{splice};
ghost use Rattle.rtx_tree.specs.declared.function.Insn.{Insn};
ghost use Rattle.rtl_chain.specs.Counts as counts;

use gap_list::GapList;
use rtl_chain::{greatest_uid, instruction_count, next_pseudo};
use rtx_tree::Insn;
use std::slice;

/// The greatest uid of a chain, or 0 where there is none.
#[tactic(auto, using(crate::proofs::NumberLaws::greatest_parts))]
pub fn uid_of(insns: &GapList<Insn>) -> u32
    ensures { result ≡ counts.greatest_uid insns.now }
{
    let (front, back) = insns.parts();
    greatest_uid(front).max(greatest_uid(back))
}

/// The next pseudo register of a chain, or 0 where it names none.
#[tactic(auto, using(crate::proofs::NumberLaws::greatest_parts))]
pub fn pseudo_of(insns: &GapList<Insn>) -> u64
    ensures { result ≡ counts.next_pseudo insns.now }
{
    let (front, back) = insns.parts();
    next_pseudo(front).max(next_pseudo(back))
}

/// Whether the greatest of some numbers tells what it is where one of them, `old`, becomes `new`:
/// then it is the greater of it and `new`. It doesn't only where it was `old` itself, and `new` is
/// less.
fn tells(greatest: u64, old: u64, new: u64) -> bool
    ensures told { (others : ℕ) → greatest ≡ max others old → result ≡ true →
        max greatest new ≡ max others new }
    ensures lost { result ≡ false → (greatest ≤ old) × (new < greatest) }
{
    old < greatest || greatest <= new
}

/// The greatest uid of a chain where that of a window becomes another, if it is known, and the window
/// didn't have it, or the other isn't less.
pub fn uid_after(greatest: Option<u32>, old: u32, new: u32) -> Option<u32>
    ensures after { (others : ℕ) → IfSome greatest (λ g. g ≡ max others old) →
        IfSome result (λ g. g ≡ max others new) }
    ensures lost { result ≡ None → IfSome greatest (λ g. (g ≤ old) × (new < g)) }
{
    match greatest {
        Some(greatest) if tells(u64::from(greatest), u64::from(old), u64::from(new)) => {
            Some(greatest.max(new))
        }
        _ => None,
    }
}

/// The greatest uid of a chain with others in the place of a window, if it and the window are known.
pub fn uid_put(greatest: Option<u32>, window: Option<&[Insn]>, new: &[Insn]) -> Option<u32>
    ensures { (xs : List Insn) (first end : ℕ) → first ≤ end →
        IfSome window.entry (λ old. old.now ≡ slice_range xs first end) →
        IfSome greatest (λ n. n ≡ counts.greatest_uid xs) →
        IfSome result (λ n. n ≡ counts.greatest_uid (splice xs first end new.now)) }
{
    let old = window?;
    uid_after(greatest, greatest_uid(old), greatest_uid(new))
}

/// The next pseudo register of a chain where that of a window becomes another, if it is known, and
/// the window didn't have it, or the other isn't less.
pub fn pseudo_after(next: Option<u64>, old: u64, new: u64) -> Option<u64>
    ensures after { (others : ℕ) → IfSome next (λ n. n ≡ max others old) →
        IfSome result (λ n. n ≡ max others new) }
    ensures lost { result ≡ None → IfSome next (λ n. (n ≤ old) × (new < n)) }
{
    match next {
        Some(next) if tells(next, old, new) => Some(next.max(new)),
        _ => None,
    }
}

/// The next pseudo register of a chain with others in the place of a window, if it and the window are
/// known.
pub fn pseudo_put(next: Option<u64>, window: Option<&[Insn]>, new: &[Insn]) -> Option<u64>
    ensures { (xs : List Insn) (first end : ℕ) → first ≤ end →
        IfSome window.entry (λ old. old.now ≡ slice_range xs first end) →
        IfSome next (λ n. n ≡ counts.next_pseudo xs) →
        IfSome result (λ n. n ≡ counts.next_pseudo (splice xs first end new.now)) }
{
    let old = window?;
    pseudo_after(next, next_pseudo(old), next_pseudo(new))
}

/// How many instructions a chain has, where the number has 64 bits.
pub fn count_of(insns: &GapList<Insn>) -> Option<usize>
    ensures { IfSome result (λ n. n ≡ counts.instruction_count insns.now) }
{
    let (front, back) = insns.parts();
    instruction_count(front).checked_add(instruction_count(back))
}

/// How many instructions a chain has with others in the place of one, by how many it has.
pub fn count_beside(all: usize, old: &Insn, new: &[Insn]) -> Option<usize>
    ensures { (xs : List Insn) (place : ℕ) → slice_get xs place ≡ Some old.now →
        all ≡ counts.instruction_count xs →
        IfSome result (λ n. n
        ≡ counts.instruction_count (take place xs ++ (new.now ++ drop (place + 1) xs))) }
{
    count_after(
        Some(all),
        instruction_count(slice::from_ref(old)),
        instruction_count(new),
    )
}

/// How many instructions a chain has with others in the place of a window, by how many it has.
pub fn count_around(all: usize, old: &[Insn], new: &[Insn]) -> Option<usize>
    ensures { (xs : List Insn) (first end : ℕ) → first ≤ end → old.now ≡ slice_range xs first end →
        all ≡ counts.instruction_count xs →
        IfSome result (λ n. n
        ≡ counts.instruction_count (take first xs ++ (new.now ++ drop end xs))) }
{
    count_after(Some(all), instruction_count(old), instruction_count(new))
}

/// How many instructions a chain has where those of a window become others, if it is known.
pub fn count_after(count: Option<usize>, old: usize, new: usize) -> Option<usize>
    ensures { (others : ℕ) → IfSome count (λ n. n ≡ others + old) →
        IfSome result (λ n. n ≡ others + new) }
{
    let others = count?.checked_sub(old)?;
    others.checked_add(new)
}

/// How many instructions a chain has with others in the place of a window, if it and the window are
/// known.
pub fn count_put(count: Option<usize>, window: Option<&[Insn]>, new: &[Insn]) -> Option<usize>
    ensures { (xs : List Insn) (first end : ℕ) → first ≤ end →
        IfSome window.entry (λ old. old.now ≡ slice_range xs first end) →
        IfSome count (λ n. n ≡ counts.instruction_count xs) →
        IfSome result (λ n. n ≡ counts.instruction_count (splice xs first end new.now)) }
{
    let old = window?;
    count_after(count, instruction_count(old), instruction_count(new))
}
