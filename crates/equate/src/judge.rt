//! The verdict on instructions and what stands in their place.
ghost use Rattle.std.specs.Prelude.{◌≡◌, ◌+◌, ◌^◌, ◌<◌, length, Ok, option_map};
ghost use Rattle.rtx_tree.specs.Limit.{most_nodes};
ghost use Rattle.sym_state.specs.Answers.{Gives as GivesState};
ghost use Rattle.sym_state.specs.State as states;
ghost use Rattle.sym_state.specs.Views.{state_of};
ghost use Rattle.sym_insns.specs.Run as insns;
ghost use Rattle.sym_diff.specs.States.{difference};
ghost use Rattle.sym_diff.specs.Views.{difference_of};
ghost use Rattle.equate.specs.Side as sides;
ghost use Rattle.equate.specs.Equated as spec;
ghost use Rattle.equate.specs.Views.{side_of};
ghost use Rattle.equate.specs.Answers.{Gives};
ghost use Rattle.equate.specs.Sound.{EquatedDoesSame, EquatedKeeps};
ghost use Rattle.equate.specs.Told.{Tells};

use crate::returns::both_return;
use crate::verdict::{Side, Verdict};
use rtx_tree::{Insn, RegSet};
use std::alloc::Global;
use sym_diff::{SymDifference, difference_between};
use sym_insns::run_rtl;
use sym_lines::run_sym_lines;
use sym_state::{SymRefusal, SymState};
use sym_term::{TermMaker, TermRefusal};
use term_text::Item;

/// The verdict on a difference.
fn verdict_of(found: Option<SymDifference>) -> Verdict
    ensures { Gives (Ok result) (spec.told (option_map difference_of found)) }
{
    match found {
        None => Verdict::Same,
        Some(SymDifference::Differ { item, left, right }) => Verdict::Differ { item, left, right },
        Some(SymDifference::Lacks { term }) => Verdict::Needs {
            item: Item::Need,
            term,
        },
    }
}

/// The verdict on two states.
fn compared(
    alloc: Global,
    of_lines: bool,
    live: &RegSet,
    a: &SymState,
    b: &SymState,
) -> Result<Verdict, TermRefusal>
    ensures { Gives result (spec.told (difference of_lines live.now (state_of a.now)
        (state_of b.now))) }
{
    let mut maker = TermMaker::new(alloc);
    let found = difference_between(&mut maker, alloc, of_lines, live, a, b)?;
    Ok(verdict_of(found))
}

/// What stands in the place of instructions, run.
fn run_side(alloc: Global, side: &Side) -> Result<SymState, SymRefusal>
    requires { sides.side_length (side_of side.now) < 2 ^ 32 }
    ensures { GivesState result (sides.run_side (side_of side.now)) }
{
    match side {
        Side::Insns { insns } => run_rtl(alloc, insns.as_slice()),
        Side::Lines { function, lines } => run_sym_lines(alloc, *function, lines.as_slice()),
    }
}

/// The verdict where a term of the first side is too large.
fn after_large(
    alloc: Global,
    after: &Side,
    live: &RegSet,
    size: u64,
) -> Result<Verdict, TermRefusal>
    requires short { sides.side_length (side_of after.now) < 2 ^ 32 }
    requires size { size ≡ most_nodes + 1 }
    ensures { Gives result (spec.judged (sides.is_lines (side_of after.now)) live.now
        states.TooLarge (sides.run_side (side_of after.now))) }
{
    match run_side(alloc, after) {
        Ok(_state) => Err(TermRefusal::Size { size }),
        Err(SymRefusal::Shape { index }) => Ok(Verdict::Shape { index }),
        Err(SymRefusal::Size { .. }) => Err(TermRefusal::Size { size }),
        Err(SymRefusal::Memory) => Err(TermRefusal::Memory),
    }
}

fn is_lines(side: &Side) -> bool
    ensures { result ≡ sides.is_lines (side_of side.now) }
{
    match side {
        Side::Insns { .. } => false,
        Side::Lines { .. } => true,
    }
}

/// The verdict where the first side has a state.
fn after_state(
    alloc: Global,
    a: &SymState,
    after: &Side,
    live: &RegSet,
) -> Result<Verdict, TermRefusal>
    requires { sides.side_length (side_of after.now) < 2 ^ 32 }
    ensures { Gives result (spec.judged (sides.is_lines (side_of after.now)) live.now
        (states.Runs (state_of a.now)) (sides.run_side (side_of after.now))) }
{
    match run_side(alloc, after) {
        Ok(b) => compared(alloc, is_lines(after), live, a, &b),
        Err(SymRefusal::Shape { index }) => Ok(Verdict::Shape { index }),
        Err(SymRefusal::Size { size }) => Err(TermRefusal::Size { size }),
        Err(SymRefusal::Memory) => Err(TermRefusal::Memory),
    }
}

/// The verdict on two sides that don't both return.
fn judged(
    alloc: Global,
    before: &[Insn],
    after: &Side,
    live: &RegSet,
) -> Result<Verdict, TermRefusal>
    requires before { length before.now < 2 ^ 32 }
    requires after { sides.side_length (side_of after.now) < 2 ^ 32 }
    ensures { Gives result (spec.judged (sides.is_lines (side_of after.now)) live.now
        (insns.run before.now) (sides.run_side (side_of after.now))) }
{
    match run_rtl(alloc, before) {
        Ok(a) => after_state(alloc, &a, after, live),
        Err(SymRefusal::Shape { index }) => Ok(Verdict::Shape { index }),
        Err(SymRefusal::Size { size }) => after_large(alloc, after, live, size),
        Err(SymRefusal::Memory) => Err(TermRefusal::Memory),
    }
}

/// The verdict.
fn decided(
    alloc: Global,
    before: &[Insn],
    after: &Side,
    live: &RegSet,
) -> Result<Verdict, TermRefusal>
    requires before { length before.now < 2 ^ 32 }
    requires after { sides.side_length (side_of after.now) < 2 ^ 32 }
    ensures { Gives result (spec.verdict before.now (side_of after.now) live.now) }
{
    if both_return(before, after) {
        Ok(Verdict::Same)
    } else {
        judged(alloc, before, after, live)
    }
}

/// Whether instructions are equated with what stands in their place, over the registers that are
/// live behind: the first item that fails, where one does. `Size` comes where a term that is met
/// has too many nodes and no part is one that can't be compared. What is the same, lines or
/// instructions, does what the instructions do in whose place it stands.
#[tactic(auto, using(crate::proofs::VerdictLaws::telling, crate::proofs::Soundness::equated_does, crate::proofs::Soundness::equated_keeps))]
pub fn equate(
    alloc: Global,
    before: &[Insn],
    after: &Side,
    live: &RegSet,
) -> Result<Verdict, TermRefusal>
    requires before { length before.now < 2 ^ 32 }
    requires after { sides.side_length (side_of after.now) < 2 ^ 32 }
    ensures gives { Gives result (spec.verdict before.now (side_of after.now) live.now) }
    ensures tells { Tells result before.now (side_of after.now) live.now }
    ensures sound { EquatedDoesSame }
    ensures sound_insns { EquatedKeeps }
{
    decided(alloc, before, after, live)
}
