//! The passes over a function, one behind the other.
ghost use Rattle.std.specs.Prelude.{◌≡◌, List, Ok};
ghost use Rattle.rtx_tree.specs.declared.function.Function.{Function};
ghost use Rattle.pass_name.specs.declared.road.Road.{Road};
ghost use Rattle.md_forms.specs.declared.form.Entry.{Entry};
ghost use Rattle.func_after.specs.After as spec;
ghost use Rattle.law_passes.specs.law_insn_replaced.Sound.{IsSound};
ghost use Rattle.func_after.specs.After.{IsBehind, AfterComes, Gives};
ghost use Rattle.func_after.specs.Leads.{IsDescribed, LeadsToLines};
ghost use Rattle.func_after.specs.declared.compilation.Compilation.{Compilation};

use crate::compilation::{Compilation, as_read};
use crate::pass::passed;
use md_desc::Description;
use pass_name::{Pass, Road};
use rtx_tree::Function;
use run_refusal::Refusal;
use std::alloc::Global;

/// Whether two passes are one.
fn is_pass(a: Pass, b: Pass) -> bool
    ensures { result ≡ spec.is_pass a b }
{
    a.name() == b.name()
}

/// What the passes of a road up to one make of a function; `Pass::Output` comes behind all.
///
/// # Errors
///
/// As the passes tell them: `Unmatched`, `Unsatisfied`, `NotEquated`, and `Limit` of `TermSize`,
/// `Instructions`, `SplitDepth` or `Frame`; `Memory` where memory ran out.
#[tactic(auto, using(crate::proofs::PassesLaws::makes_start, crate::proofs::PassesLaws::makes_on, crate::proofs::PassesLaws::makes_wrong, crate::proofs::PassesLaws::makes_all))]
pub fn behind(
    alloc: Global,
    desc: &Description,
    road: Road,
    f: &Function,
    pass: Pass,
) -> Result<Compilation, Refusal>
    ensures { Gives result (IsBehind desc.now road f.now pass) }
{
    let mut made = as_read(alloc, f)?;
    for next in road.passes() {
        made = passed(alloc, desc, made, *next)?;
        if is_pass(*next, pass) {
            return Ok(made);
        }
    }
    Ok(made)
}

/// What all passes of a road make of a function: it comes to output.
///
/// # Errors
///
/// As [`behind`] says for the last pass.
#[tactic(auto, using(crate::proofs::PassesLaws::behind_all, crate::proofs::OneAfter::one_after, crate::proofs::Keeping::after_leads, crate::proofs::Short::after_short))]
pub fn after(
    alloc: Global,
    desc: &Description,
    road: Road,
    f: &Function,
) -> Result<Compilation, Refusal>
    // What is told is given; a refusal is the one that is told.
    ensures gives { Gives result (AfterComes desc.now road f.now) }

    // A function comes to one thing.
    ensures one { (forms : List Entry) (road : Road) (f : Function) (a b : spec.Answer) →
        AfterComes forms road f a → AfterComes forms road f b → a ≡ b }

    // By the forms of a description, lines that do what a sound function then does have the
    // behaviour of the function.
    ensures leads { (forms : List Entry) (road : Road) (f : Function) (m : Compilation) →
        IsDescribed forms → IsSound f → AfterComes forms road f (Ok m) → LeadsToLines f m }

    // What comes to output has at most 1,000,000 instructions.
    ensures short { (forms : List Entry) (road : Road) (f : Function) (m : Compilation) →
        AfterComes forms road f (Ok m) → spec.IsShort m }
{
    behind(alloc, desc, road, f, Pass::Output)
}
