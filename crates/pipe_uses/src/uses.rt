//! What an instruction takes.
ghost use Rattle.std.specs.Prelude.{◌≡◌, ◌<◌, ℕ, List, IfOk, IfSome, length};
ghost use Rattle.rtx_tree.specs.declared.function.Insn.{Insn};
ghost use Rattle.md_forms.specs.declared.form.Entry.{Entry};
ghost use Rattle.md_dfa.specs.Lawful.{AreLawful};
ghost use Rattle.md_dfa.specs.Pipeline.{reservation_of};
ghost use Rattle.md_dfa.specs.declared.pipeline.Pipeline.{Pipeline};
ghost use Rattle.region_jobs.specs.Kept.{IsTaken};
ghost use Rattle.region_jobs.specs.declared.taken.Taken.{Taken};
ghost use Rattle.pipe_uses.specs.Takes as spec;

use crate::copies::{copied, no_units};
use form_needs::{needs_form, output_facts};
use md_desc::{Chosen, Description};
use md_dfa::Pipeline;
use plain_data::Memory;
use region_jobs::Taken;
use rtx_tree::Insn;
use std::alloc::Global;

/// What takes no unit.
fn nothing(alloc: Global) -> Result<Taken, Memory>
    ensures { IfOk result (λ taken. taken ≡ spec.nothing) }
{
    Ok(Taken {
        latency: 1,
        ways: no_units(alloc)?,
    })
}

/// What an instruction of a reservation takes, or of none.
#[tactic(auto, using(crate::proofs::TakesLaws::by_parts))]
fn taken_by(alloc: Global, pipe: &Pipeline, reservation: Option<usize>) -> Result<Taken, Memory>
    requires { IfSome reservation (λ at. at < length pipe.now.reservations) }
    ensures { IfOk result (λ taken. taken ≡ spec.taken_by pipe.now reservation) }
{
    match reservation {
        Some(at) => Ok(Taken {
            latency: pipe.latency(at),
            ways: copied(alloc, pipe.ways(at).as_slice())?,
        }),
        None => nothing(alloc),
    }
}

/// What an instruction for which a form was chosen takes.
#[tactic(auto, using(crate::proofs::TakesLaws::within_if))]
fn taken_for(
    alloc: Global,
    desc: &Description,
    pipe: &Pipeline,
    chosen: &Chosen,
) -> Result<Taken, Memory>
    ensures { IfOk result (λ taken. taken ≡ spec.taken_by pipe.now
        (reservation_of pipe.now desc.now chosen.now.form chosen.now.alternative)) }
{
    let reservation = pipe.reservation(desc.attributes(), chosen.form, chosen.alternative);
    taken_by(alloc, pipe, reservation)
}

/// What an instruction takes of a pipeline.
#[tactic(auto, using(crate::proofs::TakesLaws::takes_lawful, crate::proofs::TakesLaws::takes_one))]
pub fn takes(
    alloc: Global,
    desc: &Description,
    pipe: &Pipeline,
    insn: &Insn,
) -> Result<Taken, Memory>
    ensures takes { IfOk result (spec.Takes desc.now pipe.now insn.now) }
    ensures lawful { (forms : List Entry) (p : Pipeline) (i : Insn) (t : Taken) → AreLawful p →
        spec.Takes forms p i t → IsTaken t }
    ensures one { (forms : List Entry) (p : Pipeline) (i : Insn) (t u : Taken) →
        spec.Takes forms p i t → spec.Takes forms p i u → t ≡ u }
{
    if !needs_form(insn) {
        return nothing(alloc);
    }
    match desc.recog_out(alloc, &insn.pattern, &output_facts(alloc))? {
        Some(chosen) => taken_for(alloc, desc, pipe, &chosen),
        None => nothing(alloc),
    }
}
