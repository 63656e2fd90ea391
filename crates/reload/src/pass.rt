//! The pass over a function.
ghost use Rattle.std.specs.Prelude.{◌≡◌, ◌+◌, IfOk, List, Ok};
ghost use Rattle.rtx_tree.specs.declared.function.Function.{Function};
ghost use Rattle.md_forms.specs.declared.form.Entry.{Entry};
ghost use Rattle.assign.specs.declared.home.HomeOf.{HomeOf};
ghost use Rattle.assign.specs.declared.places.Layout.{Layout};
ghost use Rattle.law_pass_needs.specs.Left.{SameMarks};
ghost use Rattle.law_pass_needs.specs.Reloadable.{UidsDiffer};
ghost use Rattle.law_frame.specs.Frame as frames;
ghost use Rattle.reload_homes.specs.Homes.{AreOrdered};
ghost use Rattle.reload.specs.Outcome.{Gives};
ghost use Rattle.reload.specs.Reload as spec;
ghost use Rattle.reload.specs.Windows.{HasWindows};

use crate::insn::add_insn;
use crate::refusal::ReloadRefusal;
use crate::setting::Setting;
use assign::{Homes, Layout};
use md_desc::Description;
use plain_data::{Items, Memory};
use rtl_chain::greatest_uid;
use rtx_tree::{Function, Insn, Insns};
use std::alloc::Global;

/// The next uid of a chain. One past 32 bits finds no memory.
fn next_uid(insns: &[Insn]) -> Result<u32, Memory>
    ensures { IfOk result (λ uid. uid ≡ frames.next_uid insns.now) }
{
    match greatest_uid(insns).checked_add(1) {
        Some(uid) => Ok(uid),
        None => Err(Memory),
    }
}

/// What a chain comes to, where uids are free from one on.
fn reloaded(setting: &Setting, uid: u32, chain: &[Insn]) -> Result<Insns, ReloadRefusal>
    requires { AreOrdered setting.now.homes.now setting.now.layout.now }
    ensures { Gives result (spec.ChainReloads setting.now.desc.now setting.now.homes.now
        setting.now.layout.now uid chain.now) }
{
    let mut insns = Items::new(setting.alloc);
    let mut next = uid;
    for insn in chain {
        next = add_insn(setting, next, insn, &mut insns)?;
    }
    Ok(insns)
}

/// The function with another chain.
fn with_insns(f: Function, insns: Insns) -> Function
    ensures { result ≡ frames.with_insns f insns }
{
    Function {
        name: f.name,
        insns,
        locals: f.locals,
        result: f.result,
        result_reg: f.result_reg,
    }
}

/// The function with homes put in and moves where forms of the description ask for them. Moves take
/// the uids after the greatest, in their order; uids past 32 bits find no memory. Homes and slots
/// are in increasing number, as `assign` gives them.
///
/// # Errors
///
/// For the first instruction that is refused: `Unmatched` where no form matches it, or one of its
/// moves, which has the uid then that it would have; `Unsatisfied` where no alternative of its form
/// is reachable. `Memory` where memory ran out.
#[tactic(auto, using(crate::proofs::One::reload_one, crate::proofs::WindowLaws::reload_windows, crate::proofs::Marks::reload_marks, crate::proofs::Uids::reload_uids))]
pub fn reload(
    alloc: Global,
    desc: &Description,
    f: Function,
    homes: &Homes,
    layout: &Layout,
) -> Result<Function, ReloadRefusal>
    requires ordered { AreOrdered homes.now layout.now }
    // What is told is given; a refusal is the one that is told.
    ensures gives { Gives result (spec.FunctionReloads desc.now homes.now layout.now f) }

    // A function comes to one thing.
    ensures one { (forms : List Entry) (homes : List HomeOf) (layout : Layout) (f : Function)
        (a b : spec.Answer) →
        spec.FunctionReloads forms homes layout f a → spec.FunctionReloads forms homes layout f b →
        a ≡ b }

    // Each instruction that needs a form stands between the moves of a sound plan, and each other
    // alone with its homes.
    ensures windows { (forms : List Entry) (homes : List HomeOf) (layout : Layout)
        (f g : Function) →
        spec.FunctionReloads forms homes layout f (Ok g) → HasWindows forms homes layout f g }

    // Labels and barriers stay, and uids that differ still do.
    ensures marks { (forms : List Entry) (homes : List HomeOf) (layout : Layout) (f g : Function) →
        spec.FunctionReloads forms homes layout f (Ok g) → SameMarks f g }
    ensures uids { (forms : List Entry) (homes : List HomeOf) (layout : Layout) (f g : Function) →
        UidsDiffer f → spec.FunctionReloads forms homes layout f (Ok g) → UidsDiffer g }
{
    let uid = next_uid(f.insns.as_slice())?;
    let setting = Setting {
        alloc,
        desc,
        homes,
        layout,
    };
    let insns = reloaded(&setting, uid, f.insns.as_slice())?;
    Ok(with_insns(f, insns))
}
