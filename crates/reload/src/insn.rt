//! An instruction.
ghost use Rattle.std.specs.Prelude.{◌≡◌, ◌<◌, ◌≤◌, ◌++◌, [], ◌∷◌, true, false, length, IfOk, OnOk};
ghost use Rattle.rtx_tree.specs.Patterns.{with_pattern};
ghost use Rattle.rtl_step.specs.Step as steps;
ghost use Rattle.md_forms.specs.Forms.{names_of};
ghost use Rattle.md_desc.specs.Recog.{IsFirst};
ghost use Rattle.form_needs.specs.Needs as needs;
ghost use Rattle.reload_homes.specs.Homes.{AreOrdered};
ghost use Rattle.reload_moves.specs.Registers.{asks_of};
ghost use Rattle.reload_choice.specs.Choice.{IsChosen};
ghost use Rattle.reload.specs.Reload as spec;
ghost use Rattle.reload.specs.machine.Added.{Adds, AddsWindow};

use crate::moves::add_moves;
use crate::refusal::ReloadRefusal;
use crate::setting::{Setting, patterns_at};
use form_needs::{name_at, needs_form};
use md_desc::FormMatch;
use md_forms::names_of;
use plain_data::{Items, Memory};
use reload_choice::{Given, Plan, best_plan, insn_between, insns_after, insns_before};
use rtx_tree::{Insn, Insns, Kind, Name, Rtx};
use std::alloc::Global;

/// Adds an instruction with another pattern.
fn add_with(alloc: Global, insn: &Insn, pattern: Rtx, insns: &mut Insns) -> Result<(), Memory>
    ensures { OnOk result (insns.new ≡ insns.old ++ with_pattern insn.now pattern ∷ []) }
{
    insns.push(Insn {
        uid: insn.uid,
        kind: insn.kind,
        pattern,
        uses: Items::from_slice(alloc, insn.uses.as_slice())?,
    })
}

/// Adds an instruction between the moves of a plan. Gives the next uid.
fn add_window(
    setting: &Setting,
    uid: u32,
    insn: &Insn,
    given: &Given,
    plan: &Plan,
    insns: &mut Insns,
) -> Result<u32, ReloadRefusal>
    requires { length (asks_of plan.now.parts) ≤ 4 }
    ensures { AddsWindow setting.now.desc.now uid insn.now given.now plan.now insns.old insns.new
        result }
{
    let before = insns_before(setting.alloc, given, plan)?;
    let between = insn_between(setting.alloc, given, plan)?;
    let after = insns_after(setting.alloc, given, plan)?;
    let next = add_moves(setting, uid, before.as_slice(), insns)?;
    add_with(setting.alloc, insn, between, insns)?;
    add_moves(setting, next, after.as_slice(), insns)
}

/// The refusal of an instruction of which no alternative is reachable.
fn unsatisfied(setting: &Setting, uid: u32, form: u32, insn: Rtx) -> Result<ReloadRefusal, Memory>
    ensures { IfOk result (λ e. e ≡ ReloadRefusal.Unsatisfied uid
        (needs.name_at (names_of setting.now.desc.now) form) insn) }
{
    let names = names_of(setting.alloc, setting.desc.forms().as_slice())?;
    let form = Name::of(setting.alloc, name_at(names.as_slice(), form))?;
    Ok(ReloadRefusal::Unsatisfied { uid, form, insn })
}

/// Adds what an instruction comes to that a form matches, by what is chosen from. Gives the next
/// uid.
fn add_given(
    setting: &Setting,
    uid: u32,
    insn: &Insn,
    form: u32,
    given: Given,
    insns: &mut Insns,
) -> Result<u32, ReloadRefusal>
    ensures { Adds (spec.MatchReloads setting.now.desc.now form given uid insn.now) uid insns.old
        insns.new result }
{
    match best_plan(setting.alloc, setting.desc, form, &given)? {
        Some(plan) => add_window(setting, uid, insn, &given, &plan, insns),
        None => Err(unsatisfied(setting, insn.uid, form, given.insn)?),
    }
}

/// Adds what an instruction comes to that a form matches in the frame. Gives the next uid.
fn add_match(
    setting: &Setting,
    uid: u32,
    insn: &Insn,
    placed: &Rtx,
    found: &FormMatch,
    insns: &mut Insns,
) -> Result<u32, ReloadRefusal>
    requires ordered { AreOrdered setting.now.homes.now setting.now.layout.now }
    requires needs { needs.needs_form insn.now ≡ true }
    requires placed { placed.now ≡ spec.placed setting.now.layout.now insn.now }
    requires first { IsFirst setting.now.desc.now needs.lower_facts placed.now 0 found.now }
    ensures { Adds (spec.InsnReloads setting.now.desc.now setting.now.homes.now
        setting.now.layout.now uid insn.now)
        uid insns.old insns.new result }
{
    let pattern = &patterns_at(setting.desc, found.form)[0];
    let given = setting.given(insn.kind, placed, pattern, &found.operands)?;
    add_given(setting, uid, insn, found.form, given, insns)
}

/// Adds what an instruction comes to that needs a form. Gives the next uid.
fn add_needing(
    setting: &Setting,
    uid: u32,
    insn: &Insn,
    insns: &mut Insns,
) -> Result<u32, ReloadRefusal>
    requires ordered { AreOrdered setting.now.homes.now setting.now.layout.now }
    requires needs { needs.needs_form insn.now ≡ true }
    ensures { Adds (spec.InsnReloads setting.now.desc.now setting.now.homes.now
        setting.now.layout.now uid insn.now)
        uid insns.old insns.new result }
{
    let placed = setting.placed(insn)?;
    match setting.first_match(&placed)? {
        Some(found) => add_match(setting, uid, insn, &placed, &found, insns),
        None => Err(ReloadRefusal::Unmatched {
            uid: insn.uid,
            insn: placed,
        }),
    }
}

fn is_mark(insn: &Insn) -> bool
    ensures { result ≡ steps.is_mark insn.now.kind }
{
    matches!(insn.kind, Kind::Label | Kind::Barrier)
}

/// The pattern of an instruction that needs no form: that of a label or a barrier stays.
fn alone(setting: &Setting, insn: &Insn) -> Result<Rtx, Memory>
    requires { AreOrdered setting.now.homes.now setting.now.layout.now }
    ensures { IfOk result (λ x. x ≡ spec.alone setting.now.homes.now setting.now.layout.now
        insn.now) }
{
    if is_mark(insn) {
        return insn.pattern.copy(setting.alloc);
    }
    let placed = setting.placed(insn)?;
    setting.homed(&placed)
}

/// Adds what an instruction comes to where uids are free from one on. Gives the next uid.
pub(crate) fn add_insn(
    setting: &Setting,
    uid: u32,
    insn: &Insn,
    insns: &mut Insns,
) -> Result<u32, ReloadRefusal>
    requires { AreOrdered setting.now.homes.now setting.now.layout.now }
    ensures { Adds (spec.InsnReloads setting.now.desc.now setting.now.homes.now
        setting.now.layout.now uid insn.now)
        uid insns.old insns.new result }
{
    if needs_form(insn) {
        return add_needing(setting, uid, insn, insns);
    }
    let pattern = alone(setting, insn)?;
    add_with(setting.alloc, insn, pattern, insns)?;
    Ok(uid)
}
