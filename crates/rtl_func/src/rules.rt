//! The rules that each instruction keeps or breaks.
ghost use Rattle.std.specs.Prelude.{◌≡◌, IfOk, OnOk};
ghost use Rattle.rtl_func.specs.Faults.{earlier, first_fault};
ghost use Rattle.rtl_func.specs.Modes.{modes_agree};
ghost use Rattle.rtl_func.specs.Calls.{calls_agree};
ghost use Rattle.rtl_func.specs.Effects.{parallels_agree};
ghost use Rattle.rtl_func.specs.Rules as spec;
ghost use Rattle.rtl_func.specs.machine.Tables.{AreTables};

use crate::calls::{call_result_agrees, call_target_agrees};
use crate::effects::parallels_change_once;
use crate::fault::{Fault, note};
use crate::nodes::{NodeRule, nodes_keep};
use crate::tables::{Tables, is_ruled};
use crate::trees::{
    argument_registers, call_modes_agree, kinds_agree, parallels_hold_simple, shapes_agree,
};
use plain_data::Memory;
use rtx_tree::{Function, Insn, Rtx};
use std::alloc::Global;

/// A rule that each instruction keeps or breaks.
#[derive(Clone, Copy)]
pub enum InsnRule {
    /// Each label that the instruction names stands.
    LabelsStand,
    /// The instruction's kind is its pattern's.
    KindsAgree,
    /// The pattern is one of the table, each part with the mode that it has there.
    ModesAgree,
    /// A pseudo has the mode of its first mention.
    OneModeAPseudo,
    /// Hard registers are a0 to a7.
    ArgumentRegisters,
    /// A call's target, result and uses are lawful.
    Calls,
    /// Parallels hold simple effects and change no register twice.
    Parallels,
    /// `virtual-stack-vars` is used as it may be.
    StackVariables,
}

/// The rules of instructions, in the order of their numbers.
const INSN_RULES: [InsnRule; 8] = [
    InsnRule::LabelsStand,
    InsnRule::KindsAgree,
    InsnRule::ModesAgree,
    InsnRule::OneModeAPseudo,
    InsnRule::ArgumentRegisters,
    InsnRule::Calls,
    InsnRule::Parallels,
    InsnRule::StackVariables,
];

fn insn_rules() -> &'static [InsnRule]
    ensures { result.now ≡ spec.insn_rules }
{
    &INSN_RULES
}

fn rule_number(rule: InsnRule) -> u8
    ensures { result ≡ spec.rule_number rule }
{
    match rule {
        InsnRule::LabelsStand => 2,
        InsnRule::KindsAgree => 3,
        InsnRule::ModesAgree => 4,
        InsnRule::OneModeAPseudo => 5,
        InsnRule::ArgumentRegisters => 6,
        InsnRule::Calls => 7,
        InsnRule::Parallels => 8,
        InsnRule::StackVariables => 9,
    }
}

fn modes_agree(pattern: &Rtx) -> bool
    ensures { result ≡ modes_agree pattern.now }
{
    shapes_agree(pattern) && call_modes_agree(pattern)
}

fn calls_agree(insn: &Insn) -> bool
    ensures { result ≡ calls_agree insn.now.kind insn.now.pattern insn.now.uses }
{
    call_result_agrees(insn.kind, &insn.pattern, insn.uses.as_slice())
        && call_target_agrees(insn.kind, &insn.pattern)
}

fn parallels_agree(alloc: Global, pattern: &Rtx) -> Result<bool, Memory>
    ensures { IfOk result (λ agree. agree ≡ parallels_agree pattern.now) }
{
    if parallels_hold_simple(pattern) {
        parallels_change_once(alloc, pattern)
    } else {
        Ok(false)
    }
}

fn keeps(
    alloc: Global,
    rule: InsnRule,
    f: &Function,
    tables: &Tables,
    insn: &Insn,
) -> Result<bool, Memory>
    requires { AreTables f.now tables.now }
    ensures { IfOk result (λ kept. kept ≡ spec.keeps rule f.now insn.now) }
{
    let pattern = &insn.pattern;
    match rule {
        InsnRule::LabelsStand => Ok(nodes_keep(NodeRule::LabelStands, f, tables, pattern)),
        InsnRule::KindsAgree => Ok(kinds_agree(insn.kind, pattern)),
        InsnRule::ModesAgree => Ok(modes_agree(pattern)),
        InsnRule::OneModeAPseudo => Ok(nodes_keep(NodeRule::HasItsMode, f, tables, pattern)),
        InsnRule::ArgumentRegisters => Ok(argument_registers(pattern, insn.uses.as_slice())),
        InsnRule::Calls => Ok(calls_agree(insn)),
        InsnRule::Parallels => parallels_agree(alloc, pattern),
        InsnRule::StackVariables => Ok(nodes_keep(NodeRule::IsStackVariable, f, tables, pattern)),
    }
}

fn breaks(
    alloc: Global,
    rule: InsnRule,
    f: &Function,
    tables: &Tables,
    insn: &Insn,
) -> Result<bool, Memory>
    requires { AreTables f.now tables.now }
    ensures { IfOk result (λ broken. broken ≡ spec.breaks rule f.now insn.now) }
{
    if !is_ruled(insn) {
        return Ok(false);
    }
    Ok(!keeps(alloc, rule, f, tables, insn)?)
}

/// Notes where a rule fails.
fn note_rule(
    alloc: Global,
    rule: InsnRule,
    f: &Function,
    tables: &Tables,
    first: &mut Option<Fault>,
) -> Result<(), Memory>
    requires { AreTables f.now tables.now }
    ensures { OnOk result (first.new ≡ earlier first.old
        (first_fault (spec.rule_faults f.now rule))) }
{
    let insns = f.insns.as_slice();
    for insn in insns {
        let is_broken = breaks(alloc, rule, f, tables, insn)?;
        if is_broken {
            note(first, insn.uid, rule_number(rule));
        }
    }
    Ok(())
}

/// Notes where one of the rules of instructions fails.
pub fn note_rules(
    alloc: Global,
    f: &Function,
    tables: &Tables,
    first: &mut Option<Fault>,
) -> Result<(), Memory>
    requires { AreTables f.now tables.now }
    ensures { OnOk result (first.new ≡ earlier first.old
        (first_fault (spec.all_rule_faults f.now spec.insn_rules))) }
{
    for rule in insn_rules() {
        note_rule(alloc, *rule, f, tables, first)?;
    }
    Ok(())
}
