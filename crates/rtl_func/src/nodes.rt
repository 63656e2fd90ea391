//! What the rules ask of each tree within a pattern, by the function in which it stands.
ghost use Rattle.std.specs.Prelude.{◌≡◌, ℕ};
ghost use Rattle.rtl_func.specs.Kinds as kinds;
ghost use Rattle.rtl_func.specs.Modes as modes;
ghost use Rattle.rtl_func.specs.machine.NodeRules as spec;
ghost use Rattle.rtl_func.specs.machine.Tables.{AreTables};

use crate::effects::has_stack_variables;
use crate::shape::same_mode;
use crate::tables::{Tables, register_at};
use rtx_tree::{FIRST_PSEUDO, Function, Rtx};

/// What a rule asks of each tree within a pattern.
#[derive(Clone, Copy)]
pub enum NodeRule {
    /// A label that it names stands.
    LabelStands,
    /// A pseudo has the mode of its first mention.
    HasItsMode,
    /// `virtual-stack-vars` is used as it may be.
    IsStackVariable,
}

fn label_stands(f: &Function, tables: &Tables, x: &Rtx) -> bool
    requires { AreTables f.now tables.now }
    ensures { result ≡ kinds.label_stands f.now.insns x.now }
{
    match x.label_uid() {
        None => true,
        Some(uid) => tables.labels.get(&uid).is_some(),
    }
}

fn has_its_mode(f: &Function, tables: &Tables, x: &Rtx) -> bool
    requires { AreTables f.now tables.now }
    ensures { result ≡ modes.has_its_mode f.now.insns x.now }
{
    let Some(reg) = register_at(x) else {
        return true;
    };
    if reg < u64::from(FIRST_PSEUDO) {
        return true;
    }
    match tables.modes.get(&reg).copied() {
        None => true,
        Some(first) => same_mode(first, x.mode),
    }
}

fn node_keeps(rule: NodeRule, f: &Function, tables: &Tables, x: &Rtx) -> bool
    requires { AreTables f.now tables.now }
    ensures { result ≡ spec.node_keeps rule f.now x.now }
{
    match rule {
        NodeRule::LabelStands => label_stands(f, tables, x),
        NodeRule::HasItsMode => has_its_mode(f, tables, x),
        NodeRule::IsStackVariable => has_stack_variables(f.locals, x),
    }
}

/// Whether a tree and all trees within it keep a rule.
#[tactic(auto, using(crate::proofs::RuleLaws::keep_out))]
pub fn nodes_keep(rule: NodeRule, f: &Function, tables: &Tables, x: &Rtx) -> bool
    requires { AreTables f.now tables.now }
    ensures { result ≡ spec.nodes_keep rule f.now x.now }
{
    if !node_keeps(rule, f, tables, x) {
        return false;
    }
    for kid in x.kids.as_slice() {
        if !nodes_keep(rule, f, tables, kid) {
            return false;
        }
    }
    true
}
