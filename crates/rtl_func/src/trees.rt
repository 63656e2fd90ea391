//! What the rules ask of each tree within a pattern, whatever the function is.
ghost use Rattle.std.specs.Prelude.{◌≡◌, IsTrue};
ghost use Rattle.rtx_tree.specs.Tree.{HaveTheirParts};
ghost use Rattle.rtl_func.specs.Calls as calls;
ghost use Rattle.rtl_func.specs.Effects as effects;
ghost use Rattle.rtl_func.specs.Kinds as kinds;
ghost use Rattle.rtl_func.specs.Modes as modes;
ghost use Rattle.rtl_func.specs.machine.TreeRules as spec;

use crate::calls::{has_argument, uses_are_arguments};
use crate::effects::holds_simple;
use crate::kinds::{is_call_tree, is_jump_tree, is_nothing, is_plain_tree};
use crate::shape::{has_call_mode, is_effect, is_shaped};
use rtx_tree::{ArgUse, Kind, Rtx};

/// What a rule asks of each tree within a pattern.
#[derive(Clone, Copy)]
enum TreeRule {
    /// The tree is no jump and no call.
    IsPlain,
    /// The tree has the parts of its row of the table, the mode of a call's memory apart.
    IsShaped,
    /// The memory of a call has mode SI.
    HasCallMode,
    /// A hard register is one of a0 to a7.
    IsArgument,
    /// A parallel holds simple effects alone.
    HoldsSimple,
}

fn tree_keeps(rule: TreeRule, x: &Rtx) -> bool
    ensures { result ≡ spec.tree_keeps rule x.now }
{
    match rule {
        TreeRule::IsPlain => is_plain_tree(x),
        TreeRule::IsShaped => is_shaped(x),
        TreeRule::HasCallMode => has_call_mode(x),
        TreeRule::IsArgument => has_argument(x),
        TreeRule::HoldsSimple => holds_simple(x),
    }
}

/// Whether a tree and all trees within it keep a rule.
#[tactic(auto, using(crate::proofs::RuleLaws::tree_out))]
fn trees_keep(rule: TreeRule, x: &Rtx) -> bool
    ensures { result ≡ spec.trees_keep rule x.now }
{
    if !tree_keeps(rule, x) {
        return false;
    }
    for kid in x.kids.as_slice() {
        if !trees_keep(rule, kid) {
            return false;
        }
    }
    true
}

/// Whether a pattern is one of an instruction of a kind.
pub fn kinds_agree(kind: Kind, pattern: &Rtx) -> bool
    ensures { result ≡ kinds.kinds_agree kind pattern.now }
{
    match kind {
        Kind::Plain => trees_keep(TreeRule::IsPlain, pattern),
        Kind::Jump => is_jump_tree(pattern),
        Kind::Call => is_call_tree(pattern),
        Kind::Label => is_nothing(pattern),
        Kind::Barrier => true,
    }
}

/// Whether a pattern is an effect whose trees have the parts of their rows of the table, each with
/// its mode. The mode of a call's memory is not asked.
pub fn shapes_agree(pattern: &Rtx) -> bool
    ensures agree { result ≡ modes.shapes_agree pattern.now }
    // Then each tree in it has as many kids as the row of its code says.
    ensures parts { IsTrue result → HaveTheirParts pattern.now }
{
    is_effect(pattern) && trees_keep(TreeRule::IsShaped, pattern)
}

/// Whether the memory of each call in a pattern has mode SI.
pub fn call_modes_agree(pattern: &Rtx) -> bool
    ensures { result ≡ modes.call_modes_agree pattern.now }
{
    trees_keep(TreeRule::HasCallMode, pattern)
}

/// Whether hard registers are a0 to a7, in a pattern and among a call's uses.
pub fn argument_registers(pattern: &Rtx, uses: &[ArgUse]) -> bool
    ensures { result ≡ calls.argument_registers pattern.now uses.now }
{
    trees_keep(TreeRule::IsArgument, pattern) && uses_are_arguments(uses)
}

/// Whether each parallel of a pattern holds `set`, `use` and `clobber` alone.
pub fn parallels_hold_simple(pattern: &Rtx) -> bool
    ensures { result ≡ effects.parallels_hold_simple pattern.now }
{
    trees_keep(TreeRule::HoldsSimple, pattern)
}
