//! A function's chain as a graph.
ghost use Rattle.std.specs.Prelude.{◌≡◌, ℕ, ◌<◌, ◌^◌, ◌||◌, ◌&&◌, IfOk, OnOk, Some, length, slice_get};
ghost use Rattle.std.specs.Ordering.{nat_cmp};
ghost use Rattle.std.specs.BTreeMap as map;
ghost use Rattle.rtx_tree.specs.Patterns.{place_of};
ghost use Rattle.rtx_tree.specs.RegSet.{has_reg};
ghost use Rattle.reg_uses.specs.Uses as uses;
ghost use Rattle.live.specs.machine.Nodes.{IsNodeOf, IsEndOf, AreNodes};

use live_rows::Node;
use plain_data::{Items, Memory};
use reg_uses::{Regs, insn_defines, insn_uses, is_return, return_uses};
use rtl_func::{Labels, labels_of, successors_by};
use rtx_tree::{Function, Insn};
use std::alloc::Global;

fn add_all(regs: &mut Regs, more: &[u32]) -> Result<(), Memory>
    ensures { OnOk result ((reg : ℕ) →
        has_reg regs.new reg ≡ (has_reg regs.old reg || has_reg more.now reg)) }
{
    for reg in more {
        regs.push(*reg)?;
    }
    Ok(())
}

/// What an instruction uses, where `returns` is what a return uses.
fn uses_of(alloc: Global, insn: &Insn, returns: &[u32]) -> Result<Regs, Memory>
    ensures { IfOk result (λ regs. (reg : ℕ) →
        has_reg regs reg ≡ (uses.insn_uses insn.now reg ||
        (uses.is_return insn.now && has_reg returns.now reg))) }
{
    let mut regs = insn_uses(alloc, insn)?;
    if is_return(insn) {
        add_all(&mut regs, returns)?;
    }
    Ok(regs)
}

fn node_of(
    alloc: Global,
    f: &Function,
    labels: &Labels,
    at: u32,
    insn: &Insn,
    returns: &[u32],
) -> Result<Node, Memory>
    requires short { length f.now.insns < 2 ^ 32 }
    requires labels { (uid : ℕ) → map.get nat_cmp labels.now uid ≡ place_of uid f.now.insns }
    requires place { slice_get f.now.insns at ≡ Some insn.now }
    requires returns { (reg : ℕ) → has_reg returns.now reg ≡ uses.return_uses f.now reg }
    ensures { IfOk result (λ node. IsNodeOf f.now at insn.now node) }
{
    let next = successors_by(labels, f.insns.as_slice(), at);
    let uses = uses_of(alloc, insn, returns)?;
    let defines = insn_defines(alloc, insn)?;
    Ok(Node {
        uses,
        defines,
        first: next.first,
        second: next.second,
    })
}

/// The end of the chain, where the function returns.
fn end_of(alloc: Global, f: &Function, returns: &[u32]) -> Result<Node, Memory>
    requires { (reg : ℕ) → has_reg returns.now reg ≡ uses.return_uses f.now reg }
    ensures { IfOk result (λ node. IsEndOf f.now node) }
{
    let mut uses = Regs::new(alloc);
    add_all(&mut uses, returns)?;
    Ok(Node {
        uses,
        defines: Regs::new(alloc),
        first: None,
        second: None,
    })
}

/// The nodes of the places of a chain, and at last of its end.
pub fn nodes_of(alloc: Global, f: &Function) -> Result<Items<Node>, Memory>
    requires { length f.now.insns < 2 ^ 32 }
    ensures { IfOk result (λ nodes. AreNodes f.now nodes) }
{
    let returns = return_uses(alloc, f)?;
    let insns = f.insns.as_slice();
    let labels = labels_of(alloc, insns)?;
    let mut nodes = Items::new(alloc);
    for at in 0..insns.len() {
        let node = node_of(alloc, f, &labels, at as u32, &insns[at], returns.as_slice())?;
        nodes.push(node)?;
    }
    let end = end_of(alloc, f, returns.as_slice())?;
    nodes.push(end)?;
    Ok(nodes)
}
