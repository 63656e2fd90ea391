//! The placeholders of a pattern that give operands.
ghost use Rattle.std.specs.Prelude.{◌≡◌, ◌++◌, IfOk, OnOk, flat_map, filter};
ghost use Rattle.md_match.specs.Pattern.{placeholders};
ghost use Rattle.lint_made.specs.Made as spec;

use md_match::{Role, gives, role_of};
use plain_data::{Items, Memory};
use rtx_tree::{Kids, Rtx};
use std::alloc::Global;

/// Appends a placeholder, if it gives an operand.
#[tactic(auto, using(lint_choices::proofs::PushedLaws::nothing_pushed))]
fn push_giver(alloc: Global, placeholder: &Rtx, out: &mut Kids) -> Result<(), Memory>
    ensures { OnOk result (out.new ≡ out.old ++ spec.giver_list placeholder.now) }
{
    if gives(placeholder.code) {
        out.push(placeholder.copy(alloc)?)?;
    }
    Ok(())
}

/// Appends the placeholders of a pattern that give operands, an operator before those in its parts.
#[cycle(giving)]
#[tactic(auto, using(crate::proofs::GiverLaws::operand_pushed, crate::proofs::GiverLaws::operator_pushed, crate::proofs::GiverLaws::itself_pushed))]
fn push_givers(alloc: Global, pattern: &Rtx, out: &mut Kids) -> Result<(), Memory>
    ensures { OnOk result (out.new ≡ out.old ++ spec.givers pattern.now) }
{
    match role_of(pattern.code) {
        Role::Operand => push_giver(alloc, pattern, out),
        Role::Operator => {
            push_giver(alloc, pattern, out)?;
            push_each_giver(alloc, pattern.kids.as_slice(), out)
        }
        Role::Itself => push_each_giver(alloc, pattern.kids.as_slice(), out),
    }
}

#[cycle(giving)]
#[tactic(auto, using(lint_choices::proofs::PushedLaws::pushed_next, lint_choices::proofs::PushedLaws::pushed_ends))]
fn push_each_giver(alloc: Global, patterns: &[Rtx], out: &mut Kids) -> Result<(), Memory>
    ensures { OnOk result (out.new ≡ out.old ++ flat_map spec.givers patterns.now) }
{
    for pattern in patterns {
        push_givers(alloc, pattern, out)?;
    }
    Ok(())
}

/// The placeholders of a pattern that give operands, from the left.
pub fn givers(alloc: Global, pattern: &Rtx) -> Result<Kids, Memory>
    ensures { IfOk result (λ out. out ≡ spec.givers pattern.now) }
{
    let mut out = Items::new(alloc);
    push_givers(alloc, pattern, &mut out)?;
    Ok(out)
}
