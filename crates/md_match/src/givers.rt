//! The placeholder that gives an operand.
ghost use Rattle.std.specs.Prelude.{◌≡◌, flat_map};
ghost use Rattle.std.specs.List.{find};
ghost use Rattle.std.specs.Option.{option_copied};
ghost use Rattle.md_match.specs.Pattern as spec;

use crate::role::{Role, gives, role_of};
use rtx_tree::Rtx;

fn gives_number(placeholder: &Rtx, number: u32) -> bool
    ensures { result ≡ spec.gives_number number placeholder.now }
{
    gives(placeholder.code) && placeholder.number == i64::from(number)
}

/// The first placeholder of a pattern that gives the operand with a number.
#[cycle(finding)]
#[tactic(auto, using(crate::proofs::GiverLaws::operand_here, crate::proofs::GiverLaws::operand_other, crate::proofs::GiverLaws::operator_here, crate::proofs::GiverLaws::operator_inside, crate::proofs::GiverLaws::itself_inside))]
pub fn giver(pattern: &Rtx, number: u32) -> Option<&Rtx>
    ensures { option_copied result ≡ find (spec.gives_number number)
        (spec.placeholders pattern.now) }
{
    match role_of(pattern.code) {
        Role::Operand => {
            if gives_number(pattern, number) {
                Some(pattern)
            } else {
                None
            }
        }
        Role::Operator => {
            if gives_number(pattern, number) {
                Some(pattern)
            } else {
                giver_among(pattern.kids.as_slice(), number)
            }
        }
        Role::Itself => giver_among(pattern.kids.as_slice(), number),
    }
}

/// The first placeholder of some patterns that gives the operand with a number.
#[cycle(finding)]
#[tactic(auto, using(crate::proofs::GiverLaws::among_found, crate::proofs::GiverLaws::among_next))]
pub fn giver_among(patterns: &[Rtx], number: u32) -> Option<&Rtx>
    ensures { option_copied result ≡ find (spec.gives_number number)
        (flat_map spec.placeholders patterns.now) }
{
    for pattern in patterns {
        if let Some(found) = giver(pattern, number) {
            return Some(found);
        }
    }
    None
}
