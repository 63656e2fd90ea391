//! Operands inside low parts.
ghost use Rattle.std.specs.Prelude.{◌≡◌, ◌||◌, map};
ghost use Rattle.rtx_tree.specs.Tree.{kids_of};
ghost use Rattle.reload_operands.specs.Put as spec;

use md_match::{Role, role_of};
use rtx_tree::{Code, Rtx};

fn is_lowpart(x: &Rtx) -> bool
    ensures { result ≡ spec.is_lowpart x.now }
{
    matches!(x.code, Code::Subreg)
}

fn is_inside(number: u32, own: i64, inside: bool) -> bool
    ensures { result ≡ spec.is_inside number own inside }
{
    inside && own == i64::from(number)
}

#[cycle(looking)]
#[tactic(auto, using(crate::proofs::InsideLaws::inside_operand, crate::proofs::InsideLaws::inside_operator, crate::proofs::InsideLaws::inside_itself))]
fn inside_low(number: u32, pattern: &Rtx, inside: bool, x: &Rtx) -> bool
    ensures { result ≡ spec.inside_low number pattern.now inside x.now }
{
    match role_of(pattern.code) {
        Role::Operand => is_inside(number, pattern.number, inside),
        Role::Operator => {
            if is_inside(number, pattern.number, inside) {
                return true;
            }
            any_inside(
                number,
                pattern.kids.as_slice(),
                inside || is_lowpart(x),
                x.kids.as_slice(),
            )
        }
        Role::Itself => {
            any_inside(
                number,
                pattern.kids.as_slice(),
                inside || is_lowpart(x),
                x.kids.as_slice(),
            )
        }
    }
}

#[cycle(looking)]
#[tactic(auto, using(crate::proofs::InsideLaws::looks_start, crate::proofs::InsideLaws::looks_true, crate::proofs::InsideLaws::looks_next))]
fn any_inside(number: u32, patterns: &[Rtx], inside: bool, trees: &[Rtx]) -> bool
    ensures { result ≡ spec.any_inside
        (map (spec.inside_low number) patterns.now) inside trees.now }
{
    for i in 0..patterns.len().min(trees.len()) {
        if inside_low(number, &patterns[i], inside, &trees[i]) {
            return true;
        }
    }
    false
}

/// Whether an operand of a pattern has a place inside a low part in a tree that the pattern
/// matches.
pub fn in_lowpart(pattern: &Rtx, x: &Rtx, number: u32) -> bool
    ensures { result ≡ spec.in_lowpart pattern.now x.now number }
{
    inside_low(number, pattern, false, x)
}
