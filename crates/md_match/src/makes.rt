//! Whether a pattern makes an expression of operands.
ghost use Rattle.std.specs.Prelude.{◌≡◌, ◌↔◌, IsTrue, map};
ghost use Rattle.rtx_tree.specs.Tree.{head_of};
ghost use Rattle.md_match.specs.Pattern as spec;
ghost use Rattle.md_match.specs.declared.role.Role.TheVariants.{Operand};
ghost use Rattle.md_match.specs.Match.{IsScratch};
ghost use Rattle.md_match.specs.machine.Collected.{Makes, MakesAll, Names, NamesHead, NamesOperator, Asks};

use crate::role::{Role, operand_of, role_of};
use rtx_tree::{Code, Mode, Operands, Rtx, same, same_head};

/// Whether the pattern with the operands put in is the expression, and each operand is what its
/// placeholder asks for.
#[cycle(making)]
#[tactic(auto, using(crate::proofs::Decided::operator_not_named, crate::proofs::Decided::operator_decided, crate::proofs::Decided::itself_other, crate::proofs::Decided::itself_decided))]
fn makes(pattern: &Rtx, insn: &Rtx, operands: &Operands) -> bool
    ensures { IsTrue result ↔ Makes pattern.now insn.now operands.now }
{
    match role_of(pattern.code) {
        Role::Operand => makes_operand(pattern, insn, operands),
        Role::Operator => {
            if !names_operator(pattern, insn, operands) {
                return false;
            }
            makes_all(pattern.kids.as_slice(), insn.kids.as_slice(), operands)
        }
        Role::Itself => {
            if !same_head(pattern, insn) {
                return false;
            }
            makes_all(pattern.kids.as_slice(), insn.kids.as_slice(), operands)
        }
    }
}

// Whether some patterns with the operands put in are the expressions, one each.
#[cycle(making)]
#[tactic(auto, using(crate::proofs::Parts::other_length, crate::proofs::Parts::decides_start, crate::proofs::Parts::decides_next, crate::proofs::Parts::decides_not, crate::proofs::Parts::decides_end))]
fn makes_all(patterns: &[Rtx], insns: &[Rtx], operands: &Operands) -> bool
    ensures { IsTrue result ↔ MakesAll patterns.now insns.now operands.now }
{
    if patterns.len() != insns.len() {
        return false;
    }
    for i in 0..patterns.len() {
        if !makes(&patterns[i], &insns[i], operands) {
            return false;
        }
    }
    true
}

/// Whether some patterns with the operands put in are the expressions, one each, and each operand
/// is what its placeholder asks for.
#[tactic(auto, using(crate::proofs::Parts::other_length, crate::proofs::Parts::decides_start, crate::proofs::Parts::decides_next, crate::proofs::Parts::decides_not, crate::proofs::Parts::decides_end))]
pub fn makes_each(patterns: &[Rtx], insns: &[&Rtx], operands: &Operands) -> bool
    ensures { IsTrue result ↔ MakesAll patterns.now (map (λ insn.
        insn.now) insns.now) operands.now }
{
    if patterns.len() != insns.len() {
        return false;
    }
    for i in 0..patterns.len() {
        if !makes(&patterns[i], insns[i], operands) {
            return false;
        }
    }
    true
}

#[tactic(auto, using(crate::proofs::Decided::operand_not_asked, crate::proofs::Decided::operand_decided))]
fn makes_operand(pattern: &Rtx, insn: &Rtx, operands: &Operands) -> bool
    requires { spec.role_of (head_of pattern.now).code ≡ Operand }
    ensures { IsTrue result ↔ Makes pattern.now insn.now operands.now }
{
    if !asks_for(pattern, insn) {
        return false;
    }
    names(pattern, insn, operands)
}

// Whether the operand that the placeholder names is the expression.
fn names(placeholder: &Rtx, insn: &Rtx, operands: &Operands) -> bool
    ensures { IsTrue result ↔ Names placeholder.now insn.now operands.now }
{
    match operand_of(placeholder, operands) {
        None => false,
        Some(operand) => same(operand, insn),
    }
}

// Whether the operand that the placeholder names has the expression's head.
fn names_head(placeholder: &Rtx, insn: &Rtx, operands: &Operands) -> bool
    ensures { IsTrue result ↔ NamesHead placeholder.now insn.now operands.now }
{
    match operand_of(placeholder, operands) {
        None => false,
        Some(operand) => same_head(operand, insn),
    }
}

// An operator's operand is the whole expression; its dup repeats the head.
fn names_operator(operator: &Rtx, insn: &Rtx, operands: &Operands) -> bool
    ensures { IsTrue result ↔ NamesOperator
        (head_of operator.now).code operator.now insn.now operands.now }
{
    match operator.code {
        Code::MatchOperator => names(operator, insn, operands),
        _ => names_head(operator, insn, operands),
    }
}

// Whether the expression is what the placeholder asks for.
fn asks_for(placeholder: &Rtx, insn: &Rtx) -> bool
    ensures { IsTrue result ↔ Asks (head_of placeholder.now).code
        (head_of placeholder.now).mode insn.now }
{
    match placeholder.code {
        Code::MatchScratch => is_scratch(placeholder.mode, insn),
        _ => true,
    }
}

fn is_scratch(mode: Mode, insn: &Rtx) -> bool
    ensures { IsTrue result ↔ IsScratch mode insn.now }
{
    if !insn.code.same(Code::Scratch) && !insn.code.same(Code::Reg) {
        return false;
    }
    mode.same(Mode::Void) || insn.mode.same(mode)
}
