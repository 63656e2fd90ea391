//! Whether an expression is what a pattern asks for, by the heads in it and by the predicates of
//! its placeholders.
//!
//! No operand is put aside for that, so it is asked first: of the forms that are tried most fail
//! here, and take no memory.
ghost use Rattle.std.specs.Prelude.{◌≡◌, true, map, if◌then◌else◌};
ghost use Rattle.rtx_tree.specs.Tree.{head_of};
ghost use Rattle.md_match.specs.Pattern.{Ops};
ghost use Rattle.md_match.specs.machine.Collected.{Makes, MakesAll};
ghost use Rattle.md_recog.specs.Match as spec;

use c_eval::Preds;
use md_match::{Role, role_of};
use rtx_tree::{Code, Rtx, same_head};

/// Whether a placeholder of this code names a predicate.
pub fn names_predicate(code: Code) -> bool
    ensures { result ≡ spec.names_predicate code }
{
    matches!(code, Code::MatchOperand | Code::MatchOperator)
}

/// Whether the predicate of a placeholder, if it names one, accepts an expression.
fn is_accepted<P: Preds>(placeholder: &Rtx, insn: &Rtx, preds: &P) -> bool
    ensures { result ≡ (if spec.names_predicate
        (head_of placeholder.now).code then P.accepts preds.now
        (head_of placeholder.now).name insn.now (head_of placeholder.now).mode else true) }
{
    if !names_predicate(placeholder.code) {
        return true;
    }
    preds.holds(&placeholder.name, insn, placeholder.mode)
}

// Whether each predicate of a pattern accepts its operand, where the pattern makes the expression
// of operands.
#[cycle(accepting)]
#[tactic(auto, using(crate::proofs::Placed::operand_accepted, crate::proofs::Placed::operator_accepted, crate::proofs::Placed::operator_refused, crate::proofs::Placed::itself_other, crate::proofs::Placed::itself_accepted))]
fn are_accepted<P: Preds>(pattern: &Rtx, insn: &Rtx, preds: &P) -> bool
    ensures { (operands : Ops) → Makes pattern.now insn.now operands →
        result ≡ spec.are_accepted (P.accepts preds.now) operands pattern.now }
{
    match role_of(pattern.code) {
        Role::Operand => is_accepted(pattern, insn, preds),
        Role::Operator => {
            if !is_accepted(pattern, insn, preds) {
                return false;
            }
            all_accepted(pattern.kids.as_slice(), insn.kids.as_slice(), preds)
        }
        Role::Itself => {
            if !same_head(pattern, insn) {
                return false;
            }
            all_accepted(pattern.kids.as_slice(), insn.kids.as_slice(), preds)
        }
    }
}

// Whether each predicate of some patterns accepts its operand, where the patterns make the
// expressions, one each, of operands.
#[cycle(accepting)]
fn all_accepted<P: Preds>(patterns: &[Rtx], insns: &[Rtx], preds: &P) -> bool
    ensures { (operands : Ops) → MakesAll patterns.now insns.now operands →
        result ≡ spec.all_accepted (P.accepts preds.now) operands patterns.now }
{
    if patterns.len() != insns.len() {
        return false;
    }
    for i in 0..patterns.len() {
        if !are_accepted(&patterns[i], &insns[i], preds) {
            return false;
        }
    }
    true
}

/// Whether each predicate of some patterns accepts its operand, where the patterns make the
/// expressions, one each, of operands.
pub fn each_accepted<P: Preds>(patterns: &[Rtx], insns: &[&Rtx], preds: &P) -> bool
    ensures { (operands : Ops) → MakesAll patterns.now (map (λ insn. insn.now) insns.now) operands →
        result ≡ spec.all_accepted (P.accepts preds.now) operands patterns.now }
{
    if patterns.len() != insns.len() {
        return false;
    }
    for i in 0..patterns.len() {
        if !are_accepted(&patterns[i], insns[i], preds) {
            return false;
        }
    }
    true
}
