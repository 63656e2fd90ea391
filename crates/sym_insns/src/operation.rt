//! Operations on terms.
ghost use Rattle.std.specs.Prelude.{◌≡◌, ◌++◌, map, IfOk, OnOk};
ghost use Rattle.bits64.specs.declared.operator.Asks.TheVariants.{SecondNonzero};
ghost use Rattle.term_tree.specs.View.{tree_of};
ghost use Rattle.term_mean.specs.Sums as sums;
ghost use Rattle.sym_state.specs.Makers as makers;
ghost use Rattle.sym_state.specs.Views.{need_of};
ghost use Rattle.sym_insns.specs.Value as spec;
ghost use Rattle.sym_insns.specs.machine.Making.{stores_of};

use crate::before::Before;
use bits64::{Asks, Operator, Width};
use plain_data::{Items, Memory};
use rtx_tree::Code;
use std::alloc::Global;
use sym_state::{Comparison, NeedOf, related, term_of};
use sym_term::TermMaker;
use term_sums::{constant_of, constant_term};
use term_tree::{Head, Measured, Term};

/// Needs, in the order in which they are met.
pub type Needs = Items<NeedOf>;

/// An operation on two operands.
#[derive(Clone, Copy)]
pub struct Operation {
    /// Its operator.
    pub operator: Operator,
    /// The width in which its second operand is read.
    pub operand: Width,
    /// The width of its value.
    pub width: Width,
}

/// What an operator makes of one term.
pub fn unary(
    maker: &mut TermMaker,
    before: &Before,
    operator: Operator,
    w: Width,
    a: Term,
) -> Result<Term, Memory>
    ensures { IfOk result (λ r. tree_of r
        ≡ makers.term_of (stores_of before.now) operator w (tree_of a) (sums.constant w 0)) }
{
    let none = constant_term(before.alloc, w, 0);
    term_of(maker, before.alloc, before.stores, operator, w, a, none)
}

/// What an operator makes of two terms.
pub fn binary(
    maker: &mut TermMaker,
    before: &Before,
    operation: Operation,
    a: Term,
    b: Term,
) -> Result<Term, Memory>
    ensures { IfOk result (λ r. tree_of r
        ≡ makers.term_of (stores_of before.now) operation.operator operation.width (tree_of a)
        (tree_of b)) }
{
    let Operation {
        operator,
        width,
        ..
    } = operation;
    term_of(maker, before.alloc, before.stores, operator, width, a, b)
}

/// Whether a divisor is a constant other than 0.
fn is_nonzero(b: &Term) -> bool
    ensures { result ≡ spec.is_nonzero (sums.constant_in (tree_of b.now)) }
{
    match constant_of(b) {
        Some(c) => c != 0,
        None => false,
    }
}

/// Notes that a divisor has not to be 0, unless it is a constant that is not.
fn need_nonzero(alloc: Global, b: &Term, needs: &mut Needs) -> Result<(), Memory>
    ensures { OnOk result (map need_of needs.new
        ≡ map need_of needs.old ++ spec.divisor_needs SecondNonzero (tree_of b.now)) }
{
    if !is_nonzero(b) {
        needs.push(NeedOf::Divisor {
            term: Measured::of(b.copy(alloc)?),
        })?;
    }
    Ok(())
}

/// Notes what a divisor needs, where one is asked for.
pub fn need_divisor(alloc: Global, asks: Asks, b: &Term, needs: &mut Needs) -> Result<(), Memory>
    ensures { OnOk result (map need_of needs.new
        ≡ map need_of needs.old ++ spec.divisor_needs asks (tree_of b.now)) }
{
    match asks {
        Asks::Nothing => Ok(()),
        Asks::SecondNonzero => need_nonzero(alloc, b, needs),
    }
}

/// The operator of an extension or a truncation.
pub fn conversion_of(code: Code) -> Option<Head>
    ensures { result ≡ spec.conversion_of code }
{
    match code {
        Code::SignExtend => Some(Head::Sext),
        Code::ZeroExtend => Some(Head::Zext),
        Code::Truncate => Some(Head::Trunc),
        _ => None,
    }
}

/// The truth of a comparison of two operands.
pub fn compared(
    maker: &mut TermMaker,
    before: &Before,
    comparison: Comparison,
    a: Term,
    b: Term,
) -> Result<Term, Memory>
    ensures { IfOk result (λ r. tree_of r
        ≡ makers.related (stores_of before.now) comparison.relation comparison.operand
        comparison.width (tree_of a) (tree_of b)) }
{
    related(maker, before.alloc, before.stores, comparison, a, b)
}
