//! What an operator of a line makes of two terms.
ghost use Rattle.std.specs.Prelude.{◌≡◌, [], IfOk};
ghost use Rattle.rv_text.specs.declared.action.Extension.TheVariants.{Zero};
ghost use Rattle.term_tree.specs.View.{tree_of};
ghost use Rattle.sym_state.specs.Makers as makers;
ghost use Rattle.sym_lines.specs.Compute as spec;
ghost use Rattle.sym_lines.specs.Step.{extended as extended_spec};

use bits64::{Operator, Width};
use plain_data::{Items, Memory};
use rv_text::{Extension, Source};
use std::alloc::Global;
use sym_state::term_of;
use sym_term::TermMaker;
use term_tree::{Head, Term, is_same_width};

/// An operator in a width, with where its operands come from.
#[derive(Clone, Copy)]
pub(crate) struct Computation {
    /// The operator.
    pub operator: Operator,
    /// Its width.
    pub width: Width,
    /// Where the first operand comes from.
    pub left: Source,
    /// Where the second operand comes from.
    pub right: Source,
}

/// An operator of one part, which is no load.
fn one(maker: &mut TermMaker, alloc: Global, head: Head, w: Width, a: Term) -> Result<Term, Memory>
    ensures { IfOk result (λ r. tree_of r ≡ makers.one [] head w (tree_of a)) }
{
    sym_state::one(maker, alloc, &Items::new(alloc), head, w, a)
}

/// A term of a width in 64 bits, with its sign above it.
fn signed_in_64(maker: &mut TermMaker, alloc: Global, w: Width, t: Term) -> Result<Term, Memory>
    ensures { IfOk result (λ r. tree_of r ≡ spec.signed_in_64 w (tree_of t)) }
{
    if is_same_width(w, Width::W64) {
        Ok(t)
    } else {
        one(maker, alloc, Head::Sext, Width::W64, t)
    }
}

/// A term of a width in 64 bits, with zeros above it.
fn zeros_in_64(maker: &mut TermMaker, alloc: Global, w: Width, t: Term) -> Result<Term, Memory>
    ensures { IfOk result (λ r. tree_of r ≡ extended_spec Zero w (tree_of t)) }
{
    if is_same_width(w, Width::W64) {
        Ok(t)
    } else {
        one(maker, alloc, Head::Zext, Width::W64, t)
    }
}

/// What is loaded, in 64 bits.
pub(crate) fn extended(
    maker: &mut TermMaker,
    alloc: Global,
    extension: Extension,
    w: Width,
    t: Term,
) -> Result<Term, Memory>
    ensures { IfOk result (λ r. tree_of r ≡ extended_spec extension w (tree_of t)) }
{
    match extension {
        Extension::Sign => signed_in_64(maker, alloc, w, t),
        Extension::Zero => zeros_in_64(maker, alloc, w, t),
    }
}

/// What a computing line writes.
pub(crate) fn computed(
    maker: &mut TermMaker,
    alloc: Global,
    operator: Operator,
    w: Width,
    a: &Term,
    b: &Term,
) -> Result<Term, Memory>
    ensures { IfOk result (λ r. tree_of r
        ≡ spec.computed operator w (tree_of a.now) (tree_of b.now)) }
{
    let low_a = maker.cut(w, a)?;
    let low_b = maker.cut(w, b)?;
    let term = term_of(maker, alloc, &Items::new(alloc), operator, w, low_a, low_b)?;
    signed_in_64(maker, alloc, w, term)
}
