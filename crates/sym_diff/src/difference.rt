//! Terms compared, and how they are shown where they differ.
ghost use Rattle.std.specs.Prelude.{◌≡◌, Some, IfOk, option_map};
ghost use Rattle.term_tree.specs.View.{tree_of};
ghost use Rattle.sym_state.specs.State.{nothing as nothing_spec};
ghost use Rattle.sym_diff.specs.Difference as spec;
ghost use Rattle.sym_diff.specs.Registers as terms;
ghost use Rattle.sym_diff.specs.Compared as compared;
ghost use Rattle.sym_diff.specs.Views.{difference_of};

use bits64::Width;
use plain_data::Memory;
use std::alloc::Global;
use sym_term::TermMaker;
use term_sums::constant_term;
use term_text::Item;
use term_tree::Term;

/// An item in which two states differ.
#[derive(Drop)]
pub enum SymDifference {
    /// An item of which the states have different terms.
    Differ {
        /// The item.
        item: Item,
        /// The first state's term.
        left: Term,
        /// The second state's term.
        right: Term,
    },
    /// A need of the second state that the first has not.
    Lacks {
        /// The need's register, address, divisor or symbol.
        term: Term,
    },
}

/// What the comparison of an item gives: nothing where it agrees.
pub type Found = Option<SymDifference>;

/// What stands for a term that there is not.
pub fn nothing(alloc: Global) -> Term
    ensures { tree_of result ≡ nothing_spec }
{
    constant_term(alloc, Width::W8, 0)
}

/// A term that may be missing.
pub fn copy_of(alloc: Global, value: &Option<Term>) -> Result<Option<Term>, Memory>
    ensures { IfOk result (λ copy. option_map tree_of copy ≡ option_map tree_of value.now) }
{
    match value {
        None => Ok(None),
        Some(term) => Ok(Some(term.copy(alloc)?)),
    }
}

/// A term that may be missing, as it is shown.
pub fn shown(alloc: Global, value: &Option<Term>) -> Result<Term, Memory>
    ensures { IfOk result (λ term. tree_of term ≡ spec.shown (option_map tree_of value.now)) }
{
    match value {
        None => Ok(nothing(alloc)),
        Some(term) => term.copy(alloc),
    }
}

/// Whether two terms are the same.
pub fn same_terms(maker: &mut TermMaker, a: &Term, b: &Term) -> Result<bool, Memory>
    ensures { IfOk result (λ same. same ≡ terms.same_tree (tree_of a.now) (tree_of b.now)) }
{
    maker.same(a, b)
}

/// An item with its terms on both sides.
pub fn differ(alloc: Global, item: Item, left: &Term, right: &Term) -> Result<Found, Memory>
    ensures { IfOk result (λ found. option_map difference_of found ≡
        Some (spec.Differ item (tree_of left.now) (tree_of right.now))) }
{
    Ok(Some(SymDifference::Differ {
        item,
        left: left.copy(alloc)?,
        right: right.copy(alloc)?,
    }))
}

/// Two terms of an item.
pub fn compared_terms(
    maker: &mut TermMaker,
    alloc: Global,
    item: Item,
    a: &Term,
    b: &Term,
) -> Result<Found, Memory>
    ensures { IfOk result (λ found. option_map difference_of found ≡
        compared.compared_terms item (tree_of a.now) (tree_of b.now)) }
{
    if same_terms(maker, a, b)? {
        Ok(None)
    } else {
        differ(alloc, item, a, b)
    }
}
