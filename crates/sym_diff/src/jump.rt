//! Where the states lead.
ghost use Rattle.std.specs.Prelude.{◌≡◌, option_map, IfOk};
ghost use Rattle.term_tree.specs.View.{tree_of};
ghost use Rattle.sym_state.specs.Views.{jump_of};
ghost use Rattle.sym_diff.specs.Compared as spec;
ghost use Rattle.sym_diff.specs.Views.{difference_of};

use crate::difference::{Found, compared_terms, nothing};
use bits64::Width;
use plain_data::Memory;
use std::alloc::Global;
use sym_state::SymJump;
use sym_term::TermMaker;
use term_sums::constant_term;
use term_text::Item;
use term_tree::Term;

/// A label's uid as it is shown.
fn target_term(alloc: Global, target: Option<u32>) -> Term
    ensures { tree_of result ≡ spec.target_term target }
{
    match target {
        None => nothing(alloc),
        Some(uid) => constant_term(alloc, Width::W64, u64::from(uid)),
    }
}

/// The conditions where they differ, else the labels' uids.
pub fn compared_jump(
    maker: &mut TermMaker,
    alloc: Global,
    a: &SymJump,
    b: &SymJump,
) -> Result<Found, Memory>
    ensures { IfOk result (λ found. option_map difference_of found ≡
        spec.compared_jump (jump_of a.now) (jump_of b.now)) }
{
    match compared_terms(maker, alloc, Item::Jump, &a.condition, &b.condition)? {
        Some(found) => Ok(Some(found)),
        None => compared_terms(
            maker,
            alloc,
            Item::Jump,
            &target_term(alloc, a.target),
            &target_term(alloc, b.target),
        ),
    }
}
