//! Texts, normal forms and comparisons.
use crate::term::{register_term, term_of};
use bits64::{Relation, Width};
use case_text::Told;
use lisp_read::Tree;
use plain_data::Items;
use std::alloc::Global;
use sym_term::{SymStore, SymStores, norm, relate};
use term_text::print_term;
use term_tree::{Measured, Term};
use text_cases::{tree_in, trees_in};

/// The comparisons by the names of their codes.
const RELATIONS: [(&str, Relation); 10] = [
    ("eq", Relation::Eq),
    ("ne", Relation::Ne),
    ("lt", Relation::Lt),
    ("gt", Relation::Gt),
    ("le", Relation::Le),
    ("ge", Relation::Ge),
    ("ltu", Relation::Ltu),
    ("gtu", Relation::Gtu),
    ("leu", Relation::Leu),
    ("geu", Relation::Geu),
];

/// Appends the text of a term.
pub fn show(alloc: Global, term: &Term, told: &mut Told) {
    match print_term(alloc, term) {
        Ok(text) => told.push(text.bytes()),
        Err(_) => told.fail(),
    }
}

/// The term that a text writes.
fn term_in(alloc: Global, text: &[u8]) -> Option<Term> {
    let Some(tree) = tree_in(alloc, text) else {
        return None;
    };
    term_of(alloc, &tree)
}

/// Appends the text of the term that a text writes.
pub fn tell_text(alloc: Global, input: &[u8], told: &mut Told) {
    match term_in(alloc, input) {
        Some(term) => show(alloc, &term, told),
        None => told.fail(),
    }
}

/// A store: an address and a value.
fn store_of(alloc: Global, pair: &[Tree]) -> Option<SymStore> {
    if let [address, value] = pair
        && let Some(address) = term_of(alloc, address)
        && let Some(value) = term_of(alloc, value)
    {
        Some(SymStore {
            address: Measured::of(address),
            value: Measured::of(value),
        })
    } else {
        None
    }
}

/// The stores of a text: an address and a value each.
fn stores_in(alloc: Global, text: &[u8]) -> Option<SymStores> {
    let Some(trees) = trees_in(alloc, text) else {
        return None;
    };
    let mut stores = Items::new(alloc);
    for pair in trees.as_slice().chunks(2) {
        let Some(store) = store_of(alloc, pair) else {
            return None;
        };
        if stores.push(store).is_err() {
            return None;
        }
    }
    Some(stores)
}

/// Appends a term, and where it isn't its own normal form.
fn show_normal(alloc: Global, term: &Term, stores: &SymStores, told: &mut Told) {
    let Ok(normal) = norm(alloc, term, stores) else {
        return told.fail();
    };
    let mut again = Told::new(alloc);
    show(alloc, &normal, &mut again);
    show(alloc, term, told);
    if again.out.as_slice() != told.out.as_slice() {
        told.text(" is not normal");
    }
    told.need(again.is_whole());
}

/// Appends the normal form of a term, with the stores that are given, and where it isn't its own
/// normal form.
pub fn tell_normal(alloc: Global, given: &[u8], input: &[u8], told: &mut Told) {
    if let Some(stores) = stores_in(alloc, given)
        && let Some(term) = term_in(alloc, input)
        && let Ok(normal) = norm(alloc, &term, &stores)
    {
        show_normal(alloc, &normal, &stores, told);
    } else {
        told.fail();
    }
}

/// The comparison of a name.
fn relation_of(wanted: &[u8]) -> Option<Relation> {
    for (name, relation) in RELATIONS {
        if name.as_bytes() == wanted {
            return Some(relation);
        }
    }
    None
}

/// Appends a comparison of a0 and a1 as a term.
pub fn tell_relation(alloc: Global, input: &[u8], told: &mut Told) {
    let a = register_term(alloc, 10);
    let b = register_term(alloc, 11);
    if let Some(relation) = relation_of(input)
        && let Ok(compared) = relate(alloc, relation, Width::W64, a, b)
    {
        show_normal(alloc, &compared, &Items::new(alloc), told);
    } else {
        told.fail();
    }
}
