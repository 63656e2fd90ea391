//! The term that a tree writes.
use bits64::{Opaque, Width, trunc};
use lisp_read::{Tree, atom, items};
use plain_data::Items;
use rtx_tree::{Name, reg_number};
use std::alloc::Global;
use term_tree::{Atom, Head, Term};
use text_words::number_in;

/// The operators by their names, but for those of which nothing is known but their numbers.
const HEADS: [(&str, Head); 15] = [
    ("sym", Head::Sym),
    ("mul", Head::Mul),
    ("and", Head::And),
    ("ior", Head::Ior),
    ("xor", Head::Xor),
    ("shl", Head::Shl),
    ("shr", Head::Shr),
    ("sar", Head::Sar),
    ("trunc", Head::Trunc),
    ("zext", Head::Zext),
    ("sext", Head::Sext),
    ("lt", Head::Lt),
    ("ltu", Head::Ltu),
    ("eq", Head::Eq),
    ("load", Head::Load),
];

/// The name of an operator and the width behind it.
fn name_and_width(word: &[u8]) -> (&[u8], Width) {
    match word {
        [name @ .., b'8'] => (name, Width::W8),
        [name @ .., b'1', b'6'] => (name, Width::W16),
        [name @ .., b'3', b'2'] => (name, Width::W32),
        [name @ .., b'6', b'4'] => (name, Width::W64),
        _ => (word, Width::W64),
    }
}

/// The text of an atom, and of another tree the empty one.
fn word_of(tree: &Tree) -> &[u8] {
    match atom(tree) {
        Some(word) => word.bytes(),
        None => b"",
    }
}

fn number_of(tree: &Tree) -> Option<u64> {
    match number_in(word_of(tree)) {
        Some(number) => Some(number.cast_unsigned()),
        None => None,
    }
}

/// The register of a word, as `a0` or `<1>`.
pub fn register(word: &[u8]) -> Option<u64> {
    if let [b'<', digits @ .., b'>'] = word {
        return match number_in(digits) {
            Some(number) => Some(number.cast_unsigned().wrapping_add(64)),
            None => None,
        };
    }
    match reg_number(word) {
        Some(number) => Some(u64::from(number)),
        None => None,
    }
}

/// A sum: a constant, and lists of a coefficient and a term.
#[cycle(term)]
fn sum(alloc: Global, width: Width, parts: &[Tree]) -> Option<Term> {
    let [constant, rest @ ..] = parts else {
        return None;
    };
    let mut atoms = Items::new(alloc);
    for part in rest {
        let [coefficient, term] = items(part) else {
            return None;
        };
        let Some(term) = term_of(alloc, term) else {
            return None;
        };
        if !push_atom(width, coefficient, term, &mut atoms) {
            return None;
        }
    }
    let Some(constant) = number_of(constant) else {
        return None;
    };
    Some(Term::Sum {
        width,
        constant: trunc(constant, width),
        atoms,
    })
}

/// Appends a term with the coefficient that a tree writes. Whether it writes one.
fn push_atom(width: Width, coefficient: &Tree, term: Term, atoms: &mut Items<Atom>) -> bool {
    match number_of(coefficient) {
        Some(coefficient) => {
            let coefficient = trunc(coefficient, width);
            atoms.push(Atom { coefficient, term }).is_ok()
        }
        None => false,
    }
}

/// A number and a name of an operator's own.
#[derive(Drop)]
struct Own {
    number: u64,
    name: Name,
}

/// Whether a tree is a part of an operator, and no number or name of its own.
fn is_part(tree: &Tree) -> bool {
    let word = word_of(tree);
    word.is_empty() || number_in(word).is_none() && register(word).is_some()
}

/// Keeps a number or a name.
fn put_own(alloc: Global, word: &[u8], own: &mut Own) -> bool {
    if let Some(number) = number_in(word) {
        own.number = number.cast_unsigned();
        return true;
    }
    match Name::of(alloc, word) {
        Ok(name) => {
            own.name = name;
            true
        }
        Err(_) => false,
    }
}

/// An operator over parts; a number or a name among them is its own.
#[cycle(term)]
fn node(alloc: Global, head: Head, width: Width, trees: &[Tree]) -> Option<Term> {
    let mut own = Own {
        number: 0,
        name: Name::empty(alloc),
    };
    let mut parts = Items::new(alloc);
    for tree in trees {
        if is_part(tree) {
            let Some(term) = term_of(alloc, tree) else {
                return None;
            };
            if parts.push(term).is_err() {
                return None;
            }
        } else if !put_own(alloc, word_of(tree), &mut own) {
            return None;
        }
    }
    let Own { number, name } = own;
    Some(Term::Node {
        head,
        width,
        number,
        name,
        parts,
    })
}

/// The operator of a name.
fn head_of(name: &[u8]) -> Option<Head> {
    for (known, head) in HEADS {
        if known.as_bytes() == name {
            return Some(head);
        }
    }
    for opaque in Opaque::all() {
        if opaque.name().as_bytes() == name {
            return Some(Head::Opaque(*opaque));
        }
    }
    None
}

/// The term of a tree: `a0`, or an operator with its width and its parts, as `(sum64 5 (1 a0) (-1
/// a1))`.
#[cycle(term)]
pub fn term_of(alloc: Global, tree: &Tree) -> Option<Term> {
    let [head, parts @ ..] = items(tree) else {
        return match register(word_of(tree)) {
            Some(number) => Some(register_term(alloc, number)),
            None => None,
        };
    };
    let (name, width) = name_and_width(word_of(head));
    if name == b"sum".as_slice() {
        return sum(alloc, width, parts);
    }
    match head_of(name) {
        Some(head) => node(alloc, head, width, parts),
        None => None,
    }
}

/// A register.
pub fn register_term(alloc: Global, number: u64) -> Term {
    Term::Node {
        head: Head::Reg,
        width: Width::W64,
        number,
        name: Name::empty(alloc),
        parts: Items::new(alloc),
    }
}
