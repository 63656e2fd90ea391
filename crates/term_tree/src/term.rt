//! Terms.
ghost use Rattle.std.specs.Prelude.{◌≡◌, IfOk};
ghost use Rattle.term_tree.specs.Tree.{Tree, Sum, no_atoms, width_of};
ghost use Rattle.term_tree.specs.View.{tree_of};

use crate::head::Head;
use bits64::Width;
use plain_data::{Items, Memory};
use rtx_tree::Name;
use std::alloc::Global;

/// The atoms of a sum, in order.
pub type Atoms = Items<Atom>;

/// The parts of a node, in order.
pub type Terms = Items<Term>;

/// A term: a sum of a constant and atoms, or an operator over parts.
#[derive(Drop)]
#[cycle(term)]
pub enum Term {
    Sum {
        width: Width,
        constant: u64,
        atoms: Items<Atom>,
    },
    Node {
        head: Head,
        width: Width,
        number: u64,
        name: Name,
        parts: Items<Term>,
    },
}

/// A coefficient and a term.
#[derive(Drop)]
#[cycle(term)]
pub struct Atom {
    pub coefficient: u64,
    pub term: Term,
}

impl Term {
    /// A copy of the term.
    #[cycle(copy)]
    pub fn copy(&self, alloc: Global) -> Result<Term, Memory>
        ensures { IfOk result (λ term. term ≡ self.now) }
    {
        match self {
            Term::Sum {
                width,
                constant,
                atoms,
            } => Ok(Term::Sum {
                width: *width,
                constant: *constant,
                atoms: copy_atoms(alloc, atoms)?,
            }),
            Term::Node {
                head,
                width,
                number,
                name,
                parts,
            } => Ok(Term::Node {
                head: *head,
                width: *width,
                number: *number,
                name: name.copy(alloc)?,
                parts: copy_parts(alloc, parts)?,
            }),
        }
    }
}

#[cycle(copy)]
fn copy_atoms(alloc: Global, atoms: &Items<Atom>) -> Result<Items<Atom>, Memory>
    ensures { IfOk result (λ copies. copies ≡ atoms.now) }
{
    let mut copies = Items::new(alloc);
    for atom in atoms.as_slice() {
        copies.push(Atom {
            coefficient: atom.coefficient,
            term: atom.term.copy(alloc)?,
        })?;
    }
    Ok(copies)
}

#[cycle(copy)]
fn copy_parts(alloc: Global, parts: &Items<Term>) -> Result<Items<Term>, Memory>
    ensures { IfOk result (λ copies. copies ≡ parts.now) }
{
    let mut copies = Items::new(alloc);
    for part in parts.as_slice() {
        copies.push(part.copy(alloc)?)?;
    }
    Ok(copies)
}
