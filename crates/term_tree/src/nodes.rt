//! Whether a term has no more nodes and levels than it may.
ghost use Rattle.std.specs.Prelude.{◌≡◌, ◌+◌, ◌≤◌, map};
ghost use Rattle.term_tree.specs.Tree.{trees_of, atoms_of, trees_size, atoms_size, tree_size};
ghost use Rattle.rtx_tree.specs.Limit.{most_nodes};
ghost use Rattle.term_tree.specs.Small as spec;
ghost use Rattle.term_tree.specs.View.{tree_of, atom_of};
ghost use Rattle.term_tree.specs.machine.Counted.{counted};

use crate::term::{Atom, Term};
use rtx_tree::{MOST_LEVELS, MOST_NODES};

/// Whether a term has at most 1,048,576 nodes on at most 2,000 levels. The walk stops where it
/// meets more.
#[tactic(auto, using(crate::proofs::CountLaws::counts))]
pub fn is_small(term: &Term) -> bool
    ensures { result ≡ spec.is_small (tree_of term.now) }
{
    count(term, 0, MOST_LEVELS) <= MOST_NODES
}

/// The number of nodes after so many others, or one more than the limit where there are more of
/// them or more than so many levels.
#[cycle(count)]
fn count(term: &Term, before: u64, levels: u64) -> u64
    requires { before ≤ most_nodes + 1 }
    ensures { result ≡ counted before (tree_size (tree_of term.now))
        (spec.tree_levels (tree_of term.now)) levels }
{
    if before > MOST_NODES || levels == 0 {
        return MOST_NODES + 1;
    }
    match term {
        Term::Sum { atoms, .. } => count_atoms(atoms.as_slice(), before + 1, levels - 1),
        Term::Node { parts, .. } => count_parts(parts.as_slice(), before + 1, levels - 1),
    }
}

#[cycle(count)]
fn count_atoms(atoms: &[Atom], before: u64, levels: u64) -> u64
    requires { before ≤ most_nodes + 1 }
    ensures { result ≡ counted before (atoms_size (atoms_of (map atom_of atoms.now)))
        (spec.atoms_levels (atoms_of (map atom_of atoms.now))) levels }
{
    let mut so_far = before;
    for atom in atoms {
        so_far = count(&atom.term, so_far, levels);
        if so_far > MOST_NODES {
            return so_far;
        }
    }
    so_far
}

#[cycle(count)]
fn count_parts(parts: &[Term], before: u64, levels: u64) -> u64
    requires { before ≤ most_nodes + 1 }
    ensures { result ≡ counted before (trees_size (trees_of (map tree_of parts.now)))
        (spec.trees_levels (trees_of (map tree_of parts.now))) levels }
{
    let mut so_far = before;
    for part in parts {
        so_far = count(part, so_far, levels);
        if so_far > MOST_NODES {
            return so_far;
        }
    }
    so_far
}
