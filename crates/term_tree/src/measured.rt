//! Terms that know whether they are small.
ghost use Rattle.std.specs.Prelude.{◌≡◌};
ghost use Rattle.term_tree.specs.Small.{is_small};
ghost use Rattle.term_tree.specs.View.{tree_of};

use crate::nodes::is_small;
use crate::term::Term;
use std::marker::Model;

/// A term that knows whether it has no more nodes and levels than it may: they are counted once.
/// Contracts see the term.
#[derive(Drop)]
pub struct Measured {
    term: Term,
    small: bool,
}

impl Model for Measured {
    ghost use Rattle.std.specs.Prelude.{◌≡◌};
    ghost use Rattle.term_tree.specs.declared.term.Term.{Term};
    ghost use Rattle.term_tree.specs.contracts.term.Term as term_type;
    ghost use Rattle.term_tree.specs.Small.{is_small};
    ghost use Rattle.term_tree.specs.View.{tree_of};

    ghost Value = { Term };

    ghost coded = { term_type.the_row.coded };

    ghost view = { λ m. m.term };

    ghost invariant = { λ m. m.small ≡ is_small (tree_of m.term) };
}

impl Measured {
    /// A term, whose nodes and levels are counted.
    pub fn of(term: Term) -> Measured
        ensures { result ≡ term }
    {
        let small = is_small(&term);
        Measured { term, small }
    }

    /// The term.
    pub fn term(&self) -> &Term
        ensures { result.now ≡ self.now }
    {
        &self.term
    }

    /// Whether the term is small.
    pub fn is_small(&self) -> bool
        ensures { result ≡ is_small (tree_of self.now) }
    {
        self.small
    }
}
