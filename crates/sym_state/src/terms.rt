//! Terms that stand for what was there at first.
ghost use Rattle.std.specs.Prelude.{◌≡◌, IfOk};
ghost use Rattle.term_tree.specs.View.{tree_of};
ghost use Rattle.sym_state.specs.State as spec;

use bits64::Width;
use plain_data::{Items, Memory};
use rtx_tree::Name;
use std::alloc::Global;
use term_tree::{Head, Term};

/// What a register held, in 64 bits.
pub fn own_register(alloc: Global, reg: u64) -> Term
    ensures { tree_of result ≡ spec.own_register reg }
{
    Term::Node {
        head: Head::Reg,
        width: Width::W64,
        number: reg,
        name: Name::empty(alloc),
        parts: Items::new(alloc),
    }
}

/// The address of a symbol.
pub fn own_symbol(alloc: Global, name: &Name) -> Result<Term, Memory>
    ensures { IfOk result (λ term. tree_of term ≡ spec.own_symbol name.now) }
{
    Ok(Term::Node {
        head: Head::Sym,
        width: Width::W64,
        number: 0,
        name: name.copy(alloc)?,
        parts: Items::new(alloc),
    })
}
