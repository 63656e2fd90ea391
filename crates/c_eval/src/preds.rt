//! The predicates of a description.
ghost use Rattle.std.specs.Prelude.{◌≡◌, ℕ, Bool, List};
ghost use Rattle.rtx_tree.specs.declared.tree.Rtx.{Rtx};
ghost use Rattle.rtx_tree.specs.declared.code.Mode.{Mode};

use rtx_tree::{Mode, Name, Rtx};

/// Says which trees the predicates of a description accept.
pub trait Preds {
    /// Whether a predicate, by its name, accepts a tree in a mode.
    ghost accepts: { Self → List ℕ → Rtx → Mode → Bool };

    /// Whether the predicate with this name accepts the tree in the mode.
    fn holds(&self, name: &Name, x: &Rtx, mode: Mode) -> bool
        ensures { result ≡ accepts self.now name.now x.now mode };
}

/// No predicates: where a predicate tests an operand, none may be called.
pub struct NoPreds;

impl Preds for NoPreds {
    ghost use Rattle.std.specs.Prelude.{false};

    ghost accepts = { λ preds name x mode. false };

    fn holds(&self, _name: &Name, _x: &Rtx, _mode: Mode) -> bool {
        false
    }
}
