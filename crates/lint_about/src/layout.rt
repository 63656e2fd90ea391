//! Where the parts of a form stand that a reason may be about.
ghost use Rattle.std.specs.Prelude.{◌≡◌};
ghost use Rattle.std.specs.Option.{option_copied};
ghost use Rattle.md_draft.specs.Reasons.{head_of};
ghost use Rattle.lint_about.specs.Parts as spec;

use lisp_read::{Tree, atom, items};
use md_draft::FormHead;

/// The places of parts among the trees of a form, its head among them, where there may be such
/// parts.
#[derive(Clone, Copy)]
pub struct Parts {
    /// The patterns.
    pub patterns: Option<usize>,
    /// The condition.
    pub condition: Option<usize>,
    /// The output.
    pub output: Option<usize>,
    /// The condition of a split.
    pub split_condition: Option<usize>,
    /// The new sequence.
    pub sequence: Option<usize>,
    /// The preparation statements.
    pub statements: Option<usize>,
    /// The attributes.
    pub attributes: Option<usize>,
    /// The test of what is defined.
    pub test: Option<usize>,
    /// The test, class or default of what is defined.
    pub definition: Option<usize>,
}

const NONE: Parts = Parts {
    patterns: None,
    condition: None,
    output: None,
    split_condition: None,
    sequence: None,
    statements: None,
    attributes: None,
    test: None,
    definition: None,
};

const INSN: Parts = Parts {
    patterns: Some(2),
    condition: Some(3),
    output: Some(4),
    attributes: Some(5),
    ..NONE
};

const EXPAND: Parts = Parts {
    patterns: Some(2),
    condition: Some(3),
    statements: Some(4),
    attributes: Some(5),
    ..NONE
};

const REWRITING: Parts = Parts {
    patterns: Some(1),
    condition: Some(2),
    sequence: Some(3),
    statements: Some(4),
    ..NONE
};

const INSN_AND_SPLIT: Parts = Parts {
    patterns: Some(2),
    condition: Some(3),
    output: Some(4),
    split_condition: Some(5),
    sequence: Some(6),
    statements: Some(7),
    attributes: Some(8),
    ..NONE
};

const PREDICATE: Parts = Parts {
    test: Some(2),
    definition: Some(2),
    ..NONE
};

const CONSTRAINT: Parts = Parts {
    test: Some(3),
    definition: Some(3),
    ..NONE
};

const REGISTERS: Parts = Parts {
    definition: Some(2),
    ..NONE
};

const ATTR: Parts = Parts {
    definition: Some(3),
    ..NONE
};

/// Where the parts of a form with a head stand.
fn parts_by(head: Option<FormHead>) -> Parts
    ensures { result ≡ spec.parts_by head }
{
    match head {
        Some(FormHead::Insn) => INSN,
        Some(FormHead::Expand) => EXPAND,
        Some(FormHead::Split | FormHead::Peephole2) => REWRITING,
        Some(FormHead::InsnAndSplit) => INSN_AND_SPLIT,
        Some(FormHead::Predicate | FormHead::SpecialPredicate) => PREDICATE,
        Some(FormHead::Constraint | FormHead::MemoryConstraint) => CONSTRAINT,
        Some(FormHead::RegisterConstraint) => REGISTERS,
        Some(FormHead::Attr) => ATTR,
        _ => NONE,
    }
}

/// The head of a form, if it is one of those that are taken.
fn head_of(form: &Tree) -> Option<FormHead>
    ensures { result ≡ head_of form.now }
{
    match items(form) {
        [head, ..] => FormHead::named(atom(head)?.bytes()),
        [] => None,
    }
}

/// Where the parts of a form stand.
#[tactic(auto, unfolding(crate::specs::Parts::parts_of))]
pub fn parts_of(form: &Tree) -> Parts
    ensures { result ≡ spec.parts_of form.now }
{
    parts_by(head_of(form))
}

/// The part of a form at a place, if there is one.
pub fn part_at(form: &Tree, place: Option<usize>) -> Option<&Tree>
    ensures { option_copied result ≡ spec.part_at form.now place }
{
    items(form).get(place?)
}
