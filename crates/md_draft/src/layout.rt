//! Where the parts of forms stand.
ghost use Rattle.std.specs.Prelude.{◌≡◌, option_and_then, slice_get};
ghost use Rattle.std.specs.Option.{option_copied};
ghost use Rattle.md_draft.specs.Layout as spec;

use crate::head::FormHead;
use lisp_read::{Tree, string};

/// How many trees a form has, its head among them, and at which place of them each part stands that
/// there may be.
#[derive(Clone, Copy)]
pub struct Layout {
    pub least: usize,
    pub most: usize,
    pub name: Option<usize>,
    pub documentation: Option<usize>,
    pub patterns: Option<usize>,
    pub condition: Option<usize>,
    pub output: Option<usize>,
    pub split_condition: Option<usize>,
    pub sequence: Option<usize>,
    pub statements: Option<usize>,
    pub attributes: Option<usize>,
    pub test: Option<usize>,
    pub class: Option<usize>,
    pub values: Option<usize>,
    pub default: Option<usize>,
}

const NO_PARTS: Layout = Layout {
    least: 1,
    most: 0,
    name: None,
    documentation: None,
    patterns: None,
    condition: None,
    output: None,
    split_condition: None,
    sequence: None,
    statements: None,
    attributes: None,
    test: None,
    class: None,
    values: None,
    default: None,
};

const INSN: Layout = Layout {
    least: 5,
    most: 6,
    name: Some(1),
    patterns: Some(2),
    condition: Some(3),
    output: Some(4),
    attributes: Some(5),
    ..NO_PARTS
};

const EXPAND: Layout = Layout {
    least: 4,
    most: 6,
    name: Some(1),
    patterns: Some(2),
    condition: Some(3),
    statements: Some(4),
    attributes: Some(5),
    ..NO_PARTS
};

const REWRITING: Layout = Layout {
    least: 4,
    most: 5,
    patterns: Some(1),
    condition: Some(2),
    sequence: Some(3),
    statements: Some(4),
    ..NO_PARTS
};

const INSN_AND_SPLIT: Layout = Layout {
    least: 7,
    most: 9,
    name: Some(1),
    patterns: Some(2),
    condition: Some(3),
    output: Some(4),
    split_condition: Some(5),
    sequence: Some(6),
    statements: Some(7),
    attributes: Some(8),
    ..NO_PARTS
};

const PREDICATE: Layout = Layout {
    least: 3,
    most: 3,
    name: Some(1),
    test: Some(2),
    ..NO_PARTS
};

const CONSTRAINT: Layout = Layout {
    least: 4,
    most: 4,
    name: Some(1),
    documentation: Some(2),
    test: Some(3),
    ..NO_PARTS
};

const REGISTERS: Layout = Layout {
    least: 4,
    most: 4,
    name: Some(1),
    documentation: Some(3),
    class: Some(2),
    ..NO_PARTS
};

const ATTR: Layout = Layout {
    least: 4,
    most: 4,
    name: Some(1),
    values: Some(2),
    default: Some(3),
    ..NO_PARTS
};

/// The layout of each head, in the order of the heads.
static LAYOUTS: [Layout; 19] = [
    INSN,
    EXPAND,
    REWRITING,
    INSN_AND_SPLIT,
    REWRITING,
    PREDICATE,
    PREDICATE,
    CONSTRAINT,
    REGISTERS,
    CONSTRAINT,
    ATTR,
    NO_PARTS,
    NO_PARTS,
    NO_PARTS,
    NO_PARTS,
    NO_PARTS,
    NO_PARTS,
    NO_PARTS,
    NO_PARTS,
];

/// Where the parts of a form with this head stand.
pub fn layout_of(head: FormHead) -> Layout
    ensures { result ≡ spec.layout_of head }
{
    LAYOUTS[head as usize]
}

/// The tree at a place, if there is one.
pub fn part_at(items: &[Tree], place: Option<usize>) -> Option<&Tree>
    ensures { option_copied result ≡ spec.part_at items.entry.now place }
{
    match place {
        Some(at) => items.get(at),
        None => None,
    }
}

/// Whether there is a string at a place, or nothing has to stand there.
fn has_string(items: &[Tree], place: Option<usize>) -> bool
    ensures { result ≡ spec.has_string items.now place }
{
    match part_at(items, place) {
        Some(tree) => string(tree).is_some(),
        None => true,
    }
}

/// Whether a form has as many trees as its head takes, and strings for its name and its
/// documentation.
pub fn is_whole(layout: &Layout, items: &[Tree]) -> bool
    ensures { result ≡ spec.is_whole layout.now items.now }
{
    layout.least <= items.len()
        && items.len() <= layout.most
        && has_string(items, layout.name)
        && has_string(items, layout.documentation)
}
