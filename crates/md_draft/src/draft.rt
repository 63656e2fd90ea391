//! A form as far as its own text tells.
use crate::head::{FormHead, RegisterClass};
use c_cond::{Cond, Prep};
use lisp_read::Tree;
use md_pattern::{Judged, Patterns};
use md_text::Template;
use plain_data::Items;
use pred_expr::Test;
use rtx_tree::Name;

/// What a form gives an attribute: `(set_attr "NAME" "VALUES")`.
#[derive(Drop)]
pub struct Attribute {
    /// The attribute's name.
    pub name: Name,
    /// One value, or one for each alternative; `*` stands for the default.
    pub values: Items<Name>,
}

/// What a form has where its output stands.
#[derive(Drop)]
pub enum Output {
    /// Text for all alternatives, or a line for each.
    Template(Template),
    /// Text with a sequence that none of the output's is, or a block in the compact syntax that is
    /// none or doesn't fit its form.
    Outside,
}

/// What a form matches, and when.
#[derive(Drop)]
pub struct Matched {
    /// The instructions that it matches, or, for an expander, those that it makes, with the
    /// constraints in their text.
    pub patterns: Patterns,
    /// The condition under which the form holds. The empty condition is true.
    pub condition: Cond,
}

/// What a form puts in the place of what it matches.
#[derive(Drop)]
pub struct Replacement {
    /// When the split half of an instruction and its split holds.
    pub split_condition: Cond,
    /// The instructions that it makes in place of the patterns.
    pub sequence: Patterns,
    /// The preparation statements. The empty ones do nothing.
    pub statements: Prep,
}

/// How a form is printed, and what it gives attributes.
#[derive(Drop)]
pub struct Printed {
    /// The form's output.
    pub output: Output,
    /// What the form gives attributes, in the order of the text.
    pub attributes: Items<Attribute>,
}

/// What a form defines for others.
#[derive(Drop)]
pub struct Defined {
    /// The test of a predicate, or of a constraint.
    pub test: Option<Test>,
    /// The class of a register constraint.
    pub class: Option<RegisterClass>,
    /// The values of an attribute.
    pub values: Items<Name>,
    /// The default of an attribute.
    pub default: Name,
}

/// What a form says, before its predicates, constraints, attributes and operands were looked at.
/// What its head doesn't have is empty.
#[derive(Drop)]
pub struct Draft {
    /// The head of the form.
    pub head: FormHead,
    /// What the form matches.
    pub matched: Matched,
    /// What the form makes.
    pub replacement: Replacement,
    /// How the form is printed.
    pub printed: Printed,
    /// What the form defines.
    pub defined: Defined,
}

/// A draft of one tree.
#[derive(Drop)]
pub struct DraftEntry {
    /// The text of its head, or `-` where it has none.
    pub head: Name,
    /// The form's name: its second part, where that is a string of one byte or more.
    pub name: Option<Name>,
    /// The form's draft, or the smallest reason that its own text gives.
    pub draft: Judged<Draft>,
    /// The form itself, where it is one of those that describe a pipeline.
    pub timing: Option<Tree>,
}
