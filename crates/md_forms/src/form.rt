//! Forms as what they say.
use lisp_read::Tree;
use md_tables::{
    Attribute, Cond, Constraint, FormHead, Judged, Prep, RegisterClass, Template, Test,
};
use plain_data::Items;
use rtx_tree::{Kids, Name};

/// The constraint of an operand.
#[derive(Drop)]
pub struct OperandConstraint {
    /// The operand's number.
    pub operand: u32,
    /// The alternatives; none at all where any operand will do.
    pub constraint: Constraint,
}

/// What an accepted form says. What its head doesn't have is empty.
#[derive(Drop)]
pub struct Form {
    /// The head of the form.
    pub head: FormHead,
    /// The instructions that it matches, or, for an expander, those that it makes. Several elements
    /// of one instruction are a `parallel`.
    pub patterns: Kids,
    /// The condition under which the form holds. The empty condition is true.
    pub condition: Cond,
    /// When the split half of an instruction and its split holds.
    pub split_condition: Cond,
    /// The preparation statements. The empty ones do nothing.
    pub statements: Prep,
    /// The instructions that it makes in place of the patterns.
    pub sequence: Kids,
    /// The constraints of its operands, in the order of the text.
    pub constraints: Items<OperandConstraint>,
    /// What the form gives attributes, in the order of the text. Of one attribute the first counts.
    pub attributes: Items<Attribute>,
    /// How the form is printed. The empty output has no lines.
    pub template: Template,
    /// The test of a predicate, or of a constraint.
    pub test: Option<Test>,
    /// The class of a register constraint.
    pub class: Option<RegisterClass>,
    /// The values of an attribute.
    pub values: Items<Name>,
    /// The default of an attribute.
    pub default: Name,
}

/// One expanded form.
#[derive(Drop)]
pub struct Entry {
    /// The text of its head, or `-` where it has none.
    pub head: Name,
    /// The form's name, where it has one.
    pub name: Option<Name>,
    /// What the form says, or why it is set aside.
    pub form: Judged<Form>,
    /// The form itself, where it is one of those that describe a pipeline.
    pub timing: Option<Tree>,
}

/// The expanded forms, in order.
pub type Forms = Items<Entry>;
