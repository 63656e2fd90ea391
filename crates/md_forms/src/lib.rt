//! Reads the forms of a machine description, and sets those aside that are outside.
//!
//! [`forms_of`] gives each expanded form in order with its head, its name, and either its parsed
//! parts, a [`Form`], or the smallest [`Reason`] that applies to it. What a form's own text says is
//! read by `md_draft`; which predicates, constraints and attributes hold is said in `md_tables`,
//! what else is asked of a form in `specs/Checks.antt`. [`names_of`] gives the names under which
//! they are shown, and [`shown_name`] any name on one line.
#![tactic(auto)]

mod checks;
mod form;
mod forms;
mod names;
mod one_line;
mod operands;
mod shown;

pub use checks::alternatives;
pub use form::{Entry, Form, Forms, OperandConstraint};
pub use forms::forms_of;
pub use md_tables::{
    Attribute, FormHead, Judged, Reason, RegisterClass, copied_names, defines_attribute,
    defines_constraint, defines_predicate,
};
pub use one_line::shown_name;
pub use shown::names_of;
