//! What the forms of a description define for one another: predicates, constraints and attributes.
//!
//! [`tables_of`] gives, of forms that are read by their own text (`md_draft`), which predicates,
//! constraints and attributes they define, and which of these are accepted (`specs/Tables.antt`).
//! Of a name that is defined twice the first definition counts. A predicate is accepted where it
//! names accepted ones alone, within as many rounds as there are forms (`specs/Predicates.antt`),
//! so none that reaches itself is; the rounds are found by one walk. What is defined is found by
//! its name at once (`name_places`).
#![tactic(auto)]

mod names;
mod predicates;
mod tables;
mod walk;

pub use c_cond::{Cond, CondHead, Prep};
pub use md_draft::{
    Attribute, Defined, Draft, DraftEntry, FormHead, Matched, Output, Printed, RegisterClass,
    Replacement, entry_of,
};
pub use md_pattern::{Judged, OperandText, Patterns, Reason};
pub use md_text::{Alternative, Constraint, ConstraintNames, Member, Template, constraint_of};
pub use names::predicates_named;
pub use pred_expr::Test;
pub use predicates::all_known;
pub use tables::{
    AttributeDraft, ConstraintDraft, PredicateDraft, Tables, copied_names, defines_attribute,
    defines_constraint, defines_predicate, is_among, is_constraint, tables_of,
};
