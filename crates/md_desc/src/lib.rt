//! One machine description: its forms, with the tables of its predicates, constraints and
//! attributes.
//!
//! [`describe`] makes a [`Description`] of a description's trees. Contracts see its forms;
//! everything else that it keeps is made of them. [`Description::recog`] gives the first form that
//! matches an instruction, [`Description::recog_out`] the first that counts at output, with the
//! lowest enabled alternative that fits, or `None` exactly where there is none such
//! (`specs/Recog.antt`). [`Description::fits`] and [`Description::enabled`] take no memory.
#![tactic(auto)]

mod description;
mod output;
mod trees;

pub use description::Description;
pub use md_recog::FormMatch;
pub use output::Chosen;
pub use tree_forms::DescRefusal;
pub use trees::describe;
