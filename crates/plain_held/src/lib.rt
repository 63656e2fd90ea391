//! Whether a description has the plain forms.
//!
//! [`has_plain_forms`] says of a description whether its forms are the plain forms, each as what it
//! says and in their order (the list of `plain_forms`). The code has a table of its own, in which
//! patterns, conditions and statements stand as flat rows, each part behind those that it is made
//! of; that it stands for the plain forms is the contract of its call.
#![tactic(auto)]

mod entry;
mod form;
mod forms;
mod heads;
mod notation;
mod operands;
mod part;
mod row;
mod table;
mod template;
mod test;
mod trees;
mod words;

pub use forms::has_plain_forms;
