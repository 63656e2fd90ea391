//! The graph of a function's chain, and whether a function is well formed.
//!
//! [`successors`] are the places to which an instruction leads, [`successors_by`] those by the
//! places of labels that [`labels_of`] gives; [`blocks`] are the basic blocks, which cover the
//! chain; and [`reaches_exit`] says whether a path of successors leads from the first place to the
//! exit, the place past the last. The search for it is linear but for the look-up of labels, which
//! a map keeps. [`check`] tells the first place at which a function breaks one of ten rules: the
//! lowest uid, and there the lowest rule. [`check_behind`] does so with the names of the functions
//! in front known, and is nearly linear in the function. The rules' tests of a pattern stand alone
//! too, those on calls, parallels and the modes of a call's memory each in its parts. Each call
//! gives exactly what its definition in `specs/` gives, unless memory runs out: paths, and each
//! rule as a test of an instruction. `check` takes any trees, also those that no text stands for.
#![tactic(auto)]

mod block_list;
mod calls;
mod check_rules;
mod edges;
mod effects;
mod fault;
mod flow;
mod kinds;
mod labels;
mod names;
mod nodes;
mod paths;
mod rules;
mod shape;
mod tables;
mod trees;
mod uids;

pub use block_list::{Block, blocks, is_jump};
pub use calls::{call_result_agrees, call_target_agrees};
pub use check_rules::{CheckRefusal, check, check_behind};
pub use edges::{successors, successors_by};
pub use effects::parallels_change_once;
pub use flow::Successors;
pub use labels::{Labels, labels_of};
pub use names::Names;
pub use paths::reaches_exit;
pub use shape::{class_at, has_mode, is_called, is_constant, is_place};
pub use trees::{
    argument_registers, call_modes_agree, kinds_agree, parallels_hold_simple, shapes_agree,
};
