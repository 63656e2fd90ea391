//! What the instructions of a function are written by.
use md_desc::Description;
use reg_rows::RegRow;
use rtl_func::Labels;
use rtx_tree::Function;
use std::alloc::Global;

/// A description, a function with its number in the assembly, the places of its labels, and the
/// registers that are live in it.
#[derive(Drop)]
pub(crate) struct Setting<'a> {
    /// Where lists are made.
    pub alloc: Global,
    /// The description.
    pub description: &'a Description,
    /// How many functions stand before it.
    pub number: u32,
    /// The function.
    pub function: &'a Function,
    /// Where its labels stand.
    pub labels: &'a Labels,
    /// The registers that are live before each place and before the end.
    pub rows: &'a [RegRow],
}
