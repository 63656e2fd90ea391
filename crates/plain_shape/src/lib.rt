//! The plain profile: the instructions of which the shipped description is to make lines, whatever
//! their operands.
//!
//! [`all_shapes`] are the 81 shapes of such instructions (`specs/Shapes.antt`), and [`has_shape`]
//! says which patterns have one (`specs/Plain.antt`). [`first_outside`] tells the first instruction
//! of a function that has none. Each call gives what its definition gives, and takes no memory. That
//! each function without such an instruction comes to lines is not proved.
#![tactic(auto)]

mod parts;
mod plain;
mod shape;
mod table;

pub use plain::{first_outside, has_shape, is_plain};
pub use shape::{Part, Shape, Source};
pub use table::all_shapes;
