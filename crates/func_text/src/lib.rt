//! The functions of an input as text, by a description: their assembly, the forms of their
//! instructions, what they are behind a pass, or the first refusal.
//!
//! Each call reads the bytes as functions, but [`compile`] and [`assembled`], which are handed
//! functions. Each checks them (`func_input`), and looks at one after the other, as the passes make
//! it (`func_after`). [`assembly_of`] gives the text of their assembly: for each function its frame
//! of lines with the filled template of the first form that counts for each instruction
//! (`specs/Compile.antt`, `Assembly.antt`, over `asm_out`). Laws over these definitions say that the
//! lines are as `specs/Lines.antt` tells them, that each part of the text spells the lines and
//! labels that stand beside it, and that these do what the functions do (`Same.antt`). [`compile`]
//! appends that text for functions to an output, which after a refusal is as it was, and gives a
//! [`Summary`]: what was compiled, in numbers (`specs/Summary.antt`). [`assembled`] gives an
//! assembly with the lines and labels of its parts, and [`code_of`] one function of an input with
//! the lines and labels that its part of the assembly spells (`specs/Code.antt`).
//!
//! [`recog_of`] tells of each instruction as it comes to output the first form of a description
//! that counts there: a line has the function, the uid, the form and the lowest enabled alternative
//! that fits (`specs/Recog.antt`), and the first without one refuses the text, by its name.
//! [`cycles_of`] tells of each instruction that a pipeline's order put in its place the cycle in which
//! it begins there, function by function in the new order (`specs/Cycles.antt`). [`dump_of`] takes
//! each function through the passes up to the one that is named, and prints it in the form that is
//! read (`specs/Dump.antt`); what later passes would refuse is not met.
#![tactic(auto)]

mod assembly;
mod code;
mod cycles;
mod dump;
mod input;
mod lines;
mod recog;
mod summary;

pub use assembly::{Assembly, CodeItems, Parts};
pub use code::{Coded, code_of};
pub use cycles::cycles_of;
pub use dump::dump_of;
pub use input::{assembled, assembly_of, compile};
pub use recog::recog_of;
pub use summary::Summary;
