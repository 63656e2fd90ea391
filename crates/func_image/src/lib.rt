//! The functions of an input as an image: the words that a processor fetches, as text.
//!
//! Promised: [`image_of`] compiles the functions of an input by a description as an assembly is
//! made, and gives the text of the image of its lines, or what refuses the assembly, or the number
//! of bytes of the image where these are too many (`specs/Image.antt`). The law, in
//! `proofs/Does.antt`: at the entry of each function stand words that have its behaviour
//! (`specs/DoWords.antt`). The calls that give an assembly, the code of one function, forms, cycles
//! and functions behind a pass are passed on.
#![tactic(auto)]

mod image;

pub use image::image_of;
pub use law_assembly::{Summary, assembly_of, code_of, compile, cycles_of, dump_of, recog_of};
