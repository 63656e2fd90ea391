//! The assembly of an input does what its functions do.
//!
//! There is no code of its own here: seven calls are passed on from `func_text`, which give of an
//! input the text of its assembly, the code of one function, the forms of its instructions, the
//! cycles of those that a pipeline's order takes, and its functions behind a pass, and of functions
//! their assembly with its parts, and its text appended to an output, with a summary. The laws, in
//! `proofs/Same.antt`, are of assemblies and of the code: the lines and labels that stand beside
//! each part of an assembly have the behaviour of the function, whatever the description, so the
//! text does what the functions do; and the code of a function of an input does what the function
//! does.
#![tactic(auto)]

pub use func_text::{
    Summary, assembled, assembly_of, code_of, compile, cycles_of, dump_of, recog_of,
};
