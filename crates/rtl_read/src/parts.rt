//! What the items of a function say.
use rtx_tree::{Insns, Mode};

/// The register of a function's result.
#[derive(Clone, Copy)]
pub struct Returned {
    /// The mode of the result.
    pub mode: Mode,
    /// The register's number.
    pub reg: u32,
}

/// What is said of a function beside its name.
#[derive(Drop)]
pub struct Said {
    /// The instructions.
    pub insns: Insns,
    /// The size of the locals, where it is told.
    pub locals: Option<u32>,
    /// The result, where there is one.
    pub result: Option<Returned>,
}
