//! What instructions take of a pipeline.
use dfa_ways::Ways;

/// What an instruction takes of a pipeline.
#[derive(Drop)]
pub struct Taken {
    /// How many cycles later what it sets may be read.
    pub latency: u32,
    /// The ways in which it takes units, in the order in which they are tried.
    pub ways: Ways,
}
