//! Places of a graph.
use plain_data::Items;

/// A place of a graph, with the registers that it uses and defines, and the places that may follow
/// it.
#[derive(Drop)]
pub struct Node {
    /// The registers that it uses.
    pub uses: Items<u32>,
    /// The registers that it defines, after its uses.
    pub defines: Items<u32>,
    /// A place that may follow it. One that the graph does not have counts for nothing.
    pub first: Option<u32>,
    /// Another place that may follow it.
    pub second: Option<u32>,
}
