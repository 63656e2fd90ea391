//! Conditions and statements as trees.
use c_words::CondHead;
use plain_data::Items;

/// A condition or statements as contracts see them: a head with its parts. The code keeps no such
/// tree, whose depth has no limit, but its heads, each behind the parts that belong to it.
#[derive(Drop)]
pub struct Tree {
    /// The head of the tree.
    pub head: CondHead,
    /// The parts of the tree, in order.
    pub parts: Items<Tree>,
}
