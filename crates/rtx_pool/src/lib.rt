//! Expressions under roots, changed in their places.
//!
//! An [`RtxPool`] holds whole trees, each under its root (`node_pool`'s ids). A part is named by the
//! root and the path that leads to it. Each call changes the tree of one root (`specs/Trees.antt`)
//! and leaves those of all others; none but [`RtxPool::place`], [`RtxPool::reserve`] and
//! [`RtxPool::lift`] takes memory. [`set_head`], [`hoist`] and [`swap`] make the same changes to a
//! tree that stands under no root.
#![tactic(auto)]

mod change;
mod head;
mod pool;

pub use change::{hoist, set_head, swap};
pub use head::RtxHead;
pub use pool::{Root, RtxPool};
