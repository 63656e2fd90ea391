//! What a run comes to.
use plain_data::Items;
use rtx_tree::Memories;

/// A call that the code made.
#[derive(Drop)]
pub struct CodeCall {
    /// The address that was called.
    pub target: u64,
    /// What `a0` to `a7` held, where they were set.
    pub args: [Option<u64>; 8],
    /// The memory that the caller sees.
    pub memory: Memories,
}

/// Calls in their order.
pub type CodeCalls = Items<CodeCall>;

/// What the registers that a function has to preserve hold at its return.
#[derive(Clone, Copy)]
pub struct Saved {
    /// `sp`.
    pub sp: Option<u64>,
    /// `s0` to `s11`.
    pub saved: [Option<u64>; 12],
}

/// What a run of so many lines comes to.
#[derive(Drop)]
pub enum CodeOutcome {
    /// A line had no meaning, or none followed.
    Stuck,
    /// All lines were done.
    Running {
        /// The calls.
        calls: CodeCalls,
    },
    /// A call found no reply.
    Asked {
        /// The calls; this one is the last.
        calls: CodeCalls,
    },
    /// The function returned.
    Returned {
        /// What `a0` held, where it was set.
        value: Option<u64>,
        /// The memory that the caller sees.
        memory: Memories,
        /// The calls.
        calls: CodeCalls,
        /// What the preserved registers hold.
        kept: Saved,
    },
}

/// What a run of so many lines comes to, with the number of its calls in the place of the calls.
#[derive(Drop)]
pub enum CodeStanding {
    /// A line had no meaning, or none followed.
    Stuck,
    /// All lines were done.
    Running {
        /// How many calls were made.
        calls: u64,
    },
    /// A call found no reply.
    Asked {
        /// How many calls were made, with this one.
        calls: u64,
    },
    /// The function returned.
    Returned {
        /// What `a0` held, where it was set.
        value: Option<u64>,
        /// The memory that the caller sees.
        memory: Memories,
        /// How many calls were made.
        calls: u64,
    },
}
