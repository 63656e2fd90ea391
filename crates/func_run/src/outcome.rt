//! How a run ends.
use plain_data::Items;
use rtl_step::Calls;
use rtx_tree::Memories;

/// `sp`, `ra` and `s0` to `s11`, each with its number where all 64 bits are known.
pub type Kept = Items<Option<u64>>;

/// How a run stands after so many steps.
#[derive(Drop)]
pub enum Outcome {
    /// A step had no value.
    Undefined,
    /// The run goes on.
    Running {
        /// The calls so far.
        calls: Calls,
    },
    /// The run waits for the reply to its last call.
    Asked {
        /// The calls, with this one.
        calls: Calls,
    },
    /// The function returned.
    Returned {
        /// The result, where there is one.
        value: Option<u64>,
        /// The visible memory.
        memory: Memories,
        /// The calls.
        calls: Calls,
        /// The registers that a function has to preserve.
        kept: Kept,
    },
}

/// How a run stands after so many steps, with the number of its calls in the place of the calls.
#[derive(Drop)]
pub enum Standing {
    /// A step had no value.
    Undefined,
    /// The run goes on.
    Running {
        /// How many calls were made.
        calls: u64,
    },
    /// The run waits for the reply to its last call.
    Asked {
        /// How many calls were made, with this one.
        calls: u64,
    },
    /// The function returned.
    Returned {
        /// The result, where there is one.
        value: Option<u64>,
        /// The visible memory.
        memory: Memories,
        /// How many calls were made.
        calls: u64,
    },
}
