//! The roads of a function through the passes.
ghost use Rattle.std.specs.Prelude.{◌≡◌};
ghost use Rattle.pass_name.specs.Road as spec;

use crate::pass::Pass;

/// Which passes a function goes through.
#[derive(Clone, Copy)]
pub enum Road {
    /// Combination and peepholes.
    Usual,
    /// Those, and values that are used again before pairs are combined.
    Reusing,
    /// Those of the usual road, and instructions put in order at its end.
    Scheduled,
}

static USUAL: [Pass; 8] = [
    Pass::Read,
    Pass::Lower,
    Pass::Combine,
    Pass::Split1,
    Pass::Reload,
    Pass::Frame,
    Pass::Split2,
    Pass::Peephole2,
];

static REUSING: [Pass; 9] = [
    Pass::Read,
    Pass::Lower,
    Pass::Reuse,
    Pass::Combine,
    Pass::Split1,
    Pass::Reload,
    Pass::Frame,
    Pass::Split2,
    Pass::Peephole2,
];

static SCHEDULED: [Pass; 9] = [
    Pass::Read,
    Pass::Lower,
    Pass::Combine,
    Pass::Split1,
    Pass::Reload,
    Pass::Frame,
    Pass::Split2,
    Pass::Peephole2,
    Pass::Schedule,
];

impl Road {
    /// The passes of the road before the text is written, in their order.
    pub fn passes(self) -> &'static [Pass]
        ensures { result.now ≡ spec.passes_of self }
    {
        match self {
            Road::Usual => &USUAL,
            Road::Reusing => &REUSING,
            Road::Scheduled => &SCHEDULED,
        }
    }
}
