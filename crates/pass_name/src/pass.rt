//! Passes and their names.
ghost use Rattle.std.specs.Prelude.{◌≡◌};
ghost use Rattle.pass_name.specs.Pass as spec;

/// A pass over a function, in the order in which they run. A refusal names the pass that refuses.
#[derive(Clone, Copy)]
pub enum Pass {
    /// None yet: the function as it was read.
    Read,
    /// Expansion into instructions of the machine.
    Lower,
    /// Repeated values that are used again, and sets of dead registers that go.
    Reuse,
    /// Pairs of instructions that become one.
    Combine,
    /// Splits before registers have homes.
    Split1,
    /// Homes of registers, and the moves that forms ask for.
    Reload,
    /// The stack frame: prologue and epilogues.
    Frame,
    /// Splits once registers have homes.
    Split2,
    /// Windows of the machine's instructions replaced by peepholes.
    Peephole2,
    /// Instructions of a region in the order in which a pipeline takes them soonest.
    Schedule,
    /// The assembly text.
    Output,
}

impl Pass {
    /// The pass's name, as `read`.
    pub fn name(self) -> &'static str
        ensures { result.now ≡ spec.pass_name self }
    {
        match self {
            Pass::Read => "read",
            Pass::Lower => "lower",
            Pass::Reuse => "reuse",
            Pass::Combine => "combine",
            Pass::Split1 => "split1",
            Pass::Reload => "reload",
            Pass::Frame => "frame",
            Pass::Split2 => "split2",
            Pass::Peephole2 => "peephole2",
            Pass::Schedule => "schedule",
            Pass::Output => "output",
        }
    }

    /// The pass of the usual road with a name behind which a function can be shown, or `None` where
    /// there is none.
    pub fn named(name: &str) -> Option<Pass>
        ensures { result ≡ spec.pass_named name.now }
    {
        match name {
            "read" => Some(Pass::Read),
            "lower" => Some(Pass::Lower),
            "combine" => Some(Pass::Combine),
            "split1" => Some(Pass::Split1),
            "reload" => Some(Pass::Reload),
            "frame" => Some(Pass::Frame),
            "split2" => Some(Pass::Split2),
            "peephole2" => Some(Pass::Peephole2),
            _ => None,
        }
    }
}
