//! The limits on what is compiled.
ghost use Rattle.std.specs.Prelude.{◌≡◌, ◌↔◌, IsTrue};
ghost use Rattle.rtx_tree.specs.Limit.{limit_name};

/// `Text`: the bytes of an input, and of the texts of a description together; 16 MiB.
pub const MOST_BYTES: usize = 16_777_216;

/// `Depth`: lists and vectors within each other.
pub const MOST_OPEN: usize = 200;

/// `Include`: files within each other, the description itself among them.
pub const MOST_WITHIN: usize = 16;

/// `Forms`: the forms of a description, once its iterators are expanded.
pub const MOST_FORMS: usize = 20_000;

/// `Instructions`: those of a function that is read.
pub const MOST_INSTRUCTIONS: u64 = 10_000;

/// `Pseudos`: the pseudo registers of a function that is read, with those below the greatest.
pub const MOST_PSEUDOS: u64 = 10_000;

/// `Instructions`: those of a function that a pass makes.
pub const MOST_MADE: usize = 1_000_000;

/// `SplitDepth`: splits that follow from one another.
pub const MOST_SPLITS: u32 = 8;

/// `TermSize`: the nodes of a term of a comparison, each counted as often as it stands there.
pub const MOST_NODES: u64 = 1_048_576;

/// `TermSize`: the levels of such a term; one with more counts as one with too many nodes.
pub const MOST_LEVELS: u64 = 2_000;

/// `Frame`: the bytes of a frame; the greatest multiple of 16 below 2^20.
pub const MOST_FRAME: u64 = 1_048_560;

/// `Output`: the bytes of an assembly; 256 MiB.
pub const MOST_OUTPUT: usize = 268_435_456;

/// `Image`: the bytes of the words of an image; the greatest multiple of 4 below 2^20.
pub const MOST_IMAGE: u64 = 1_048_572;

/// So many places lie between two instructions that are combined at most; no refusal names it.
pub const MOST_APART: u32 = 16;

/// So many expressions of a combined pattern stand within each other at most; no refusal names it.
pub const MOST_COMBINED: u32 = 195;

/// So many places lie between two instructions of which the second has the first's value at most; no
/// refusal names it.
pub const MOST_REUSED: u32 = 64;

/// So many instructions are put in order together at most; no refusal names it.
pub const MOST_SCHEDULED: u32 = 64;

/// So many instances of an alternative are tried at most; no refusal names it.
pub const MOST_TRIED: usize = 64;

/// So many units of a pipeline are told apart at most; a reservation that names more is passed over.
pub const MOST_UNITS: usize = 64;

/// So many ways has an expression of a reservation at most.
pub const MOST_WAYS: usize = 64;

/// So many cycles has a way at most.
pub const MOST_CYCLES: usize = 64;

/// So many times stands an expression behind itself at most.
pub const MOST_TIMES: u32 = 1_000;

/// So many cycles takes an instruction at most.
pub const MOST_LATENCY: u32 = 1_000;

/// A quantity that has a limit.
#[derive(Clone, Copy, Debug)]
pub enum Limit {
    /// Bytes of a text.
    Text,
    /// Lists and vectors within each other.
    Depth,
    /// Files included within each other.
    Include,
    /// Expanded forms of a description.
    Forms,
    /// Instructions of a function.
    Instructions,
    /// Pseudo registers of a function.
    Pseudos,
    /// Splits that follow from one another.
    SplitDepth,
    /// Nodes of a term, seen as a tree.
    TermSize,
    /// Bytes of a stack frame.
    Frame,
    /// Bytes of the text that is written.
    Output,
    /// Bytes of an image.
    Image,
}

impl Limit {
    /// The limit's name in messages, as `SplitDepth`.
    pub fn name(self) -> &'static str
        ensures { result.now ≡ limit_name self }
    {
        match self {
            Limit::Text => "Text",
            Limit::Depth => "Depth",
            Limit::Include => "Include",
            Limit::Forms => "Forms",
            Limit::Instructions => "Instructions",
            Limit::Pseudos => "Pseudos",
            Limit::SplitDepth => "SplitDepth",
            Limit::TermSize => "TermSize",
            Limit::Frame => "Frame",
            Limit::Output => "Output",
            Limit::Image => "Image",
        }
    }

    /// Whether two limits are the same.
    pub fn same(self, other: Limit) -> bool
        ensures { IsTrue result ↔ (self ≡ other) }
    {
        self == other
    }
}
