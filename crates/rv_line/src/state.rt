//! The machine that lines work on.
ghost use Rattle.std.specs.Prelude.{◌≡◌, Some};
ghost use Rattle.rv_line.specs.Step as spec;

use rtx_tree::{HARD_REGS, Memories};
use rv_text::{Line, Source};

/// The registers and the memory of a function's code.
#[derive(Drop)]
pub struct RvState {
    /// The registers by number, each with what it holds, or unset. Register 0 reads as 0 whatever
    /// stands here.
    pub regs: [Option<u64>; 32],
    /// What `ra` held at entry.
    pub entry_ra: u64,
    /// The bytes that are there.
    pub memory: Memories,
}

/// How a line ends.
#[derive(Clone, Copy, Debug)]
pub enum LineEnd {
    /// The next line in the list follows.
    Next,
    /// The line behind the line's label follows.
    Jumped,
    /// A function is called.
    Called {
        /// The called function's address.
        target: u64,
    },
    /// The function returns.
    Returned,
    /// The line has no meaning here.
    Stuck,
}

impl RvState {
    /// What a register holds, if it is set.
    pub fn register(&self, reg: u8) -> Option<u64>
        ensures { result ≡ spec.register self.now.regs reg }
    {
        if reg == 0 {
            return Some(0);
        }
        match self.regs.get(usize::from(reg)) {
            None => None,
            Some(value) => *value,
        }
    }

    /// Writes a register. A write to register 0 is dropped.
    pub fn set_register(&mut self, reg: u8, value: u64)
        ensures { self.new ≡ record self.old { regs = spec.with_register self.old.regs reg value } }
    {
        if 0 < reg && reg < HARD_REGS {
            self.regs[usize::from(reg)] = Some(value);
        }
    }

    /// The number that a line reads, if it is there.
    pub(crate) fn source(&self, line: &Line, source: Source) -> Option<u64>
        ensures { result ≡ spec.source_value self.now line.now source }
    {
        match source {
            Source::First => self.register(line.rs),
            Source::Second => self.register(line.rt),
            Source::ReturnAddress => self.register(1),
            Source::Immediate => Some(line.imm.cast_unsigned()),
            Source::Constant { number } => Some(number.cast_unsigned()),
        }
    }
}
