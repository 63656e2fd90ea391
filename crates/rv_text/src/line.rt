//! A line and its parts.
ghost use Rattle.std.specs.Prelude.{◌≡◌, ◌∷◌, [], IfOk, is_some, pos, option_map};
ghost use Rattle.rv_text.specs.Lines as spec;
ghost use Rattle.rv_text.specs.Lines.{parts_view};
ghost use Rattle.rv_text.specs.Table.{row_view};

use crate::action::Action;
use crate::operand::Operand;
use crate::table::{Row, row_named};
use plain_data::Memory;
use rtx_tree::{HARD_REGS, Name};
use std::alloc::Global;
use text_words::is_symbol;

/// A line of assembly. What its mnemonic doesn't use is 0 or empty.
#[derive(Drop)]
pub struct Line {
    /// The mnemonic.
    pub name: Name,
    /// The register that is written.
    pub rd: u8,
    /// The first register that is read.
    pub rs: u8,
    /// The second register that is read.
    pub rt: u8,
    /// The number.
    pub imm: i64,
    /// The symbol or label.
    pub target: Name,
}

/// What the code of a function is made of.
#[derive(Drop)]
pub enum CodeItem {
    /// A label, which stands for an instruction of a function.
    Label {
        /// The function's number.
        function: u32,
        /// The instruction's uid.
        uid: u32,
    },
    /// A line.
    Code {
        /// The line.
        line: Line,
    },
}

/// The parts of a line, lent.
#[derive(Clone, Copy)]
pub struct LineParts<'a> {
    /// The mnemonic.
    pub name: &'a [u8],
    /// The register that is written.
    pub rd: u8,
    /// The first register that is read.
    pub rs: u8,
    /// The second register that is read.
    pub rt: u8,
    /// The number.
    pub imm: i64,
    /// The symbol or label.
    pub target: &'a [u8],
}

impl<'a> LineParts<'a> {
    /// A line of which nothing but the mnemonic is given.
    pub fn bare(name: &'a [u8]) -> LineParts<'a>
        ensures { parts_view result ≡ spec.bare name.entry.now }
    {
        LineParts {
            name,
            rd: 0,
            rs: 0,
            rt: 0,
            imm: 0,
            target: &[],
        }
    }

    /// The line with what an operand names taken from another one.
    pub fn with(self, operand: Operand, from: LineParts<'a>) -> LineParts<'a>
        ensures { parts_view result ≡
            spec.put operand (parts_view from.entry) (parts_view self.entry) }
    {
        match operand {
            Operand::Rd => LineParts {
                rd: from.rd,
                ..self
            },
            Operand::Rs => LineParts {
                rs: from.rs,
                ..self
            },
            Operand::Rt => LineParts {
                rt: from.rt,
                ..self
            },
            Operand::Number { .. } => LineParts {
                imm: from.imm,
                ..self
            },
            Operand::Place { .. } => LineParts {
                rs: from.rs,
                imm: from.imm,
                ..self
            },
            Operand::Target => LineParts {
                target: from.target,
                ..self
            },
            Operand::Ra => self,
        }
    }

    /// Whether two lines have the same parts.
    pub fn same(self, other: LineParts<'_>) -> bool
        ensures { result ≡ spec.same_line (parts_view self.entry) (parts_view other.entry) }
    {
        self.name == other.name
            && self.rd == other.rd
            && self.rs == other.rs
            && self.rt == other.rt
            && self.imm == other.imm
            && self.target == other.target
    }

    /// A line of these parts.
    pub fn to_line(self, alloc: Global) -> Result<Line, Memory>
        ensures { IfOk result (λ line. line ≡ parts_view self.entry) }
    {
        Ok(Line {
            name: Name::of(alloc, self.name)?,
            rd: self.rd,
            rs: self.rs,
            rt: self.rt,
            imm: self.imm,
            target: Name::of(alloc, self.target)?,
        })
    }
}

#[tactic(auto, using(crate::proofs::Registers::is_some_register))]
fn is_register(reg: u8) -> bool
    ensures { result ≡ is_some (spec.register_text reg) }
{
    reg < HARD_REGS
}

pub(crate) fn is_within(number: i64, least: i64, most: i64) -> bool
    ensures { result ≡ spec.is_within least most number }
{
    least <= number && number <= most
}

impl Line {
    /// The line's parts.
    pub fn parts(&self) -> LineParts<'_>
        ensures { parts_view result ≡ self.now }
    {
        LineParts {
            name: self.name.bytes(),
            rd: self.rd,
            rs: self.rs,
            rt: self.rt,
            imm: self.imm,
            target: self.target.bytes(),
        }
    }

    /// Whether an operand of the line can be written.
    fn has(&self, operand: Operand) -> bool
        ensures { result ≡ is_some (spec.operand_text operand self.now) }
    {
        match operand {
            Operand::Rd => is_register(self.rd),
            Operand::Rs => is_register(self.rs),
            Operand::Rt => is_register(self.rt),
            Operand::Number { least, most } => is_within(self.imm, least, most),
            Operand::Place { least, most } => is_within(self.imm, least, most)
                && is_register(self.rs),
            Operand::Target => is_symbol(self.target.bytes()),
            Operand::Ra => true,
        }
    }

    /// Whether all operands can be written.
    fn has_all(&self, operands: &[Operand]) -> bool
        ensures { result ≡ spec.has_all operands.now self.now }
    {
        operands.iter().all(|operand| self.has(*operand))
    }

    /// The line with what the operands don't name left out.
    fn named(&self, operands: &[Operand]) -> LineParts<'_>
        ensures { parts_view result ≡ spec.filled operands.now self.now (spec.bare self.now.name) }
    {
        let whole = self.parts();
        let mut parts = LineParts::bare(self.name.bytes());
        for operand in operands {
            parts = parts.with(*operand, whole);
        }
        parts
    }

    /// Whether the line is one of a row of the table.
    pub(crate) fn is_of(&self, row: Row) -> bool
        ensures { result ≡ spec.is_of_row (row_view row) self.now }
    {
        self.has_all(row.operands) && self.named(row.operands).same(self.parts())
    }

    /// What the line does, or `None` where it is no line.
    pub fn action(&self) -> Option<Action>
        ensures { result ≡ spec.action_of self.now }
    {
        let row = row_named(self.name.bytes())?;
        if self.is_of(row) {
            Some(row.action)
        } else {
            None
        }
    }
}
