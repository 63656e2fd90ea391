//! What stands while statements run.
ghost use Rattle.std.specs.Prelude.{◌≡◌, OnOk, IfOk, option_map};
ghost use Rattle.gen_emit.specs.Values as spec;

use crate::values::is_register;
use plain_data::{Items, Memory};
use rtx_tree::{Code, FIRST_PSEUDO, Kids, Mode, Operands, Rtx};
use std::alloc::Global;

/// What stands while statements run: the operands, the moves that were emitted, in order, and the
/// next free pseudo register.
#[derive(Drop)]
pub struct Draft {
    /// The operands.
    pub operands: Operands,
    /// The moves that were emitted, in order.
    pub moves: Kids,
    /// The next free pseudo register, by its number among pseudo registers.
    pub next: u32,
}

/// How statements end, where they don't fail.
#[derive(Drop)]
pub enum Ended {
    /// The next statement is reached.
    Through(Draft),
    /// `DONE` is.
    Done(Draft),
}

impl Draft {
    /// What stands before the statements.
    pub fn new(alloc: Global, operands: Operands, next: u32) -> Draft
        ensures { result ≡ spec.draft operands next }
    {
        Draft {
            operands,
            moves: Items::new(alloc),
            next,
        }
    }

    /// Gives an operand another value; it may be a new one.
    pub fn assign(&mut self, number: u32, value: Rtx) -> Result<(), Memory>
        ensures { OnOk result (self.new ≡ spec.assigned number value self.old) }
    {
        self.operands.put(number, value)
    }

    /// Emits `(set TARGET SOURCE)`.
    pub fn emit_move(&mut self, alloc: Global, target: Rtx, source: Rtx) -> Result<(), Memory>
        ensures { OnOk result (self.new ≡ spec.moved target source self.old) }
    {
        let set = Rtx::of_two(alloc, Code::Set, Mode::Void, target, source)?;
        self.moves.push(set)
    }

    /// A new pseudo register of a mode, where one may be made. One past 32 bits finds no memory.
    pub fn fresh(&mut self, alloc: Global, may: bool, mode: Mode) -> Result<Option<Rtx>, Memory>
        ensures { IfOk result (λ r. spec.fresh may mode self.old ≡ option_map (λ x.
            spec.made x self.new) r) }
    {
        if !may {
            return Ok(None);
        }
        let Some(reg) = FIRST_PSEUDO.checked_add(self.next) else {
            return Err(Memory);
        };
        self.next += 1;
        Ok(Some(Rtx::reg(alloc, mode, reg)))
    }

    /// A value as a register: itself, or a new pseudo register of a mode, which a move sets to it.
    pub fn force(
        &mut self,
        alloc: Global,
        may: bool,
        mode: Mode,
        value: Rtx,
    ) -> Result<Option<Rtx>, Memory>
        ensures { IfOk result (λ r. spec.forced may mode (spec.made value self.old) ≡ option_map
            (λ x. spec.made x self.new) r) }
    {
        if is_register(&value) {
            return Ok(Some(value));
        }
        let Some(reg) = self.fresh(alloc, may, mode)? else {
            return Ok(None);
        };
        self.emit_move(alloc, reg.copy(alloc)?, value)?;
        Ok(Some(reg))
    }
}
