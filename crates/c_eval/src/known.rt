//! What a condition is read with.
ghost use Rattle.std.specs.Prelude.{◌≡◌};
ghost use Rattle.std.specs.Option.{option_copied};
ghost use Rattle.rtx_tree.specs.Operands.{operand_at};
ghost use Rattle.c_eval.specs.Value as spec;
ghost use Rattle.c_eval.specs.machine.Given.{operands_given};

use crate::preds::Preds;
use crate::reading::Reading;
use rtx_tree::{Operands, RegSet, Rtx};

/// The operands that a condition may name.
#[derive(Clone, Copy)]
pub enum Given<'a> {
    /// The operands of a form.
    Operands(&'a Operands),
    /// The operand that a predicate tests, which is operand 0.
    Tested(&'a Rtx),
}

/// What a condition is read with.
#[derive(Drop)]
pub struct Known<'a, P: Preds> {
    /// Whether registers have been given homes.
    pub reloaded: bool,
    /// Whether pseudo registers may be made.
    pub new_pseudos: bool,
    /// The registers that are dead, by their place in the window.
    pub dead: &'a [RegSet],
    /// The operands.
    pub operands: Given<'a>,
    /// The predicates.
    pub preds: &'a P,
}

impl<'a> Given<'a> {
    /// The operand with a number, where it is not missing.
    pub fn at(self, number: u32) -> Option<&'a Rtx>
        ensures { option_copied result ≡ operand_at (operands_given self.entry) number }
    {
        match self {
            Given::Operands(operands) => operands.get(number as usize),
            Given::Tested(x) if number == 0 => Some(x),
            Given::Tested(_) => None,
        }
    }

    /// The operand that a part names, where it is not missing.
    pub fn of(self, part: Reading) -> Option<&'a Rtx>
        ensures { option_copied result ≡ spec.operand_of (operands_given self.entry) part }
    {
        match part {
            Reading::Operand(number) => self.at(number),
            _ => None,
        }
    }
}
