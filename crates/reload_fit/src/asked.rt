//! What an alternative asks of operands.
ghost use Rattle.std.specs.Prelude.{◌≡◌, ◌==◌};
ghost use Rattle.std.specs.List.{find, list_any};
ghost use Rattle.std.specs.Option.{option_copied};
ghost use Rattle.reload_operands.specs.md_constr.Admits.{register_of};
ghost use Rattle.reload_fit.specs.Fitting as spec;

use c_eval::register_in;
use md_desc::Description;
use md_forms::OperandConstraint;
use md_text::{Alternative, Letter, Member};
use reload_operands::Operand;
use rtx_tree::{Code, Operands, Rtx};
use std::alloc::Global;

/// An alternative of a form, with the operands of an instruction.
#[derive(Drop)]
pub struct Asked<'a> {
    /// Where lists are made.
    pub alloc: Global,
    /// The description.
    pub desc: &'a Description,
    /// The form.
    pub form: u32,
    /// The constraints of the form.
    pub constraints: &'a [OperandConstraint],
    /// The alternative.
    pub alternative: u32,
    /// The operands, with their homes.
    pub operands: &'a [Operand],
}

fn constraint_of(constraints: &[OperandConstraint], number: u32) -> Option<&OperandConstraint>
    ensures { option_copied result ≡ find (λ k. k.operand == number) constraints.now }
{
    constraints.iter().find(|k| k.operand == number)
}

impl Asked<'_> {
    /// What stands in the constraint of the operand with a number.
    pub fn asked(&self, number: u32) -> Option<&Alternative>
        ensures { option_copied result ≡
            spec.asked_in self.now.constraints.now self.now.alternative number }
    {
        match constraint_of(self.constraints, number) {
            Some(found) => found.constraint.as_slice().get(self.alternative as usize),
            None => None,
        }
    }

    /// Whether the constraint of the operand with a number admits a tree, digits apart.
    pub fn admits(&self, number: u32, x: &Rtx) -> bool
        ensures { result ≡ (spec.asks_by self.now.desc.now self.now.form self.now.constraints.now
            self.now.alternative).admits number x.now }
    {
        let nothing = Operands::new(self.alloc);
        self.desc
            .operand_admits(self.form, self.alternative, &nothing, number, x)
    }
}

/// Whether an operand is changed before all inputs are taken.
pub fn is_early(asked: Option<&Alternative>) -> bool
    ensures { result ≡ spec.is_early (option_copied asked.entry) }
{
    match asked {
        Some(a) => a.early,
        None => false,
    }
}

fn mentions_as_input(y: &Operand, reg: u32) -> bool
    ensures { result ≡ spec.mentions_as_input y.now reg }
{
    y.is_input && y.tree.mentions(reg)
}

/// Whether an input other than the operand with a number mentions a register.
fn is_shared(operands: &[Operand], number: u32, reg: u32) -> bool
    ensures { result ≡ spec.is_shared operands.now number reg }
{
    operands
        .iter()
        .any(|y| y.number != number && mentions_as_input(y, reg))
}

/// The number of the register that an operand is, or is the low part of.
fn register_of(x: &Rtx) -> Option<u32>
    ensures { result ≡ register_of x.now }
{
    match (x.code, x.kids.as_slice()) {
        (Code::Reg, _) => register_in(x),
        (Code::Subreg, [inner]) => register_in(inner),
        _ => None,
    }
}

/// Whether an operand shares a register with an input.
pub fn shares_register(operands: &[Operand], x: &Operand) -> bool
    ensures { result ≡ spec.shares_register operands.now x.now }
{
    match register_of(&x.tree) {
        Some(reg) => is_shared(operands, x.number, reg),
        None => false,
    }
}

fn asks_address(member: &Member) -> bool
    ensures { result ≡ spec.asks_address member.now }
{
    matches!(member, Member::Letter(Letter::Address))
}

fn one_asks_address(members: &[Member]) -> bool
    ensures { result ≡ list_any spec.asks_address members.now }
{
    members.iter().any(|member| asks_address(member))
}

/// Whether the letter `p` stands in a constraint.
pub fn has_address_letter(asked: Option<&Alternative>) -> bool
    ensures { result ≡ spec.has_address_letter (option_copied asked.entry) }
{
    match asked {
        Some(a) => one_asks_address(a.members.as_slice()),
        None => false,
    }
}

/// The digit that a member is.
pub fn number_in(member: &Member) -> Option<u8>
    ensures { result ≡ spec.number_in member.now }
{
    match member {
        Member::Same(number) => Some(*number),
        _ => None,
    }
}

fn is_digit(member: &Member) -> bool
    ensures { result ≡ spec.is_digit member.now }
{
    number_in(member).is_some()
}

fn one_is_digit(members: &[Member]) -> bool
    ensures { result ≡ list_any spec.is_digit members.now }
{
    members.iter().any(|member| is_digit(member))
}

/// Whether a digit stands in a constraint.
pub fn has_digit(asked: Option<&Alternative>) -> bool
    ensures { result ≡ spec.has_digit (option_copied asked.entry) }
{
    match asked {
        Some(a) => one_is_digit(a.members.as_slice()),
        None => false,
    }
}
