//! How operands stand.
ghost use Rattle.std.specs.Prelude.{◌≡◌, ◌==◌, ◌++◌, [], IfOk, OnOk};
ghost use Rattle.std.specs.List.{list_any, position_from, cons_option};
ghost use Rattle.std.specs.Option.{option_copied};
ghost use Rattle.rtx_tree.specs.Tree.{head_of, kids_of};
ghost use Rattle.reload_fit.specs.Addressed as addressed;
ghost use Rattle.reload_fit.specs.Fitting as spec;

use crate::addressed::{far_offset, on_register, slot_far};
use crate::asked::{Asked, has_address_letter, has_digit, is_early, number_in, shares_register};
use c_eval::same_tree;
use md_operand::is_far;
use md_text::{Alternative, Member};
use plain_data::{Items, Memory};
use reload_moves::{Digit, Fitting, Needs, Standing};
use reload_operands::{Base, Operand};
use rtx_tree::{Code, Mode, Rtx};
use std::alloc::Global;

/// Whether a tree is memory, at any address.
pub fn is_memory(x: &Rtx) -> bool
    ensures { result ≡ spec.is_memory_code (head_of x.now).code }
{
    matches!(x.code, Code::Mem)
}

/// Whether an operand is an address, by its predicate or its constraint.
fn is_address_operand(asked: Option<&Alternative>, x: &Operand) -> bool
    ensures { result ≡ spec.is_address_operand (option_copied asked.entry) x.now }
{
    x.is_address || has_address_letter(asked)
}

fn has_address(asked: Option<&Alternative>, x: &Operand) -> bool
    ensures { result ≡ spec.has_address (option_copied asked.entry) x.now }
{
    is_memory(&x.tree) || is_address_operand(asked, x)
}

/// Whether a slot holds the base of an operand's address.
fn is_based(asked: Option<&Alternative>, x: &Operand) -> bool
    ensures { result ≡ spec.is_based (option_copied asked.entry) x.now }
{
    x.base.is_some() && !x.is_operator && has_address(asked, x)
}

/// An operand with t3 in its address, where a slot holds its base or it is far.
fn shown(alloc: Global, asked: Option<&Alternative>, x: &Operand) -> Result<Rtx, Memory>
    ensures { IfOk result (λ tree. tree ≡ spec.shown (option_copied asked.entry) x.now) }
{
    if is_based(asked, x) || is_far(&x.tree) {
        on_register(alloc, 28, x)
    } else {
        x.tree.copy(alloc)
    }
}

fn one_is_memory(parts: &[Rtx]) -> bool
    ensures { result ≡ list_any spec.is_memory parts.now }
{
    parts.iter().any(|part| is_memory(part))
}

fn adds_memory(x: &Rtx) -> bool
    ensures { result ≡ spec.adds_memory (head_of x.now).code (kids_of x.now) }
{
    match x.code {
        Code::Plus => one_is_memory(x.kids.as_slice()),
        _ => false,
    }
}

/// Whether a tree is a sum with memory in it, in a mode narrower than that of addresses.
fn is_narrow_sum(x: &Rtx) -> bool
    ensures { result ≡ spec.is_narrow_sum x.now }
{
    match x.mode {
        Mode::DI => false,
        Mode::Void | Mode::QI | Mode::HI | Mode::SI => adds_memory(x),
    }
}

/// Whether a slot stands in an address operand that is no base of it.
fn is_baseless(asked: Option<&Alternative>, x: &Operand) -> bool
    ensures { result ≡ spec.is_baseless (option_copied asked.entry) x.now }
{
    is_address_operand(asked, x) && (x.in_slot || is_narrow_sum(&x.tree))
}

fn clashes(asked: Option<&Alternative>, operands: &[Operand], x: &Operand) -> bool
    ensures { result ≡ spec.clashes (option_copied asked.entry) operands.now x.now }
{
    is_early(asked) && (x.is_output || x.is_clobbered) && shares_register(operands, x)
}

fn is_part_of_slot(x: &Operand) -> bool
    ensures { result ≡ spec.is_part_of_slot x.now }
{
    x.in_slot && x.in_lowpart
}

fn is_lost(x: &Operand) -> bool
    ensures { result ≡ spec.is_lost x.now }
{
    x.is_operator && (x.is_scratch || is_far(&x.tree))
}

/// Whether an operand that is moved for no other cause can stay, by whether its constraint admits
/// it.
fn may_stay(asked: Option<&Alternative>, x: &Operand, is_admitted: bool) -> bool
    ensures { result ≡ spec.may_stay (option_copied asked.entry) x.now is_admitted }
{
    is_admitted && !is_baseless(asked, x)
}

/// How an operand stands, by whether its constraint admits it.
fn standing_by(
    asked: Option<&Alternative>,
    operands: &[Operand],
    x: &Operand,
    is_admitted: bool,
) -> Standing
    ensures { result ≡ spec.standing_by (option_copied asked.entry) operands.now x.now is_admitted }
{
    if clashes(asked, operands, x)
        || is_part_of_slot(x)
        || is_lost(x)
        || (x.is_scratch && is_admitted)
    {
        return Standing::Moves;
    }
    if x.is_operator {
        return Standing::Stays;
    }
    if may_stay(asked, x, is_admitted) {
        return if is_far(&x.tree) {
            Standing::Far
        } else {
            Standing::Stays
        };
    }
    if has_digit(asked) {
        Standing::Tied
    } else {
        Standing::Moves
    }
}

fn slot_far_of(base: Option<Base>) -> Option<i64>
    ensures { result ≡ spec.slot_far_of base }
{
    match base {
        Some(base) => slot_far(base),
        None => None,
    }
}

fn needs_of(asked: Option<&Alternative>, x: &Operand) -> Needs
    ensures { result ≡ spec.needs_of (option_copied asked.entry) x.now }
{
    Needs {
        is_input: x.is_input,
        is_output: x.is_output,
        has_base: is_based(asked, x),
        slot_far: slot_far_of(x.base),
        far: far_offset(&x.tree),
    }
}

/// Where the operand with a number stands.
fn place_of(operands: &[Operand], number: u32) -> Option<usize>
    ensures { result ≡ position_from (λ y. y.number == number) 0 operands.now }
{
    operands.iter().position(|y| y.number == number)
}

/// Whether an operand is the same as no other.
fn is_lone(asked: Option<&Alternative>, x: &Operand) -> bool
    ensures { result ≡ spec.is_lone (option_copied asked.entry) x.now }
{
    x.is_scratch || is_baseless(asked, x)
}

fn is_same_at(is_lone: bool, operands: &[Operand], place: usize, x: &Operand) -> bool
    ensures { result ≡ spec.is_same_at is_lone operands.now place x.now }
{
    match operands.get(place) {
        Some(y) => !is_lone && same_tree(&x.tree, &y.tree),
        None => false,
    }
}

fn digit_at(is_lone: bool, operands: &[Operand], x: &Operand, place: usize) -> Digit
    ensures { result ≡ spec.digit_at is_lone operands.now x.now place }
{
    Digit {
        place,
        same: is_same_at(is_lone, operands, place, x),
    }
}

fn digit_of(is_lone: bool, operands: &[Operand], x: &Operand, number: u32) -> Option<Digit>
    ensures { result ≡ spec.digit_of is_lone operands.now x.now number }
{
    match place_of(operands, number) {
        Some(place) => Some(digit_at(is_lone, operands, x, place)),
        None => None,
    }
}

fn digit_in(is_lone: bool, operands: &[Operand], x: &Operand, member: &Member) -> Option<Digit>
    ensures { result ≡ spec.digit_in is_lone operands.now x.now member.now }
{
    match number_in(member) {
        Some(number) => digit_of(is_lone, operands, x, u32::from(number)),
        None => None,
    }
}

fn push_digit(
    is_lone: bool,
    operands: &[Operand],
    x: &Operand,
    member: &Member,
    digits: &mut Items<Digit>,
) -> Result<(), Memory>
    ensures { OnOk result (digits.new ≡ digits.old ++ cons_option
        (spec.digit_in is_lone operands.now x.now member.now) []) }
{
    match digit_in(is_lone, operands, x, member) {
        Some(digit) => digits.push(digit),
        None => Ok(()),
    }
}

fn push_digits(
    is_lone: bool,
    operands: &[Operand],
    x: &Operand,
    members: &[Member],
    digits: &mut Items<Digit>,
) -> Result<(), Memory>
    ensures { OnOk result (digits.new ≡ digits.old ++ spec.digits_among is_lone operands.now x.now
        members.now) }
{
    for member in members {
        push_digit(is_lone, operands, x, member, digits)?;
    }
    Ok(())
}

/// The operands that the digits of an operand name.
fn digits_of(
    alloc: Global,
    asked: Option<&Alternative>,
    operands: &[Operand],
    x: &Operand,
) -> Result<Items<Digit>, Memory>
    ensures { IfOk result (λ digits.
        digits ≡ spec.digits_of (option_copied asked.entry) operands.now x.now) }
{
    let is_lone = is_lone(asked, x);
    let mut digits = Items::new(alloc);
    match asked {
        Some(a) => push_digits(is_lone, operands, x, a.members.as_slice(), &mut digits)?,
        None => (),
    }
    Ok(digits)
}

impl Asked<'_> {
    fn is_admitted(&self, x: &Operand) -> Result<bool, Memory>
        ensures { IfOk result (λ admitted.
            admitted ≡ spec.is_admitted (spec.asks_by self.now.desc.now self.now.form
            self.now.constraints.now self.now.alternative) x.now) }
    {
        let tree = shown(self.alloc, self.asked(x.number), x)?;
        Ok(self.admits(x.number, &tree))
    }

    fn fitting_at(&self, place: usize, x: &Operand) -> Result<Fitting, Memory>
        ensures { IfOk result (λ f. f ≡ spec.fitting_at
            (spec.asks_by self.now.desc.now self.now.form self.now.constraints.now
            self.now.alternative) self.now.operands.now place x.now) }
    {
        let is_admitted = self.is_admitted(x)?;
        let asked = self.asked(x.number);
        Ok(Fitting {
            place,
            standing: standing_by(asked, self.operands, x, is_admitted),
            digits: digits_of(self.alloc, asked, self.operands, x)?,
            needs: needs_of(asked, x),
        })
    }

    /// How each operand stands in the alternative.
    pub fn fittings(&self) -> Result<Items<Fitting>, Memory>
        ensures { IfOk result (λ fits.
            fits ≡ spec.fittings_of (spec.asks_by self.now.desc.now self.now.form
            self.now.constraints.now self.now.alternative) self.now.operands.now) }
    {
        let mut fits = Items::new(self.alloc);
        for x in self.operands {
            let fit = self.fitting_at(fits.len(), x)?;
            fits.push(fit)?;
        }
        Ok(fits)
    }
}
