//! What is tried in the place of each operand.
ghost use Rattle.std.specs.Prelude.{◌≡◌, ◌++◌, ◌==◌, IfOk, OnOk, map, filter};
ghost use Rattle.std.specs.List.{flat_map, list_any};
ghost use Rattle.std.specs.Option.{option_copied};
ghost use Rattle.lint_tried.specs.Offered as spec;
ghost use Rattle.lint_tried.specs.machine.Views.{trial_of};

use crate::numbers::own_numbers;
use crate::trial::Trial;
use lint_choices::{numbers_by, tried_numbers, with_neighbours};
use lint_made::{Candidate, candidates_by, tree_with};
use md_constr::changed_of;
use md_forms::OperandConstraint;
use md_text::{Alternative, Member};
use plain_data::{Items, Memory};
use rtx_tree::Rtx;
use rv_regs::allocation_order;

/// The candidates of an operand.
pub type Candidates = Items<Candidate>;

#[tactic(auto, using(lint_choices::proofs::PushedLaws::nothing_pushed))]
fn push_digit(member: &Member, out: &mut Candidates) -> Result<(), Memory>
    ensures { OnOk result (out.new ≡ out.old ++ spec.digit_candidates member.now) }
{
    match member {
        Member::Same(operand) => out.push(Candidate::Same { operand: *operand }),
        Member::Letter(_) | Member::Defined(_) => Ok(()),
    }
}

#[tactic(auto, using(lint_choices::proofs::PushedLaws::pushed_next, lint_choices::proofs::PushedLaws::pushed_ends))]
fn push_digits(members: &[Member], out: &mut Candidates) -> Result<(), Memory>
    ensures { OnOk result (out.new ≡ out.old ++ flat_map spec.digit_candidates members.now) }
{
    for member in members {
        push_digit(member, out)?;
    }
    Ok(())
}

#[tactic(auto, using(lint_choices::proofs::PushedLaws::nothing_pushed))]
fn push_digits_in(alternative: Option<&Alternative>, out: &mut Candidates) -> Result<(), Memory>
    ensures { OnOk result (out.new ≡ out.old ++ spec.digits_in (option_copied alternative.entry)) }
{
    match alternative {
        Some(found) => push_digits(found.members.as_slice(), out),
        None => Ok(()),
    }
}

#[tactic(auto, using(lint_choices::proofs::PushedLaws::nothing_pushed))]
fn push_digits_of(
    alternative: u32,
    number: i64,
    constraint: &OperandConstraint,
    out: &mut Candidates,
) -> Result<(), Memory>
    ensures { OnOk result (out.new ≡ out.old ++ spec.digits_of alternative number constraint.now) }
{
    if u64::from(constraint.operand) != number.cast_unsigned() {
        return Ok(());
    }
    push_digits_in(
        constraint.constraint.as_slice().get(alternative as usize),
        out,
    )
}

fn has_number(numbers: &[u64], number: u64) -> bool
    ensures { result ≡ list_any (λ n. n == number) numbers.now }
{
    for n in numbers {
        if *n == number {
            return true;
        }
    }
    false
}

impl Trial<'_> {
    fn takes_over(&self, placeholder: &Rtx, candidate: Candidate, reg: u8) -> Result<bool, Memory>
        ensures { IfOk result (λ taken.
            taken ≡ spec.takes_over (trial_of self.now) placeholder.now candidate reg) }
    {
        let tree = tree_with(self.alloc, u32::from(reg), candidate)?;
        Ok(self.takes(placeholder, &tree))
    }

    /// The registers over which a candidate is taken.
    #[tactic(auto, using(crate::proofs::KeptLaws::kept_next, crate::proofs::KeptLaws::left_next, lint_choices::proofs::PushedLaws::pushed_ends))]
    pub fn own_registers(
        &self,
        placeholder: &Rtx,
        candidate: Candidate,
    ) -> Result<Items<u8>, Memory>
        ensures { IfOk result (λ regs.
            regs ≡ spec.own_registers (trial_of self.now) placeholder.now candidate) }
    {
        let mut regs = Items::new(self.alloc);
        let tried = allocation_order();
        for reg in &tried {
            if self.takes_over(placeholder, candidate, *reg)? {
                regs.push(*reg)?;
            }
        }
        Ok(regs)
    }

    /// Whether a candidate is taken over some register.
    fn is_taken(&self, placeholder: &Rtx, candidate: Candidate) -> Result<bool, Memory>
        ensures { IfOk result (λ taken.
            taken ≡ spec.is_taken (trial_of self.now) placeholder.now candidate) }
    {
        let tried = allocation_order();
        for reg in &tried {
            if self.takes_over(placeholder, candidate, *reg)? {
                return Ok(true);
            }
        }
        Ok(false)
    }

    /// The numbers that are looked at.
    fn looked_at(&self, tested: &[i64]) -> Result<Items<i64>, Memory>
        ensures { IfOk result (λ numbers.
            numbers ≡ spec.looked_at (trial_of self.now) tested.now) }
    {
        let all = Items::from_slice(self.alloc, tested)?;
        let all = all.append(own_numbers(self.alloc, self.says)?)?;
        numbers_by(self.alloc, all.as_slice())
    }

    /// The numbers that are tried wherever they are taken.
    fn named_numbers(&self) -> Result<Items<i64>, Memory>
        ensures { IfOk result (λ numbers. numbers ≡ spec.named_numbers (trial_of self.now)) }
    {
        let own = own_numbers(self.alloc, self.says)?;
        with_neighbours(self.alloc, own.as_slice())
    }

    /// Which numbers are taken in the place of a placeholder.
    #[tactic(auto, using(lint_choices::proofs::PushedLaws::mapped_next, lint_choices::proofs::PushedLaws::pushed_ends))]
    fn taken_numbers(&self, placeholder: &Rtx, numbers: &[i64]) -> Result<Items<bool>, Memory>
        ensures { IfOk result (λ taken. taken ≡
            map (spec.takes_number (trial_of self.now) placeholder.now) numbers.now) }
    {
        let mut taken = Items::new(self.alloc);
        for number in numbers {
            let tree = Rtx::const_int(self.alloc, *number);
            taken.push(self.takes(placeholder, &tree))?;
        }
        Ok(taken)
    }

    /// The constants that are tried in the place of an operand.
    fn constants_at(&self, numbers: &[i64], placeholder: &Rtx) -> Result<Items<i64>, Memory>
        ensures { IfOk result (λ constants.
            constants ≡ spec.constants_at (trial_of self.now) numbers.now placeholder.now) }
    {
        let named = self.named_numbers()?;
        let taken = self.taken_numbers(placeholder, numbers)?;
        tried_numbers(self.alloc, named.as_slice(), numbers, taken.as_slice())
    }

    /// The digits in the constraint of an operand.
    #[tactic(auto, using(lint_choices::proofs::PushedLaws::pushed_next, lint_choices::proofs::PushedLaws::pushed_ends))]
    fn push_digits_at(&self, placeholder: &Rtx, out: &mut Candidates) -> Result<(), Memory>
        ensures { OnOk result (out.new ≡
            out.old ++ spec.digits_at (trial_of self.now) placeholder.now) }
    {
        for constraint in self.says.constraints.as_slice() {
            push_digits_of(self.alternative, placeholder.number, constraint, out)?;
        }
        Ok(())
    }

    /// Whether the form changes the operand of a placeholder.
    fn is_target(&self, placeholder: &Rtx) -> Result<bool, Memory>
        ensures { IfOk result (λ is. is ≡ spec.is_target (trial_of self.now) placeholder.now) }
    {
        let changed = changed_of(self.alloc, self.says)?;
        Ok(has_number(changed.as_slice(), placeholder.number.cast_unsigned()))
    }

    /// All that could stand in the place of a placeholder.
    fn could_stand(&self, numbers: &[i64], placeholder: &Rtx) -> Result<Candidates, Memory>
        ensures { IfOk result (λ could. could ≡
            spec.could_stand (trial_of self.now) numbers.now placeholder.now) }
    {
        let is_target = self.is_target(placeholder)?;
        let constants = self.constants_at(numbers, placeholder)?;
        candidates_by(
            self.alloc,
            placeholder.code,
            is_target,
            placeholder.mode,
            constants.as_slice(),
        )
    }

    /// Those candidates that are taken.
    #[tactic(auto, using(crate::proofs::KeptLaws::kept_next, crate::proofs::KeptLaws::left_next, lint_choices::proofs::PushedLaws::pushed_ends))]
    fn taken_among(&self, placeholder: &Rtx, could: &[Candidate]) -> Result<Candidates, Memory>
        ensures { IfOk result (λ taken. taken ≡
            filter (spec.is_taken (trial_of self.now) placeholder.now) could.now) }
    {
        let mut taken = Items::new(self.alloc);
        for candidate in could {
            if self.is_taken(placeholder, *candidate)? {
                taken.push(*candidate)?;
            }
        }
        Ok(taken)
    }

    /// The candidates of an operand.
    fn candidates_at(&self, numbers: &[i64], placeholder: &Rtx) -> Result<Candidates, Memory>
        ensures { IfOk result (λ candidates. candidates ≡
            spec.candidates_at (trial_of self.now) numbers.now placeholder.now) }
    {
        let could = self.could_stand(numbers, placeholder)?;
        let mut candidates = self.taken_among(placeholder, could.as_slice())?;
        self.push_digits_at(placeholder, &mut candidates)?;
        Ok(candidates)
    }

    /// The candidates of each operand that the pattern gives.
    #[tactic(auto, using(lint_choices::proofs::PushedLaws::mapped_next, lint_choices::proofs::PushedLaws::pushed_ends))]
    pub fn candidates_of(&self, givers: &[Rtx], tested: &[i64]) -> Result<Items<Candidates>, Memory>
        ensures { IfOk result (λ candidates. candidates ≡
            map (spec.candidates_at (trial_of self.now)
            (spec.looked_at (trial_of self.now) tested.now)) givers.now) }
    {
        let numbers = self.looked_at(tested)?;
        let mut candidates = Items::new(self.alloc);
        for giver in givers {
            candidates.push(self.candidates_at(numbers.as_slice(), giver)?)?;
        }
        Ok(candidates)
    }
}
