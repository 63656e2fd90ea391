//! What a choice of candidates makes.
ghost use Rattle.std.specs.Prelude.{◌≡◌, IfOk};
ghost use Rattle.std.specs.List.{list_all};
ghost use Rattle.md_desc.specs.Recog.{is_usable as can_be_used};
ghost use Rattle.md_desc.specs.md_pred.Holds.{holds};
ghost use Rattle.md_pred.specs.machine.Table.{accepted_by};
ghost use Rattle.md_desc.specs.md_recog.Match.{is_accepted as is_accepted_by, is_met as is_met_with};
ghost use Rattle.form_needs.specs.Needs.{output_facts as facts_at_output};
ghost use Rattle.lint_made.specs.Made.{givers as givers_of};
ghost use Rattle.lint_tried.specs.Instance as spec;
ghost use Rattle.lint_tried.specs.machine.Views.{trial_of};

use crate::offered::Candidates;
use crate::trial::Trial;
use c_eval::Preds;
use form_needs::output_facts;
use lint_choices::{Change, registers_apart, registers_in};
use lint_insn::{insn_of, is_lawful};
use lint_made::{Candidate, operands_by, picks_in};
use md_match::{instantiate, operand_of};
use md_pred::PredTable;
use md_recog::{is_met, names_predicate};
use plain_data::{Items, Memory};
use rtx_tree::{Insn, Operands, Rtx};

/// An instruction that an alternative of a form takes.
#[derive(Drop)]
pub struct Instance {
    /// The instruction.
    pub insn: Insn,
    /// Its operands.
    pub operands: Operands,
}

/// Whether the predicate of a placeholder, if it names one, accepts its operand.
fn is_accepted(placeholder: &Rtx, operands: &Operands, preds: &PredTable) -> bool
    ensures { result ≡ is_accepted_by (accepted_by preds.now) operands.now placeholder.now }
{
    if !names_predicate(placeholder.code) {
        return true;
    }
    match operand_of(placeholder, operands) {
        Some(x) => preds.holds(&placeholder.name, x, placeholder.mode),
        None => false,
    }
}

/// The candidate that an operand has.
fn picked_at(candidates: &[Candidates], picks: &[usize], at: usize) -> Option<Candidate>
    ensures { result ≡ spec.picked_at candidates.now picks.now at }
{
    match (candidates.get(at), picks.get(at)) {
        (Some(own), Some(pick)) => own.as_slice().get(*pick).copied(),
        _ => None,
    }
}

impl Trial<'_> {
    /// The registers of a candidate.
    fn registers_of(
        &self,
        placeholder: &Rtx,
        picked: Option<Candidate>,
    ) -> Result<Items<u8>, Memory>
        ensures { IfOk result (λ regs.
            regs ≡ spec.registers_of (trial_of self.now) placeholder.now picked) }
    {
        match picked {
            Some(candidate) => self.own_registers(placeholder, candidate),
            None => Ok(Items::new(self.alloc)),
        }
    }

    /// The registers that the operands may have.
    #[tactic(auto, using(crate::proofs::NextLaws::registers_next, lint_choices::proofs::PushedLaws::pushed_ends))]
    fn registers(
        &self,
        givers: &[Rtx],
        candidates: &[Candidates],
        picks: &[usize],
    ) -> Result<Items<Items<u8>>, Memory>
        ensures { IfOk result (λ owns. owns ≡
            spec.registers_from (trial_of self.now) candidates.now picks.now 0 givers.now) }
    {
        let mut owns = Items::new(self.alloc);
        for (at, giver) in givers.iter().enumerate() {
            owns.push(self.registers_of(giver, picked_at(candidates, picks, at))?)?;
        }
        Ok(owns)
    }

    /// The operands of a choice.
    pub fn operands_with(
        &self,
        givers: &[Rtx],
        candidates: &[Candidates],
        change: Change,
        picks: &[usize],
    ) -> Result<Operands, Memory>
        requires { givers.now ≡ givers_of self.now.pattern.now }
        ensures { IfOk result (λ operands. operands ≡
            spec.operands_with (trial_of self.now) candidates.now change picks.now) }
    {
        let owns = self.registers(givers, candidates, picks)?;
        let apart = registers_apart(self.alloc, owns.as_slice())?;
        let regs = registers_in(self.alloc, change, apart.as_slice())?;
        operands_by(self.alloc, givers, candidates, picks, regs.as_slice())
    }

    /// Whether all predicates accept their operands.
    pub fn all_accepted(&self, givers: &[Rtx], operands: &Operands) -> bool
        ensures { result ≡
            list_all (is_accepted_by (holds self.now.description.now) operands.now) givers.now }
    {
        let preds = self.description.preds();
        for giver in givers {
            if !is_accepted(giver, operands, preds) {
                return false;
            }
        }
        true
    }

    /// Whether the condition is not 0.
    pub fn is_met(&self, operands: &Operands) -> bool
        ensures { result ≡ is_met_with (holds self.now.description.now) facts_at_output
            self.now.says.now.condition operands.now }
    {
        let facts = output_facts(self.alloc);
        is_met(
            &self.says.condition,
            &facts,
            operands,
            self.description.preds(),
        )
    }

    /// Whether the alternative can be used with operands.
    pub fn is_usable(&self, operands: &Operands) -> bool
        ensures { result ≡ can_be_used self.now.description.now self.now.form operands.now
            self.now.alternative }
    {
        self.description.enabled(self.form, self.alternative)
            && self.description.fits(self.form, self.alternative, operands)
    }

    /// Whether operands make an instance.
    fn is_instance(&self, givers: &[Rtx], operands: &Operands, insn: &Insn) -> Result<bool, Memory>
        requires { givers.now ≡ givers_of self.now.pattern.now }
        ensures { IfOk result (λ is.
            is ≡ spec.is_instance (trial_of self.now) operands.now insn.now) }
    {
        if !(self.all_accepted(givers, operands)
            && self.is_met(operands)
            && self.is_usable(operands))
        {
            return Ok(false);
        }
        is_lawful(self.alloc, insn)
    }

    /// The instance of an instruction, where it is one.
    fn instance_if(
        &self,
        givers: &[Rtx],
        operands: Operands,
        insn: Insn,
    ) -> Result<Option<Instance>, Memory>
        requires { givers.now ≡ givers_of self.now.pattern.now }
        ensures { IfOk result (λ instance.
            instance ≡ spec.instance_if (trial_of self.now) operands insn) }
    {
        if self.is_instance(givers, &operands, &insn)? {
            Ok(Some(Instance { insn, operands }))
        } else {
            Ok(None)
        }
    }

    /// The instance of some operands.
    #[tactic(auto, using(crate::proofs::MadeLaws::instance_made))]
    fn instance_with(&self, givers: &[Rtx], operands: Operands) -> Result<Option<Instance>, Memory>
        requires { givers.now ≡ givers_of self.now.pattern.now }
        ensures { IfOk result (λ instance.
            instance ≡ spec.instance_with (trial_of self.now) operands) }
    {
        match instantiate(self.alloc, self.pattern, &operands)? {
            Some(pattern) => {
                let insn = insn_of(self.alloc, pattern)?;
                let instance = self.instance_if(givers, operands, insn)?;
                Ok(instance)
            }
            None => Ok(None),
        }
    }

    /// The instance of a choice that differs so from some picks.
    pub fn instance_of(
        &self,
        givers: &[Rtx],
        candidates: &[Candidates],
        picks: &[usize],
        change: Change,
    ) -> Result<Option<Instance>, Memory>
        requires { givers.now ≡ givers_of self.now.pattern.now }
        ensures { IfOk result (λ instance. instance ≡
            spec.instance_of (trial_of self.now) candidates.now picks.now change) }
    {
        let picks = picks_in(self.alloc, change, picks)?;
        let operands = self.operands_with(givers, candidates, change, picks.as_slice())?;
        self.instance_with(givers, operands)
    }
}
