//! A description with its tables.
ghost use Rattle.std.specs.Prelude.{◌≡◌, ◌↔◌, ◌≤◌, ◌<◌, ◌^◌, Some, None, IfOk, IfSome, IsTrue, length};
ghost use Rattle.md_constr.specs.md_attr.Alternatives.{IsAlternative};
ghost use Rattle.md_constr.specs.md_attr.machine.Tables.{AreAttributesOf};
ghost use Rattle.md_constr.specs.md_attr.Values.{is_enabled};
ghost use Rattle.md_constr.specs.machine.Tables.{AreConstraintsOf};
ghost use Rattle.md_constr.specs.Fits as constraints;
ghost use Rattle.md_pred.specs.Holds.{holds};
ghost use Rattle.md_pred.specs.machine.Table.{accepted_by};
ghost use Rattle.md_dfa.specs.Lawful.{AreLawful};
ghost use Rattle.md_dfa.specs.Pipeline.{pipeline_in};
ghost use Rattle.rtx_tree.specs.Limit.{most_forms};
ghost use Rattle.md_desc.specs.Recog as spec;
ghost use Rattle.md_desc.specs.machine.Steps as steps;
ghost use Rattle.md_recog.specs.declared.half.Half.TheVariants as half;
ghost use Rattle.md_recog.specs.declared.recog.FormMatch.{FormMatch};
ghost use Rattle.recog_tree.specs.machine.Tables as by_key;

use c_eval::Facts;
use md_attr::{Attributes, enabled, has_alternative};
use md_constr::{Constraints, fits, operand_admits, operand_fits};
use md_dfa::{Pipeline, pipeline_in};
use md_forms::Forms;
use md_pred::PredTable;
use md_recog::{FormMatch, Half, Matching, Steps};
use plain_data::Memory;
use recog_tree::{Tables, recog};
use rtx_tree::{Operands, Rtx};
use std::alloc::Global;
use std::marker::{Brand, Model};
use std::sync::ledger::{Blank, Ledger};

/// A machine description. Contracts see its forms.
#[derive(Drop)]
pub struct Description {
    forms: Forms,
    preds: PredTable,
    constraints: Constraints,
    attributes: Attributes,
    insns: Tables,
    splits: Tables,
    windows: Tables,
    pipeline: Pipeline,
}

impl Model for Description {
    ghost use Rattle.std.specs.Prelude.{List};
    ghost use Rattle.std.specs.Coded.{coded_list};
    ghost use Rattle.md_forms.specs.declared.form.Entry.{Entry};
    ghost use Rattle.md_forms.specs.contracts.form.Entry as entry;
    ghost use Rattle.md_desc.specs.machine.Tables.{AreTablesOf};

    ghost Value = { List Entry };

    ghost coded = { coded_list entry.the_row.coded };

    ghost view = { λ description. description.forms };

    ghost invariant = { λ description.
        AreTablesOf description.forms description.preds description.constraints
        description.attributes description.insns description.splits description.windows
        description.pipeline };
}

/// The tables that are asked of operands.
#[derive(Drop)]
struct OperandTables {
    preds: PredTable,
    constraints: Constraints,
}

impl OperandTables {
    fn of(alloc: Global, forms: &Forms) -> Result<OperandTables, Memory>
        ensures accepts { IfOk result (λ r. accepted_by r.preds ≡ holds forms.now) }
        ensures asks { IfOk result (λ r. AreConstraintsOf r.constraints forms.now) }
    {
        let preds = PredTable::of(alloc, forms)?;
        let constraints = Constraints::of(alloc, forms)?;
        Ok(OperandTables { preds, constraints })
    }
}

/// The tables that are asked of forms.
#[derive(Drop)]
struct FormTables {
    attributes: Attributes,
    insns: Tables,
    splits: Tables,
    windows: Tables,
}

impl FormTables {
    fn of(alloc: Global, forms: &Forms) -> Result<FormTables, Memory>
        ensures gives { IfOk result (λ r. AreAttributesOf r.attributes forms.now) }
        ensures keyed { IfOk result (λ r. by_key.AreTablesOf half.Insn r.insns forms.now) }
        ensures split { IfOk result (λ r. by_key.AreTablesOf half.Split r.splits forms.now) }
        ensures window { IfOk result (λ r. by_key.AreTablesOf half.Window r.windows forms.now) }
    {
        let attributes = Attributes::of(alloc, forms)?;
        let insns = Tables::of(alloc, Half::Insn, forms)?;
        let splits = Tables::of(alloc, Half::Split, forms)?;
        let windows = Tables::of(alloc, Half::Window, forms)?;
        Ok(FormTables {
            attributes,
            insns,
            splits,
            windows,
        })
    }
}

impl Description {
    /// The description of some forms.
    pub(crate) fn of(alloc: Global, forms: Forms) -> Result<Description, Memory>
        requires { length forms ≤ most_forms }
        ensures { IfOk result (λ description. description ≡ forms) }
    {
        let of_operands = OperandTables::of(alloc, &forms)?;
        let of_forms = FormTables::of(alloc, &forms)?;
        let pipeline = pipeline_in(alloc, forms.as_slice())?;
        Ok(Description {
            forms,
            preds: of_operands.preds,
            constraints: of_operands.constraints,
            attributes: of_forms.attributes,
            insns: of_forms.insns,
            splits: of_forms.splits,
            windows: of_forms.windows,
            pipeline,
        })
    }

    /// The description's forms, in order.
    pub fn forms(&self) -> &Forms
        ensures forms { result.now ≡ self.now }
        ensures short { length result.now ≤ most_forms }
    {
        &self.forms
    }

    /// The description's predicates.
    pub fn preds(&self) -> &PredTable
        ensures { accepted_by result.now ≡ holds self.now }
    {
        &self.preds
    }

    /// What its forms ask of their operands.
    pub fn constraints(&self) -> &Constraints
        ensures { AreConstraintsOf result.now self.now }
    {
        &self.constraints
    }

    /// The attributes of its forms.
    pub fn attributes(&self) -> &Attributes
        ensures { AreAttributesOf result.now self.now }
    {
        &self.attributes
    }

    /// By which keys the forms that split instructions are found.
    pub fn splits(&self) -> &Tables
        ensures { by_key.AreTablesOf half.Split result.now self.now }
    {
        &self.splits
    }

    /// By which keys the forms that put others in the place of a window are found.
    pub fn windows(&self) -> &Tables
        ensures tables { by_key.AreTablesOf half.Window result.now self.now }
        ensures short { length result.now.keys < 2 ^ 32 }
    {
        &self.windows
    }

    /// The pipeline that its forms define.
    #[tactic(auto, using(md_dfa::proofs::LawfulLaws::pipeline_lawful))]
    pub fn pipeline(&self) -> &Pipeline
        ensures is_of { result.now ≡ pipeline_in self.now }
        ensures lawful { AreLawful result.now }
    {
        &self.pipeline
    }

    /// Whether a form is accepted and has an alternative.
    pub fn has_alternative(&self, form: u32, alternative: u32) -> bool
        ensures { IsTrue result ↔ IsAlternative self.now form alternative }
    {
        has_alternative(&self.attributes, form, alternative)
    }

    /// Whether an alternative of an accepted form can be used: it can, unless the attribute
    /// `enabled` has the value `no` there.
    pub fn enabled(&self, form: u32, alternative: u32) -> bool
        ensures { result ≡ is_enabled self.now form alternative }
    {
        enabled(&self.attributes, form, alternative)
    }

    /// Whether operands fit an alternative of an accepted form.
    pub fn fits(&self, form: u32, alternative: u32, operands: &Operands) -> bool
        ensures { result ≡ constraints.fits self.now
            (holds self.now) form alternative operands.now }
    {
        fits(&self.constraints, &self.preds, form, alternative, operands)
    }

    /// Whether the operand with a number fits an alternative of an accepted form, by itself.
    pub fn operand_fits(
        &self,
        form: u32,
        alternative: u32,
        operands: &Operands,
        number: u32,
    ) -> bool
        ensures { result ≡
            constraints.number_fits self.now (holds self.now) form alternative operands.now number }
    {
        let preds = &self.preds;
        operand_fits(
            &self.constraints,
            preds,
            form,
            alternative,
            operands,
            number,
        )
    }

    /// Whether the constraint of the operand with a number admits a tree in an alternative of an
    /// accepted form.
    pub fn operand_admits(
        &self,
        form: u32,
        alternative: u32,
        operands: &Operands,
        number: u32,
        x: &Rtx,
    ) -> bool
        ensures { result ≡ constraints.number_admits self.now
            (holds self.now) form alternative operands.now number x.now }
    {
        let preds = &self.preds;
        operand_admits(
            &self.constraints,
            preds,
            form,
            alternative,
            operands,
            number,
            x,
        )
    }

    /// The first form from an index on that matches an instruction, by steps that are counted in a
    /// ledger.
    fn first_counted<L: Ledger>(
        &self,
        alloc: Global,
        insn: &Rtx,
        facts: &Facts,
        from: u32,
        blank: Blank,
    ) -> Result<Option<FormMatch>, Memory>
        requires name { blank.name ≡ L.name }
        requires parts { blank.parts ≡ L.parts }
        requires some { 0 < blank.parts }
        ensures first { IfOk result (λ r. (m : FormMatch) →
            (r ≡ Some m) ↔ spec.IsFirst self.now facts.now insn.now from m) }
        ensures none { IfOk result (λ r. r ≡ None →
            steps.NoneBehind self.now facts.now insn.now from) }
        ensures small { IfOk result (λ r. IfSome r (λ m. m.form < most_forms)) }
    {
        let mut steps = Steps::<L>::new(blank);
        let forms = self.forms.as_slice();
        let matching = Matching {
            half: Half::Insn,
            facts,
            preds: &self.preds,
        };
        recog(alloc, &self.insns, forms, &matching, insn, from, &mut steps)
    }

    /// The first form from an index on that matches an instruction.
    pub(crate) fn first_from(
        &self,
        alloc: Global,
        insn: &Rtx,
        facts: &Facts,
        from: u32,
    ) -> Result<Option<FormMatch>, Memory>
        ensures first { IfOk result (λ r. (m : FormMatch) →
            (r ≡ Some m) ↔ spec.IsFirst self.now facts.now insn.now from m) }
        ensures none { IfOk result (λ r. r ≡ None →
            steps.NoneBehind self.now facts.now insn.now from) }
        ensures small { IfOk result (λ r. IfSome r (λ m. m.form < most_forms)) }
    {
        self.first_counted::<Brand>(alloc, insn, facts, from, Blank::new(1))
    }

    /// The first form that matches an instruction, or `None` exactly where there is none such.
    pub fn recog(
        &self,
        alloc: Global,
        insn: &Rtx,
        facts: &Facts,
    ) -> Result<Option<FormMatch>, Memory>
        ensures first { IfOk result (λ r. (m : FormMatch) →
            (r ≡ Some m) ↔ spec.IsFirst self.now facts.now insn.now 0 m) }
        ensures none { IfOk result (λ r. r ≡ None → spec.NoneMatches self.now facts.now insn.now) }
    {
        self.first_from(alloc, insn, facts, 0)
    }
}
