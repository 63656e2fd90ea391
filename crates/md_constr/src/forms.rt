//! What forms ask of their operands.
ghost use Rattle.std.specs.Prelude.{◌≡◌, IfOk, map};
ghost use Rattle.md_constr.specs.machine.Tables as tables;

use crate::copies::constraints_copy;
use crate::inputs::{changed_of, inputs_of, operands_of};
use md_forms::{Entry, Form, OperandConstraint, alternatives};
use plain_data::{Items, Memory};
use std::alloc::Global;

/// What a form asks of its operands.
#[derive(Drop)]
pub struct FormConstraints {
    /// Whether the form is an accepted one. What follows is empty where it is none.
    pub accepted: bool,
    /// The constraints of its operands, in the order of the text.
    pub constraints: Items<OperandConstraint>,
    /// The numbers of the operands in its patterns.
    pub operands: Items<u64>,
    /// The numbers of its inputs.
    pub inputs: Items<u64>,
    /// The numbers of the operands that it sets or clobbers.
    pub changed: Items<u64>,
    /// How many alternatives it has.
    pub alternatives: usize,
}

fn constraints_in(alloc: Global, form: &Form) -> Result<FormConstraints, Memory>
    ensures { IfOk result (λ one. one ≡ tables.constraints_in form.now) }
{
    Ok(FormConstraints {
        accepted: true,
        constraints: constraints_copy(alloc, form.constraints.as_slice())?,
        operands: operands_of(alloc, form)?,
        inputs: inputs_of(alloc, form)?,
        changed: changed_of(alloc, form)?,
        alternatives: alternatives(form.constraints.as_slice()),
    })
}

fn constraints_of(alloc: Global, entry: &Entry) -> Result<FormConstraints, Memory>
    ensures { IfOk result (λ one. one ≡ tables.constraints_of entry.now) }
{
    match &entry.form {
        Ok(form) => constraints_in(alloc, form),
        Err(_) => Ok(FormConstraints {
            accepted: false,
            constraints: Items::new(alloc),
            operands: Items::new(alloc),
            inputs: Items::new(alloc),
            changed: Items::new(alloc),
            alternatives: 0,
        }),
    }
}

/// What each of some forms asks of its operands.
pub fn all_constraints(alloc: Global, forms: &[Entry]) -> Result<Items<FormConstraints>, Memory>
    ensures { IfOk result (λ all. all ≡ map tables.constraints_of forms.now) }
{
    let mut all = Items::new(alloc);
    for entry in forms {
        all.push(constraints_of(alloc, entry)?)?;
    }
    Ok(all)
}
