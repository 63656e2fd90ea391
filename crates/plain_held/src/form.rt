//! Forms that are written out as rows.
ghost use Rattle.std.specs.Prelude.{◌≡◌, ◌↔◌, [], IfOk, IsTrue, None, map};
ghost use Rattle.plain_held.specs.Rows as spec;

use crate::heads::{are_statements, is_condition};
use crate::operands::are_constrained;
use crate::row::Row;
use crate::template::is_template;
use crate::test::is_test;
use crate::trees::are_trees;
use md_forms::{Form, FormHead};
use md_text::ConstraintNames;
use plain_data::Memory;
use std::alloc::Global;

fn same_head(a: FormHead, b: FormHead) -> bool
    ensures { IsTrue result ↔ (a ≡ b) }
{
    a == b
}

/// Whether a form matches and makes the instructions of a row.
fn has_patterns(alloc: Global, form: &Form, row: &Row) -> Result<bool, Memory>
    ensures { IfOk result (λ same. IsTrue same ↔
        ((form.now.patterns ≡ spec.trees_of row.now.patterns.now) ×
        (form.now.sequence ≡ spec.trees_of row.now.sequence.now))) }
{
    if !are_trees(alloc, form.patterns.as_slice(), row.patterns)? {
        return Ok(false);
    }
    are_trees(alloc, form.sequence.as_slice(), row.sequence)
}

/// Whether a form has the conditions and the statements of a row.
fn has_conditions(form: &Form, row: &Row) -> bool
    requires { IsTrue (spec.is_whole_row row.now) }
    ensures { IsTrue result ↔
        ((form.now.condition ≡ spec.condition_of row.now.condition.now) ×
        (form.now.split_condition ≡ spec.condition_of row.now.split_condition.now) ×
        (form.now.statements ≡ spec.condition_of row.now.statements.now)) }
{
    is_condition(&form.condition, row.condition)
        && is_condition(&form.split_condition, row.split_condition)
        && are_statements(&form.statements, row.statements)
}

/// Whether a form has the constraints and the template of a row.
fn has_operands(
    alloc: Global,
    names: &ConstraintNames,
    form: &Form,
    row: &Row,
) -> Result<bool, Memory>
    requires { names.now ≡ spec.names }
    ensures { IfOk result (λ same. IsTrue same ↔
        ((form.now.constraints ≡ map (spec.constrained_of spec.names) row.now.constraints.now) ×
        (form.now.template ≡ spec.template_in row.now.template.now))) }
{
    if !are_constrained(alloc, names, form.constraints.as_slice(), row.constraints)? {
        return Ok(false);
    }
    is_template(alloc, &form.template, row.template)
}

/// Whether a form has what no row has: nothing of attributes and of classes of registers.
fn has_no_others(form: &Form) -> bool
    ensures { IsTrue result ↔
        ((form.now.attributes ≡ []) × (form.now.class ≡ None) × (form.now.values ≡ []) ×
        (form.now.default ≡ [])) }
{
    form.attributes.is_empty()
        && form.class.is_none()
        && form.values.is_empty()
        && form.default.bytes().is_empty()
}

/// Whether a form is that of a row in what takes no memory to compare.
fn is_alike(form: &Form, row: &Row) -> bool
    requires { IsTrue (spec.is_whole_row row.now) }
    ensures { IsTrue result ↔ spec.IsAlike form.now row.now }
{
    same_head(form.head, row.head)
        && has_no_others(form)
        && has_conditions(form, row)
        && is_test(&form.test, row.test)
}

/// Whether a form is that of a row.
pub fn is_form(
    alloc: Global,
    names: &ConstraintNames,
    form: &Form,
    row: &Row,
) -> Result<bool, Memory>
    requires whole { IsTrue (spec.is_whole_row row.now) }
    requires names { names.now ≡ spec.names }
    ensures { IfOk result (λ same. IsTrue same ↔ (form.now ≡ spec.form_of row.now)) }
{
    if !is_alike(form, row) || !has_patterns(alloc, form, row)? {
        return Ok(false);
    }
    has_operands(alloc, names, form, row)
}
