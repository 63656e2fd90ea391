//! Forms with their reasons, attributes and alternatives.
use crate::parts::{forms_in, halves, operands_of};
use case_text::Told;
use md_attr::{Attributes, enabled, has_alternative, value};
use md_constr::{Constraints, alternatives_of, fits};
use md_forms::{Entry, Forms, names_of};
use md_pred::PredTable;
use rtx_tree::{Name, Operands};
use std::alloc::Global;
use text_cases::trees_in;

/// Appends the name of each form of a description, and `ok` or the number of the reason for which
/// it is set aside.
fn tell_forms(alloc: Global, given: &[u8], input: &[u8], told: &mut Told) {
    if let Some(forms) = joined_forms(alloc, given, input)
        && let Ok(names) = names_of(alloc, forms.as_slice())
    {
        show_forms(forms.as_slice(), names.as_slice(), told);
    } else {
        told.fail();
    }
}

fn show_forms(forms: &[Entry], names: &[Name], told: &mut Told) {
    let mut gap = b"".as_slice();
    for (form, name) in forms.iter().zip(names) {
        told.push(gap);
        show_form(form, name, told);
        gap = b", ";
    }
}

fn show_form(form: &Entry, name: &Name, told: &mut Told) {
    told.push(name.bytes());
    match &form.form {
        Ok(_) => told.text(" ok"),
        Err(reason) => {
            told.text(" ");
            told.show(reason.number());
        }
    }
}

/// Appends the value of an attribute in each alternative of a form: the value, or `-` where there
/// is no such attribute, and `!` behind it where the alternative can't be used.
fn show_values(attrs: &Attributes, name: &Name, form: u32, told: &mut Told) {
    for alternative in 0..31 {
        if has_alternative(attrs, form, alternative) {
            match value(attrs, name, form, alternative) {
                Some(found) => told.push(found.bytes()),
                None => told.text("-"),
            }
            let is_enabled = enabled(attrs, form, alternative);
            told.text(if is_enabled { " " } else { "! " });
        }
    }
    told.text(";");
}

/// Appends the values of an attribute in so many forms.
fn show_all_values(attrs: &Attributes, name: &Name, count: u32, told: &mut Told) {
    for form in 0..count {
        show_values(attrs, name, form, told);
    }
}

/// Appends the values of the attribute `t` in all forms of a description.
fn tell_values(alloc: Global, input: &[u8], told: &mut Told) {
    if let Some(forms) = forms_in(alloc, input)
        && let Ok(attrs) = Attributes::of(alloc, &forms)
        && let Ok(name) = Name::of(alloc, b"t")
    {
        show_all_values(&attrs, &name, count_of(&forms), told);
    } else {
        told.fail();
    }
}

/// Appends for each alternative of a form whether operands fit it: 1 where they do. The form and
/// the operands are the input.
fn tell_fitting(alloc: Global, given: &[u8], input: &[u8], told: &mut Told) {
    if let Some((form, operands)) = halves(input)
        && let Some(trees) = trees_in(alloc, operands)
        && let Some(operands) = operands_of(alloc, trees.as_slice())
        && let Some(forms) = joined_forms(alloc, given, form)
    {
        show_fitting(alloc, &forms, &operands, told);
    } else {
        told.fail();
    }
}

/// The forms of two texts, one behind the other.
fn joined_forms(alloc: Global, given: &[u8], input: &[u8]) -> Option<Forms> {
    let mut text = Told::new(alloc);
    text.push(given);
    text.push(input);
    let Some(whole) = text.whole() else {
        return None;
    };
    forms_in(alloc, whole.as_slice())
}

fn count_of(forms: &Forms) -> u32 {
    u32::try_from(forms.len()).unwrap_or(0)
}

fn show_fitting(alloc: Global, forms: &Forms, operands: &Operands, told: &mut Told) {
    if let Ok(table) = Constraints::of(alloc, forms)
        && let Ok(preds) = PredTable::of(alloc, forms)
    {
        let last = count_of(forms).saturating_sub(1);
        show_fits(&table, &preds, last, operands, told);
    } else {
        told.fail();
    }
}

/// Appends for each alternative of a form whether operands fit it.
fn show_fits(
    table: &Constraints,
    preds: &PredTable,
    form: u32,
    operands: &Operands,
    told: &mut Told,
) {
    for alternative in 0..alternatives_of(table, form) {
        let is_fit = fits(table, preds, form, alternative, operands);
        told.text(if is_fit { "1" } else { "0" });
    }
}

/// Tells what comes of an input. Whether it is a table of forms.
pub fn answer(alloc: Global, table: &str, given: &[u8], input: &[u8], told: &mut Told) -> bool {
    match table {
        "forms" => tell_forms(alloc, given, input, told),
        "attributes" => tell_values(alloc, input, told),
        "alternatives" => tell_fitting(alloc, given, input, told),
        _ => return false,
    }
    true
}
