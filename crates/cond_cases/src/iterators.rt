//! What descriptions are expanded to.
use case_text::Told;
use md_iter::{Expanded, IterRefusal, expand_forms};
use name_places::Constants;
use rtx_tree::Name;
use std::alloc::Global;
use text_cases::{show_tree, trees_in};

/// The constants that a text defines.
pub fn constants_in(alloc: Global, text: &[u8]) -> Option<Constants> {
    match expand_forms(alloc, trees_in(alloc, text)?.as_slice()) {
        Ok(expanded) => Some(expanded.constants),
        Err(_) => None,
    }
}

/// Appends the forms of a description in two parts, each with the conditions of its values, and the
/// constants behind them; of more than 20 forms only how many there are.
pub fn tell(alloc: Global, given: &[u8], input: &[u8], told: &mut Told) {
    let mut text = Told::new(alloc);
    text.push(given);
    text.push(input);
    let Some(trees) = trees_in(alloc, text.out.as_slice()) else {
        return told.fail();
    };
    match expand_forms(alloc, trees.as_slice()) {
        Ok(expanded) => show(&expanded, told),
        Err(IterRefusal::Limit { form }) => {
            told.text("limit at ");
            told.show(form);
        }
        Err(IterRefusal::Memory) => told.fail(),
    }
    told.need(text.is_whole());
}

fn show(expanded: &Expanded, told: &mut Told) {
    if expanded.forms.len() > 20 {
        told.show(expanded.forms.len());
        return told.text(" forms");
    }
    for form in expanded.forms.as_slice() {
        told.gap();
        show_tree(&form.tree, told);
        show_conditions(form.conditions.as_slice(), told);
    }
    for constant in expanded.constants.as_slice() {
        told.gap();
        told.push(constant.name.bytes());
        told.text("=");
        told.show(constant.number);
    }
}

fn show_conditions(conditions: &[Name], told: &mut Told) {
    for condition in conditions {
        if !condition.bytes().is_empty() {
            told.text(" & ");
            told.push(condition.bytes());
        }
    }
}
