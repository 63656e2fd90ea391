//! The reservations of descriptions.
use crate::ways::show;
use case_text::Told;
use md_attr::{Attributes, has_alternative};
use md_dfa::{Pipeline, pipeline_in};
use md_forms::forms_of;
use md_iter::{Expanded, expand_forms};
use plain_data::Memory;
use std::alloc::Global;
use text_cases::trees_in;

/// Appends the latency and the ways of each reservation.
fn show_reservations(pipeline: &Pipeline, told: &mut Told) {
    for reservation in pipeline.reservations.as_slice() {
        told.gap();
        told.show(reservation.latency);
        told.text(":");
        show(reservation.ways.as_slice(), told);
    }
}

/// Appends the reservation of an alternative of a form, or that it has none.
fn show_reserved(
    pipeline: &Pipeline,
    attrs: &Attributes,
    form: u32,
    alternative: u32,
    told: &mut Told,
) {
    told.gap();
    match pipeline.reservation(attrs, form, alternative) {
        Some(place) => told.show(place),
        None => told.text("-"),
    }
}

/// Appends the reservations of the alternatives of so many forms.
fn show_forms(pipeline: &Pipeline, attrs: &Attributes, count: usize, told: &mut Told) {
    let mut form: u32 = 0;
    for _form in 0..count {
        for alternative in 0..30 {
            if has_alternative(attrs, form, alternative) {
                show_reserved(pipeline, attrs, form, alternative, told);
            }
        }
        form = form.wrapping_add(1);
    }
}

fn tell_expanded(alloc: Global, expanded: &Expanded, told: &mut Told) -> Result<(), Memory> {
    let forms = forms_of(alloc, expanded.forms.as_slice(), &expanded.constants)?;
    let pipeline = pipeline_in(alloc, forms.as_slice())?;
    let attrs = Attributes::of(alloc, &forms)?;
    show_reservations(&pipeline, told);
    told.text(";");
    show_forms(&pipeline, &attrs, forms.len(), told);
    Ok(())
}

/// Appends the reservations of a description, and behind a semicolon those of the alternatives of
/// its forms.
pub fn tell(alloc: Global, input: &[u8], told: &mut Told) {
    if let Some(trees) = trees_in(alloc, input)
        && let Ok(expanded) = expand_forms(alloc, trees.as_slice())
        && tell_expanded(alloc, &expanded, told).is_ok()
    {
        return;
    }
    told.fail()
}
