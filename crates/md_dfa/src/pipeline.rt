//! A pipeline.
ghost use Rattle.std.specs.Prelude.{◌≡◌, ◌<◌, List, ℕ, Some, IfOk, length, slice_get, option_map};
ghost use Rattle.md_forms.specs.declared.form.Entry.{Entry};
ghost use Rattle.md_attr.specs.machine.Tables.{AreAttributesOf};
ghost use Rattle.md_dfa.specs.Pipeline as spec;

use crate::reservation::{Reservation, reservations_of};
use crate::test::holds;
use crate::units::units_of;
use dfa_ways::Ways;
use md_attr::Attributes;
use md_forms::Entry;
use plain_data::{Items, Memory};
use std::alloc::Global;

/// The reservations of a description.
#[derive(Drop)]
pub struct Pipeline {
    /// The reservations, in the order of the text.
    pub reservations: Items<Reservation>,
}

impl Pipeline {
    /// How many reservations there are.
    pub fn count(&self) -> usize
        ensures { result ≡ length self.now.reservations }
    {
        self.reservations.len()
    }

    /// The reservation of an instruction that a form matches, in an alternative of the form: the
    /// first whose test holds. It is `None` exactly where there is none.
    pub fn reservation(&self, attrs: &Attributes, form: u32, alternative: u32) -> Option<usize>
        ensures { (forms : List Entry) → AreAttributesOf attrs.now forms →
            result ≡ spec.reservation_of self.now forms form alternative }
    {
        let reservations = self.reservations.as_slice();
        for (at, reservation) in reservations.iter().enumerate() {
            if holds(&reservation.test, attrs, form, alternative) {
                return Some(at);
            }
        }
        None
    }

    /// How many cycles later what an instruction of a reservation sets may be read.
    pub fn latency(&self, reservation: usize) -> u32
        requires { reservation < length self.now.reservations }
        ensures { option_map (λ r. r.latency) (slice_get self.now.reservations reservation)
            ≡ Some result }
    {
        self.reservations.item(reservation).latency
    }

    /// The ways in which an instruction of a reservation takes units, in the order in which they are
    /// tried.
    pub fn ways(&self, reservation: usize) -> &Ways
        requires { reservation < length self.now.reservations }
        ensures { option_map (λ r. r.ways) (slice_get self.now.reservations reservation)
            ≡ Some result.now }
    {
        &self.reservations.item(reservation).ways
    }
}

/// The pipeline that a description's forms define.
///
/// A form that defines units by which there would be more than 64 defines none. A form of a
/// reservation that is outside what is read, or whose expression is, is passed over. So whoever has a
/// reservation has ways to try.
#[tactic(auto, unfolding(crate::specs::Pipeline::pipeline_in))]
pub fn pipeline_in(alloc: Global, forms: &[Entry]) -> Result<Pipeline, Memory>
    ensures { IfOk result (λ pipeline. pipeline ≡ spec.pipeline_in forms.now) }
{
    let units = units_of(alloc, forms)?;
    Ok(Pipeline {
        reservations: reservations_of(alloc, units.as_slice(), forms)?,
    })
}
