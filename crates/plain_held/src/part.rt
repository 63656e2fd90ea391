//! The parts of the table of the plain forms.
ghost use Rattle.std.specs.Prelude.{◌≡◌};
ghost use Rattle.plain_held.specs.Parts as spec;
ghost use Rattle.plain_held.specs.Parts.{AreRows};

use crate::row::Row;
use crate::table::{
    bits, constraints, equalities, extensions, jumps, moves, orders, predicates, quotients, shifts,
    standard_comparisons, sums, sums_joined, truncations,
};

/// A part of the table.
#[derive(Clone, Copy)]
pub enum Part {
    /// The constraints.
    Constraints,
    /// The predicates.
    Predicates,
    /// Moves.
    Moves,
    /// Sums, differences and products.
    Sums,
    /// Quotients, remainders and negations.
    Quotients,
    /// Operations on bits.
    Bits,
    /// Shifts.
    Shifts,
    /// Extensions.
    Extensions,
    /// Truncations.
    Truncations,
    /// Comparisons by less, more and at least.
    Orders,
    /// Comparisons by at most, and for equality.
    Equalities,
    /// The standard names of comparisons.
    StandardComparisons,
    /// Branches, jumps, calls and returns.
    Jumps,
    /// Two sums, one after the other.
    SumsJoined,
}

/// The parts, in the order of the forms.
const PARTS: [Part; 14] = [
    Part::Constraints,
    Part::Predicates,
    Part::Moves,
    Part::Sums,
    Part::Quotients,
    Part::Bits,
    Part::Shifts,
    Part::Extensions,
    Part::Truncations,
    Part::Orders,
    Part::Equalities,
    Part::StandardComparisons,
    Part::Jumps,
    Part::SumsJoined,
];

pub fn all_parts() -> &'static [Part]
    ensures { result.now ≡ spec.all_parts }
{
    &PARTS
}

impl Part {
    /// The rows of a part.
    pub fn rows(self) -> &'static [Row]
        ensures { AreRows (spec.forms_in self) result.now }
    {
        match self {
            Part::Constraints => constraints(),
            Part::Predicates => predicates(),
            Part::Moves => moves(),
            Part::Sums => sums(),
            Part::Quotients => quotients(),
            Part::Bits => bits(),
            Part::Shifts => shifts(),
            Part::Extensions => extensions(),
            Part::Truncations => truncations(),
            Part::Orders => orders(),
            Part::Equalities => equalities(),
            Part::StandardComparisons => standard_comparisons(),
            Part::Jumps => jumps(),
            Part::SumsJoined => sums_joined(),
        }
    }
}
