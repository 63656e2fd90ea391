//! Named numbers of a description.
ghost use Rattle.std.specs.Prelude.{◌≡◌};
ghost use Rattle.name_places.specs.Names as spec;

use crate::table::{NameTable, Named};
use rtx_tree::Constant;

impl Named for Constant {
    ghost name = { λ c. c.name };

    fn name(&self) -> &[u8] {
        self.name.bytes()
    }
}

/// Named numbers, in order.
pub type Constants = NameTable<Constant>;

/// The number of the first constant of a name.
pub fn constant_named(constants: &Constants, name: &[u8]) -> Option<i64>
    ensures { result ≡ spec.constant_named constants.now name.now }
{
    match constants.first(name) {
        Some(constant) => Some(constant.number),
        None => None,
    }
}
