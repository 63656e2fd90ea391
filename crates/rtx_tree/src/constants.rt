//! Named numbers of a description.
use crate::name::Name;

/// A name that stands for a number.
#[derive(Drop)]
pub struct Constant {
    /// The name, as it stands in the text.
    pub name: Name,
    /// The number for which the name stands.
    pub number: i64,
}
