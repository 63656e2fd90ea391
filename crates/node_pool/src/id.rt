//! Ids.
use std::alloc::AllocError;
use std::marker::PhantomData;

/// The number of a value in a pool of such values.
#[derive(Drop)]
pub struct Id<T> {
    /// The number of the value's slot.
    pub(crate) index: u32,
    /// Of which values.
    pub(crate) of: PhantomData<T>,
}

impl<T> Clone for Id<T> {
    fn clone(&self) -> Result<Self, AllocError> {
        Ok(*self)
    }
}

impl<T> Copy for Id<T> {}
