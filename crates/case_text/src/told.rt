//! What is told of the input of a case.
use std::alloc::Global;
use std::fmt::{Debug, Display};

/// What is told so far. It is not whole where something of it could not be told, since memory ran
/// out or the input could not be read.
#[derive(Drop)]
pub struct Told {
    alloc: Global,
    /// The text so far.
    pub out: Vec<u8>,
    is_whole: bool,
}

impl Told {
    /// Nothing yet.
    pub fn new(alloc: Global) -> Told {
        Told {
            alloc,
            out: Vec::new(alloc),
            is_whole: true,
        }
    }

    /// Says that the text is not whole.
    pub fn fail(&mut self) {
        self.is_whole = false;
    }

    /// Says that the text is not whole where a part of it is not told.
    pub fn need(&mut self, is_told: bool) {
        self.is_whole &= is_told;
    }

    /// Whether the text is whole.
    pub fn is_whole(&self) -> bool {
        self.is_whole
    }

    /// Appends bytes.
    pub fn push(&mut self, bytes: &[u8]) {
        self.is_whole &= self.out.extend_from_slice(bytes).is_ok();
    }

    /// Appends a text.
    pub fn text(&mut self, text: &str) {
        self.push(text.as_bytes());
    }

    /// Appends a blank where something stands before it.
    pub fn gap(&mut self) {
        if !self.out.is_empty() {
            self.push(b" ");
        }
    }

    /// Appends a text, behind a blank where something stands before it.
    pub fn apart(&mut self, text: &str) {
        self.gap();
        self.push(text.as_bytes());
    }

    /// Appends a value as it is displayed.
    pub fn show<D: Display + Drop>(&mut self, value: D) {
        match format!(in self.alloc; "{value}") {
            Ok(text) => self.push(text.as_bytes()),
            Err(_) => self.is_whole = false,
        }
    }

    /// Appends a value as it is debugged.
    pub fn debug<D: Debug>(&mut self, value: &D) {
        match format!(in self.alloc; "{value:?}") {
            Ok(text) => self.push(text.as_bytes()),
            Err(_) => self.is_whole = false,
        }
    }

    /// All that is told, if it is whole.
    pub fn whole(self) -> Option<Vec<u8>> {
        if self.is_whole { Some(self.out) } else { None }
    }
}
