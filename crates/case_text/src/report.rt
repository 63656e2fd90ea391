//! What is told of a file of cases.
use crate::told::Told;
use std::alloc::Global;

/// How many cases there are, how many are right, and the text on each that is wrong.
#[derive(Drop)]
pub struct Report {
    cases: u64,
    right: u64,
    wrong: Told,
}

impl Report {
    /// The report on no case.
    pub fn new(alloc: Global) -> Report {
        Report {
            cases: 0,
            right: 0,
            wrong: Told::new(alloc),
        }
    }

    /// How many cases there are.
    pub fn cases(&self) -> u64 {
        self.cases
    }

    /// How many cases are right.
    pub fn right(&self) -> u64 {
        self.right
    }

    /// The text on the cases that are wrong, if it is whole: for each its title, what was wanted,
    /// and what came.
    pub fn wrong(self) -> Option<Vec<u8>> {
        self.wrong.whole()
    }

    /// Counts a case, which is right where the text that came is the one that was wanted.
    pub fn judge(&mut self, title: &[u8], wanted: &[u8], came: &[u8]) {
        self.cases = self.cases.saturating_add(1);
        if wanted == came {
            self.right = self.right.saturating_add(1);
        } else {
            push_text(b"  wrong:  ", title, &mut self.wrong);
            push_text(b"  wanted: ", wanted, &mut self.wrong);
            push_text(b"  came:   ", came, &mut self.wrong);
        }
    }

    /// Counts a case that can't be tried, which is wrong.
    pub fn refuse(&mut self, title: &[u8], reason: &[u8]) {
        self.cases = self.cases.saturating_add(1);
        push_text(b"  wrong:  ", title, &mut self.wrong);
        push_text(b"  why:    ", reason, &mut self.wrong);
    }
}

/// Appends the lines of a text, the first behind a label, and the others behind as many blanks.
fn push_text(label: &[u8], text: &[u8], out: &mut Told) {
    let mut label = label;
    for line in text.split(|byte| *byte == b'\n') {
        out.push(label);
        out.push(line);
        out.text("\n");
        label = b"          ";
    }
}
