//! Files of whole runs, as cases and their parts.
use std::alloc::{AllocError, Global};

/// A part of a case: the line that heads it, which begins with `$ ` or `-- `, and the lines below.
#[derive(Drop)]
pub struct Part<'a> {
    pub head: &'a str,
    pub lines: Vec<&'a str>,
}

/// A case: its title, and its parts.
#[derive(Drop)]
pub struct Case<'a> {
    pub title: &'a str,
    pub parts: Vec<Part<'a>>,
}

impl<'a> Case<'a> {
    fn new(alloc: Global, title: &'a str) -> Case<'a> {
        Case {
            title,
            parts: Vec::new(alloc),
        }
    }

    /// Puts a line to the case. One that is in no part is a part of its own, unless it says
    /// nothing.
    fn push_line(&mut self, alloc: Global, line: &'a str) -> Result<(), AllocError> {
        if !is_head(line) {
            if let Some(part) = self.parts.last_mut() {
                part.lines.push(line)?;
                return Ok(());
            }
            if says_nothing(line) {
                return Ok(());
            }
        }
        self.parts.push(Part {
            head: line,
            lines: Vec::new(alloc),
        })?;
        Ok(())
    }
}

/// Whether a line heads a part.
fn is_head(line: &str) -> bool {
    line == "$" || line.starts_with("$ ") || line.starts_with("-- ")
}

/// Whether a line is blank or a comment.
pub fn says_nothing(line: &str) -> bool {
    line.is_empty() || line.starts_with("#")
}

/// The cases of a file of whole runs, each below its line `== TITLE`, and before them, as a case
/// without a title, what stands before the first.
pub fn cases_of<'a>(alloc: Global, text: &'a str) -> Result<Vec<Case<'a>>, AllocError> {
    let mut cases = Vec::new(alloc);
    cases.push(Case::new(alloc, ""))?;
    for line in text.lines() {
        if let Some(title) = line.strip_prefix("== ") {
            cases.push(Case::new(alloc, title))?;
        } else if let Some(case) = cases.last_mut() {
            case.push_line(alloc, line)?;
        }
    }
    Ok(cases)
}
