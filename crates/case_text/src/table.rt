//! Files of tables, line by line.
use crate::case::says_nothing;
use std::alloc::{AllocError, Global};

/// A table so far: its name, the lines that are given to it, and its last row.
#[derive(Drop)]
pub struct Table<'a> {
    name: &'a str,
    given: Vec<&'a str>,
    is_giving: bool,
    row: String,
    is_whole: bool,
}

/// Whether a file of cases is one of tables: its first line that says anything begins a table.
pub fn is_table(text: &str) -> bool {
    text.lines()
        .find(|line| !says_nothing(line))
        .is_some_and(|line| line.starts_with("table "))
}

impl<'a> Table<'a> {
    /// No table yet.
    pub fn new(alloc: Global) -> Table<'a> {
        Table {
            name: "",
            given: Vec::new(alloc),
            is_giving: false,
            row: String::new(alloc),
            is_whole: false,
        }
    }

    /// The name in the last line `table NAME`.
    pub fn name(&self) -> &'a str {
        self.name
    }

    /// The lines of the last block `given .. end` of the table.
    pub fn given(&self) -> &[&'a str] {
        self.given.as_slice()
    }

    /// The last row, its lines joined.
    pub fn row(&self) -> &str {
        self.row.as_str()
    }

    /// Whether a block or a row has begun and not ended.
    pub fn is_open(&self) -> bool {
        self.is_giving || !self.is_whole && !self.row.is_empty()
    }

    /// Reads one line more. Whether a row ends with it.
    pub fn read_line(&mut self, line: &'a str) -> Result<bool, AllocError> {
        if self.is_giving {
            return self.read_given(line);
        }
        if self.is_whole {
            self.row.clear();
            self.is_whole = false;
        }
        if self.row.is_empty() && self.is_setting(line) {
            return Ok(false);
        }
        self.read_row(line.trim())
    }

    fn read_given(&mut self, line: &'a str) -> Result<bool, AllocError> {
        if line == "end" {
            self.is_giving = false;
        } else {
            self.given.push(line)?;
        }
        Ok(false)
    }

    /// Whether a line is none of a row: it says nothing, or begins a table or a block.
    fn is_setting(&mut self, line: &'a str) -> bool {
        if let Some(name) = line.strip_prefix("table ") {
            self.name = name;
            self.given.clear();
            return true;
        }
        if line == "given" {
            self.given.clear();
            self.is_giving = true;
            return true;
        }
        says_nothing(line)
    }

    fn read_row(&mut self, line: &str) -> Result<bool, AllocError> {
        if let Some(part) = line.strip_suffix("`") {
            self.row.push_str(part)?;
            return Ok(false);
        }
        self.row.push_str(line)?;
        self.is_whole = true;
        Ok(true)
    }
}
