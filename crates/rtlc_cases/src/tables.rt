//! Tables of cases.
use case_text::{Report, Table, Told, push_bytes, push_shown, push_word};
use std::alloc::Global;

/// The bytes that a row stands for.
#[derive(Drop)]
struct Row {
    /// What is given to its table.
    given: Told,
    input: Told,
    wanted: Told,
}

/// The bytes of a row, unless it has a backquote that begins no escape.
fn row_of(alloc: Global, table: &Table, input: &str, wanted: &str) -> Option<Row> {
    let mut row = Row {
        given: Told::new(alloc),
        input: Told::new(alloc),
        wanted: Told::new(alloc),
    };
    let is_read = push_word(wanted, &mut row.wanted)
        && push_bytes(table.given(), &mut row.given)
        && push_word(input, &mut row.input);
    if is_read { Some(row) } else { None }
}

/// Whether all of a row was read.
fn is_whole(row: &Row) -> bool {
    row.given.is_whole() && row.input.is_whole() && row.wanted.is_whole()
}

/// The input and what is wanted, of which either may be empty.
fn sides_of(row: &str) -> Option<(&str, &str)> {
    if row == "=>" {
        return Some(("", ""));
    }
    if let Some(wanted) = row.strip_prefix("=> ") {
        return Some(("", wanted));
    }
    match row.strip_suffix(" =>") {
        Some(input) => Some((input, "")),
        None => row.split_once(" => "),
    }
}

/// Bytes as they are shown.
fn shown(alloc: Global, bytes: &[u8]) -> Told {
    let mut text = Told::new(alloc);
    push_shown(bytes, false, &mut text);
    text
}

/// Counts a row, which is right where what is told is what is wanted.
fn judge_told(alloc: Global, title: &[u8], wanted: &[u8], told: &Told, report: &mut Report) {
    let wanted = shown(alloc, wanted);
    let came = shown(alloc, &told.out);
    if told.is_whole() && wanted.is_whole() && came.is_whole() {
        report.judge(title, &wanted.out, &came.out);
    } else {
        report.refuse(title, b"what is given or the input can't be read");
    }
}

/// The text of two texts.
fn joined(alloc: Global, first: &str, second: &str) -> Told {
    let mut text = Told::new(alloc);
    text.text(first);
    text.text(second);
    text
}

/// Tells what comes of an input of the table of that name, with what was given to it. Whether there
/// is such a table.
fn answer(alloc: Global, table: &str, given: &[u8], input: &[u8], told: &mut Told) -> bool {
    base_cases::answer(alloc, table, input, told)
        || text_cases::answer(alloc, table, input, told)
        || cond_cases::answer(alloc, table, given, input, told)
        || desc_cases::answer(alloc, table, given, input, told)
        || dfa_cases::answer(alloc, table, given, input, told)
        || code_cases::answer(alloc, table, given, input, told)
        || word_cases::answer(alloc, table, input, told)
        || term_cases::answer(alloc, table, given, input, told)
        || equate_cases::answer(alloc, table, given, input, told)
}

/// Tries a row whose bytes are read.
fn try_row(alloc: Global, table: &Table, title: &[u8], row: &Row, report: &mut Report) {
    let name = table.name();
    let mut told = Told::new(alloc);
    if answer(alloc, name, &row.given.out, &row.input.out, &mut told) {
        told.need(is_whole(row));
        judge_told(alloc, title, &row.wanted.out, &told, report);
    } else {
        let reason = joined(alloc, "no table ", name);
        report.refuse(table.row().as_bytes(), &reason.out);
    }
}

/// Tries a row, and counts it where it can't be tried as well.
fn judge_row(alloc: Global, table: &Table, report: &mut Report) {
    let text = table.row();
    let Some((input, wanted)) = sides_of(text) else {
        return report.refuse(text.as_bytes(), b"no row of a table");
    };
    let input = input.trim();
    match row_of(alloc, table, input, wanted.trim()) {
        Some(row) => {
            let mut title = joined(alloc, table.name(), ": ");
            title.text(input);
            try_row(alloc, table, &title.out, &row, report);
        }
        None => report.refuse(text.as_bytes(), b"a backquote that begins no escape"),
    }
}

/// Tries each row of a file of tables, and puts it to the report.
pub fn judge_tables(alloc: Global, text: &str, report: &mut Report) {
    let mut table = Table::new(alloc);
    for line in text.lines() {
        match table.read_line(line) {
            Ok(true) => judge_row(alloc, &table, report),
            Ok(false) => {}
            Err(_) => report.refuse(line.as_bytes(), b"out of memory"),
        }
    }
    if table.is_open() {
        report.refuse(table.row().as_bytes(), b"it does not end");
    }
}
