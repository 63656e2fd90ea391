//! The cases of the whole program and of the calls that it is made of. Each word names a file of
//! cases: `rtlc_cases` tries each case, and prints for each file how many are right, and each that
//! is wrong, with what was wanted and what came. Two files are wrong on purpose. Behind the cases
//! the program is run at the real edge, on the standard input and on files as they stand on disk.
#![tactic(auto)]

mod edge;
mod tables;
mod trial;

use anyhow::{Result, ensure};
use byte_edge::{DiskFiles, Files, Sink, StdSink, write_all_of};
use case_text::{Report, Told, is_table};
use edge::try_edge;
use std::alloc::Global;
use std::{env, str};
use tables::judge_tables;
use trial::judge_runs;

/// How many bytes a file of cases may have.
const ROOM: usize = 16_777_216;

/// How many cases there are, and how many are right.
#[derive(Drop)]
struct Counts {
    cases: u64,
    right: u64,
}

/// The report on a file of cases.
fn judged(alloc: Global, text: &str) -> Report {
    let mut report = Report::new(alloc);
    if is_table(text) {
        judge_tables(alloc, text, &mut report);
    } else {
        judge_runs(alloc, text, &mut report);
    }
    report
}

/// Appends how many cases are right, behind a name.
fn show_counts(name: &str, counts: &Counts, told: &mut Told) {
    told.text(name);
    told.text(": ");
    told.show(counts.right);
    told.text(" of ");
    told.show(counts.cases);
    told.text(" right\n");
}

/// Tries the cases of a file, counts them, and gives what is told of them.
fn judge_file<F: Files>(
    alloc: Global,
    files: &mut F,
    name: &str,
    counts: &mut Counts,
) -> Result<Told> {
    let mut bytes = Vec::new(alloc);
    files.fetch(name.as_bytes(), ROOM, &mut bytes)?;
    let report = judged(alloc, str::from_utf8(&bytes)?);
    let found = Counts {
        cases: report.cases(),
        right: report.right(),
    };
    counts.right = counts.right.saturating_add(found.right);
    counts.cases = counts.cases.saturating_add(found.cases);
    let mut told = Told::new(alloc);
    show_counts(name, &found, &mut told);
    match report.wrong() {
        Some(wrong) => told.push(&wrong),
        None => told.fail(),
    }
    Ok(told)
}

fn main(rt: HostRuntime) -> Result<()> {
    let alloc = rt.alloc();
    let mut files = DiskFiles::new(&rt);
    let mut output = StdSink::new(rt.stdout());
    let mut counts = Counts { cases: 0, right: 0 };
    for name in env::args(&rt)?.skip(1) {
        let told = judge_file(alloc, &mut files, &name, &mut counts)?;
        ensure!(told.is_whole(), "out of memory");
        write_all_of(&mut output, &told.out)?;
    }
    let mut told = Told::new(alloc);
    show_counts("all", &counts, &mut told);
    write_all_of(&mut output, &told.out)?;
    try_edge(&rt)
}
