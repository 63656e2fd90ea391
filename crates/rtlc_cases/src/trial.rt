//! Whole runs as cases: each runs the program over objects in memory, and compares what it left
//! with what was wanted. The parts of a case are those of `case_setting`.
use byte_edge::{ByteFiles, ByteSink, ByteSource};
use case_setting::{
    Fault, Setting, bytes_of, check_parts, failing, is_command, outcome, shelf_of, status_of,
    takes_of, words_of,
};
use case_text::{Case, Part, Report, Told, cases_of};
use rtlc_run::run;
use std::alloc::Global;
use std::str;

/// How many bytes of output there is room for.
const ROOM: usize = 1_048_576;

/// How many bytes of the line of a refusal there is room for.
const LINE_ROOM: usize = 65_536;

/// The objects that a run meets.
#[derive(Drop)]
struct Objects {
    files: ByteFiles,
    input: ByteSource,
    output: ByteSink,
    errors: ByteSink,
}

/// The input of a case.
fn source_of(alloc: Global, setting: Setting) -> Result<ByteSource, Fault> {
    let bytes = bytes_of(alloc, setting, "-- input")?;
    let reads = failing(alloc, setting, "-- fails read ")?;
    Ok(ByteSource::new(alloc, &bytes, &reads)?)
}

/// A sink of a case, with so much room, of which the calls that the parts with this head name are
/// to fail.
fn sink_of(alloc: Global, setting: Setting, room: usize, head: &str) -> Result<ByteSink, Fault> {
    let writes = failing(alloc, setting, head)?;
    let takes = takes_of(setting)?;
    Ok(ByteSink::new(alloc, room, takes, &writes)?)
}

/// These files and this input with the sinks of a case.
fn with_sinks(
    alloc: Global,
    setting: Setting,
    files: ByteFiles,
    input: ByteSource,
) -> Result<Objects, Fault> {
    let output = sink_of(alloc, setting, ROOM, "-- fails write ")?;
    let errors = sink_of(alloc, setting, LINE_ROOM, "-- fails tell ")?;
    Ok(Objects {
        files,
        input,
        output,
        errors,
    })
}

fn objects_of(alloc: Global, setting: Setting) -> Result<Objects, Fault> {
    let files = shelf_of(alloc, setting)?;
    let input = source_of(alloc, setting)?;
    with_sinks(alloc, setting, files, input)
}

/// The words as texts.
fn texts<'a>(alloc: Global, words: &'a [Vec<u8>]) -> Result<Vec<&'a str>, Fault> {
    let mut texts = Vec::new(alloc);
    for word in words {
        let Ok(text) = str::from_utf8(word) else {
            return Err(Fault::Unread("a word that is no text"));
        };
        texts.push(text)?;
    }
    Ok(texts)
}

/// What a run with these words leaves.
fn left_by(alloc: Global, setting: Setting, words: &[&str]) -> Result<Vec<u8>, Fault> {
    let mut objects = objects_of(alloc, setting)?;
    let status = run(
        alloc,
        words,
        &mut objects.files,
        &mut objects.input,
        &mut objects.output,
        &mut objects.errors,
    );
    outcome(
        alloc,
        status,
        objects.output.taken(),
        objects.errors.taken(),
    )
}

/// What a run with the words behind `$` leaves.
fn came(alloc: Global, setting: Setting, command: &str) -> Result<Vec<u8>, Fault> {
    let words = words_of(alloc, command)?;
    let texts = texts(alloc, &words)?;
    left_by(alloc, setting, &texts)
}

/// What a case wants.
fn wanted(alloc: Global, setting: Setting) -> Result<Vec<u8>, Fault> {
    let output = bytes_of(alloc, setting, "-- output")?;
    let errors = bytes_of(alloc, setting, "-- errors")?;
    outcome(alloc, status_of(setting)?, &output, &errors)
}

/// Tries one line of words of a case.
fn try_run(
    alloc: Global,
    setting: Setting,
    title: &[u8],
    command: &str,
    report: &mut Report,
) -> Result<(), Fault> {
    check_parts(setting.own)?;
    check_parts(setting.shared)?;
    let wanted = wanted(alloc, setting)?;
    let came = came(alloc, setting, command)?;
    report.judge(title, &wanted, &came);
    Ok(())
}

/// Tries one line of words of a case, and counts it where it can't be tried as well.
fn judge_run(alloc: Global, setting: Setting, title: &str, command: &str, report: &mut Report) {
    let mut whole = Told::new(alloc);
    whole.text(title);
    whole.text(": ");
    whole.text(command);
    match try_run(alloc, setting, &whole.out, command, report) {
        Ok(()) => {}
        Err(Fault::Unread(reason)) => report.refuse(&whole.out, reason.as_bytes()),
        Err(Fault::Memory) => report.refuse(&whole.out, b"out of memory"),
    }
}

/// Tries a case with each line of words that it has, or that its file has for all cases.
fn judge_case<'s, 't>(
    alloc: Global,
    shared: &'s [Part<'t>],
    case: &'s Case<'t>,
    report: &mut Report,
) {
    let own = case.parts.as_slice();
    let setting = Setting { own, shared };
    let has_own = own.iter().any(is_command);
    let parts = if has_own { own } else { shared };
    if !parts.iter().any(is_command) {
        report.refuse(case.title.as_bytes(), b"no words");
    }
    for part in parts {
        if is_command(part) {
            judge_run(alloc, setting, case.title, part.head, report);
        }
    }
}

/// Tries each case of a file of whole runs, and puts it to the report.
pub fn judge_runs(alloc: Global, text: &str, report: &mut Report) {
    let Ok(cases) = cases_of(alloc, text) else {
        return report.refuse(b"", b"out of memory");
    };
    if let Some((shared, cases)) = cases.split_first() {
        for case in cases {
            judge_case(alloc, &shared.parts, case, report);
        }
    }
}
