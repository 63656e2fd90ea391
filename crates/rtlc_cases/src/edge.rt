//! The program over the real streams and the real files, with more than 64 KiB of each: a
//! description that is not there, one of more than 64 KiB, an input of more than 64 KiB, and an
//! output of more than 64 KiB. What it tells of a refusal goes to the output too, and behind each
//! run stands its status.
use anyhow::Result;
use byte_edge::{DiskFiles, StdSink, StdSource, write_all_of};
use rtlc_run::run;

/// The words of each run.
const RUNS: [[&str; 3]; 3] = [
    ["list", "--md", "gone.md"],
    ["recog", "--md", "gone.md"],
    ["recog", "--md", "big.md"],
];

/// Runs the program on words.
fn try_words(rt: &HostRuntime, words: &[&str]) -> Result<()> {
    let mut files = DiskFiles::new(rt);
    let mut input = StdSource::new(rt.stdin());
    let mut output = StdSink::new(rt.stdout());
    let mut errors = StdSink::new(rt.stdout());
    let status = run(
        rt.alloc(),
        words,
        &mut files,
        &mut input,
        &mut output,
        &mut errors,
    );
    let told = format!(in rt.alloc(); "status {status}\n")?;
    Ok(write_all_of(&mut output, told.as_bytes())?)
}

/// Runs the program at the real edge, on each list of words.
pub fn try_edge(rt: &HostRuntime) -> Result<()> {
    for words in &RUNS {
        try_words(rt, words)?;
    }
    Ok(())
}
