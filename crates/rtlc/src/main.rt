//! The program `rtlc`: it makes the real streams and files, hands the words to `run`, and ends with
//! its answer. The tests are runs at the limits, whose input is generated.
#![tactic(auto)]

#[cfg(test)]
mod run_tests;

use byte_edge::{DiskFiles, StdSink, StdSource};
use plain_data::Memory;
use rtlc_run::{out_of_memory, run};
use std::process::ExitCode;
use std::{env, io};

/// The words after the program's name. Where a word isn't UTF-8 it is the list of one empty word,
/// which is no command.
fn words(rt: &HostRuntime) -> Result<Vec<String>, Memory> {
    let mut words = Vec::new(rt.alloc());
    match env::args(rt) {
        Ok(args) => {
            for word in args.skip(1) {
                words.push(word)?;
            }
        }
        Err(error) if error.kind() == io::ErrorKind::OutOfMemory => return Err(Memory),
        Err(_) => words.push(String::new(rt.alloc()))?,
    }
    Ok(words)
}

/// The words as texts.
fn texts<'a>(rt: &HostRuntime, words: &'a [String]) -> Result<Vec<&'a str>, Memory> {
    let mut texts = Vec::new(rt.alloc());
    for word in words {
        texts.push(word.as_str())?;
    }
    Ok(texts)
}

fn start(rt: &HostRuntime) -> Result<u8, Memory> {
    let words = words(rt)?;
    let texts = texts(rt, &words)?;
    let mut files = DiskFiles::new(rt);
    let mut input = StdSource::new(rt.stdin());
    let mut output = StdSink::new(rt.stdout());
    let mut errors = StdSink::new(rt.stderr());
    Ok(run(
        rt.alloc(),
        &texts,
        &mut files,
        &mut input,
        &mut output,
        &mut errors,
    ))
}

fn main(rt: HostRuntime) -> ExitCode {
    let status = match start(&rt) {
        Ok(status) => status,
        Err(Memory) => out_of_memory(&mut StdSink::new(rt.stderr())),
    };
    ExitCode::from(status)
}
