//! Runs at the limits, of which the input is generated, and outcomes that no run meets.
use asm_out::write_function;
use byte_edge::{ByteFiles, ByteSink, ByteSource, Files, QuietFiles};
use case_text::Told;
use code_eval::{code_ending, print_line, rtl_ending};
use func_run::Standing;
use md_desc::Description;
use md_named::description_of;
use pass_refusal::PassRefusal;
use plain_data::Memory;
use rtlc_run::{Refusal, run};
use rtx_tree::{Function, Limit};
use rv_line::CodeStanding;
use std::alloc::Global;

/// The status of a run, and the line of its refusal.
fn ran<F: Files>(
    alloc: Global,
    words: &[&str],
    files: &mut F,
    text: &[u8],
) -> Result<(u8, ByteSink), Memory> {
    let mut input = ByteSource::new(alloc, text, &[])?;
    let mut output = ByteSink::new(alloc, 1_000_000, 4096, &[])?;
    let mut errors = ByteSink::new(alloc, 1000, 1000, &[])?;
    let status = run(alloc, words, files, &mut input, &mut output, &mut errors);
    Ok((status, errors))
}

/// Whether a run ended with this status, and this line.
fn is_ended(ran: &Result<(u8, ByteSink), Memory>, status: u8, line: &str) -> bool {
    match ran {
        Ok((got, errors)) => *got == status && errors.taken() == line.as_bytes(),
        Err(_) => false,
    }
}

/// Whether a run of `asm` on a text ends with this status, and this line.
fn is_assembled(alloc: Global, text: &[u8], status: u8, line: &str) -> bool {
    let mut files = QuietFiles::new(alloc);
    is_ended(&ran(alloc, &["asm"], &mut files, text), status, line)
}

/// The file `d`.
fn files_of(alloc: Global, text: &[u8]) -> Result<ByteFiles, Memory> {
    let mut files = ByteFiles::new(alloc, &[])?;
    files.put_file(b"d", text)?;
    Ok(files)
}

/// Whether a run of `list` on a description ends with this status, and this line.
fn is_listed(alloc: Global, text: &[u8], status: u8, line: &str) -> bool {
    let Ok(mut files) = files_of(alloc, text) else {
        return false;
    };
    is_ended(
        &ran(alloc, &["list", "--md", "d"], &mut files, b""),
        status,
        line,
    )
}

/// A text, `count` times over.
fn repeated(alloc: Global, text: &str, count: u32) -> Told {
    let mut whole = Told::new(alloc);
    for _ in 0..count {
        whole.text(text);
    }
    whole
}

#[test]
fn the_greatest_text_is_read(rt: HostRuntime) {
    let mut text = repeated(rt.alloc(), "                ", 1_048_576);
    assert!(rt; is_assembled(rt.alloc(), &text.out, 0, ""));
    text.text(" ");
    assert!(rt; text.out.len() == 16_777_217);
    assert!(rt; is_assembled(rt.alloc(), &text.out, 2, "rtlc: limit Text: 16777217\n"));
}

#[test]
fn a_description_has_so_many_forms(rt: HostRuntime) {
    let mut text = repeated(rt.alloc(), "(x)", 20_000);
    assert!(rt; is_listed(rt.alloc(), &text.out, 0, ""));
    text.text("(x)");
    assert!(rt; text.is_whole());
    assert!(rt; is_listed(rt.alloc(), &text.out, 2, "rtlc: limit Forms: 20001\n"));
}

/// A function of so many instructions, each of its own number.
fn long_function(alloc: Global, count: u32) -> Told {
    let mut text = Told::new(alloc);
    text.text("(function \"i\" (insn-chain ");
    for uid in 1..=count {
        text.text("(cinsn ");
        text.show(uid);
        text.text(" (set (reg:DI a0) (reg:DI a0)))");
    }
    text.text("))");
    text
}

/// Whether a function of so many instructions is assembled with this status, and this line.
fn is_long(alloc: Global, count: u32, status: u8, line: &str) -> bool {
    let text = long_function(alloc, count);
    text.is_whole() && is_assembled(alloc, &text.out, status, line)
}

#[test]
fn a_function_has_so_many_instructions(rt: HostRuntime) {
    assert!(rt; is_long(rt.alloc(), 10_000, 0, ""));
    assert!(rt; is_long(rt.alloc(), 10_001, 2, "rtlc: limit Instructions: 10001\n"));
}

/// What is told of a function that asks a call, and of lines that do.
fn told_of_asking(alloc: Global) -> Result<Vec<u8>, Memory> {
    let rtl = Standing::Asked { calls: 0 };
    let code = CodeStanding::Asked { calls: 0 };
    let mut text = Vec::new(alloc);
    print_line(b"rtl", rtl_ending(&rtl), &mut text)?;
    print_line(b"code", code_ending(None, &code), &mut text)?;
    Ok(text)
}

/// Outcomes that `eval` never meets, since its world has a reply for each line that is run.
#[test]
fn calls_without_a_reply_are_told(rt: HostRuntime) {
    let Ok(text) = told_of_asking(rt.alloc()) else {
        panic!(rt; "out of memory");
    };
    assert!(rt; text.as_slice() == b"rtl: asked, calls 0\ncode: asked, calls 0\n".as_slice());
}

/// Functions of different names but for the last, which has the name of the first.
fn many_functions(alloc: Global, count: u32) -> Told {
    let mut text = Told::new(alloc);
    for number in 1..count {
        text.text("(function \"f");
        text.show(number);
        text.text("\" (insn-chain))");
    }
    text.text("(function \"f1\" (insn-chain))");
    text
}

#[test]
fn names_are_looked_up_at_once(rt: HostRuntime) {
    let text = many_functions(rt.alloc(), 32_000);
    assert!(rt; text.is_whole());
    assert!(rt; is_assembled(rt.alloc(), &text.out, 2, "rtlc: f1:0: rule 10\n"));
}

/// A `parallel` of clobbers of different pseudo registers, and at the end the first once more.
fn long_parallel(alloc: Global, count: u32) -> Told {
    let mut text = Told::new(alloc);
    text.text("(function \"p\" (insn-chain (cinsn 5 (parallel [");
    for number in 0..count {
        text.text("(clobber (reg:DI <");
        text.show(number);
        text.text(">)) ");
    }
    text.text("(clobber (reg:DI <0>))]))))");
    text
}

#[test]
fn registers_of_a_parallel_are_looked_up_at_once(rt: HostRuntime) {
    let text = long_parallel(rt.alloc(), 10_000);
    assert!(rt; text.is_whole());
    assert!(rt; is_assembled(rt.alloc(), &text.out, 2, "rtlc: p:5: rule 8\n"));
}

/// The greatest number of bytes of an assembly.
const MOST: usize = 268_435_456;

/// The text of the assembly of a function without a name and instructions has so many bytes.
const LEAST: usize = 59;

/// How many bytes there are behind a text and the assembly of a function without a name and
/// instructions, or the number that is told where they are too many for an assembly; 0 where
/// something else is told.
fn bytes_behind(
    alloc: Global,
    description: &Description,
    text: &mut Vec<u8>,
) -> Result<usize, u64> {
    let mut items = Vec::new(alloc);
    let f = Function::empty(alloc);
    match write_function(alloc, description, 0, &f, text, &mut items) {
        Ok(()) => Ok(text.len()),
        Err(
            PassRefusal::Limit {
                which: Limit::Output,
                count,
            },
        ) => Err(count),
        Err(_) => Err(0),
    }
}

/// What is told behind so many bytes.
fn told_behind(
    alloc: Global,
    description: &Description,
    text: &mut Vec<u8>,
    size: usize,
) -> Result<usize, u64> {
    text.truncate(size);
    bytes_behind(alloc, description, text)
}

/// What is told behind a whole assembly, where one byte is too many, and where none is.
fn told_at_the_limit(
    alloc: Global,
) -> Result<(Result<usize, u64>, Result<usize, u64>, Result<usize, u64>), Refusal> {
    let mut files = files_of(alloc, b"")?;
    let description = description_of(alloc, &mut files, b"d")?;
    let blanks = "                                                                ";
    let mut text = repeated(alloc, blanks, 4_194_304);
    Ok((
        told_behind(alloc, &description, &mut text.out, MOST),
        told_behind(alloc, &description, &mut text.out, MOST - LEAST + 1),
        told_behind(alloc, &description, &mut text.out, MOST - LEAST),
    ))
}

#[test]
fn an_assembly_has_so_many_bytes(rt: HostRuntime) {
    assert!(rt;
        matches!(
            told_at_the_limit(rt.alloc()),
            Ok((Err(268_435_457), Err(268_435_457), Ok(268_435_456)))
        )
    );
}
