//! Lines, and their steps.
use crate::memory::memory_of;
use crate::parts::{halves, numbers};
use case_text::Told;
use plain_data::{Items, Memory};
use rtx_tree::{Name, SymbolAt, World};
use rv_line::{LineEnd, RvState, step_line};
use rv_text::{Line, parse_line, print_line};
use std::alloc::Global;

/// The line that a text writes.
pub fn line_in(alloc: Global, text: &[u8]) -> Option<Line> {
    match parse_line(alloc, text) {
        Ok(line) => line,
        Err(_) => None,
    }
}

/// A line as it is printed.
fn printed(alloc: Global, line: &Line) -> Option<Vec<u8>> {
    let mut out = Vec::new(alloc);
    if print_line(alloc, line, &mut out).is_err() {
        return None;
    }
    Some(out)
}

/// Appends bytes, with `\t` for each tab.
fn show_tabs(bytes: &[u8], told: &mut Told) {
    for byte in bytes {
        if *byte == b'\t' {
            told.text("\\t");
        } else {
            told.push(&[*byte]);
        }
    }
}

/// Appends a line as it is printed, and where that isn't read as the line again.
fn show_line(alloc: Global, line: &Line, told: &mut Told) {
    if let Some(first) = printed(alloc, line)
        && let Some(line) = line_in(alloc, first.as_slice())
        && let Some(again) = printed(alloc, &line)
    {
        show_tabs(first.as_slice(), told);
        let is_same = again.as_slice() == first.as_slice();
        told.text(if is_same { "" } else { " is read otherwise" });
    } else {
        told.fail();
    }
}

/// Appends a line as it is printed, with `\t` for each tab, and where that isn't read as the line
/// again; or that the text is no line.
fn tell_line(alloc: Global, text: &[u8], told: &mut Told) {
    match parse_line(alloc, text) {
        Ok(Some(line)) => show_line(alloc, &line, told),
        Ok(None) => told.text("no line"),
        Err(_) => told.fail(),
    }
}

/// Appends the parts of a line and what it does.
fn tell_parts(alloc: Global, text: &[u8], told: &mut Told) {
    let Some(line) = line_in(alloc, text) else {
        return told.fail();
    };
    told.text("rd ");
    told.show(line.rd);
    told.text(" rs ");
    told.show(line.rs);
    told.text(" rt ");
    told.show(line.rt);
    told.text(" imm ");
    told.show(line.imm);
    told.text(" ");
    told.debug(&line.action());
}

/// A world with the function `g` at 8192 and with no reply.
pub fn world(alloc: Global) -> Result<World, Memory> {
    let mut symbols = Items::new(alloc);
    symbols.push(SymbolAt {
        name: Name::of(alloc, b"g")?,
        address: 8192,
    })?;
    Ok(World {
        symbols,
        replies: Items::new(alloc),
    })
}

/// 16 bytes of 0x81 from 4096 on: each address is followed by its byte.
const BYTES: [u64; 32] = [
    4096, 0x81, 4097, 0x81, 4098, 0x81, 4099, 0x81, 4100, 0x81, 4101, 0x81, 4102, 0x81, 4103, 0x81,
    4104, 0x81, 4105, 0x81, 4106, 0x81, 4107, 0x81, 4108, 0x81, 4109, 0x81, 4110, 0x81, 4111, 0x81,
];

/// A machine with 16 bytes of 0x81 from 4096 on. `sp` stands there, `ra` and `s0` hold 64, `a1` and
/// what follows it what is given.
fn machine(alloc: Global, values: &[u64]) -> Result<RvState, Memory> {
    let mut state = RvState {
        regs: [None; 32],
        entry_ra: 64,
        memory: memory_of(alloc, &BYTES)?,
    };
    state.set_register(1, 64);
    state.set_register(2, 4096);
    state.set_register(8, 64);
    for (reg, value) in [11, 12].into_iter().zip(values) {
        state.set_register(reg, *value);
    }
    Ok(state)
}

fn show_step(end: LineEnd, a0: Option<u64>, told: &mut Told) {
    told.debug(&end);
    told.text(" ");
    match a0 {
        Some(value) => told.show(value.cast_signed()),
        None => told.text("-"),
    }
}

/// Appends how a line ends where registers have these values, and what `a0` holds then.
fn show_line_step(alloc: Global, line: &Line, values: &[u64], told: &mut Told) {
    if let Ok(world) = world(alloc)
        && let Ok(mut state) = machine(alloc, values)
    {
        let end = step_line(line, &mut state, &world);
        show_step(end, state.register(10), told);
    } else {
        told.fail();
    }
}

/// Appends how a line ends, and what `a0` holds then, as a signed number.
fn tell_step(alloc: Global, input: &[u8], told: &mut Told) {
    if let Some((text, values)) = halves(input)
        && let Some(values) = numbers(alloc, values)
        && let Some(line) = line_in(alloc, text.as_bytes())
    {
        show_line_step(alloc, &line, values.as_slice(), told);
    } else {
        told.fail();
    }
}

/// Tells what comes of an input. Whether it is a table of lines.
pub fn answer(alloc: Global, table: &str, input: &[u8], told: &mut Told) -> bool {
    match table {
        "lines" => tell_line(alloc, input, told),
        "parts of lines" => tell_parts(alloc, input, told),
        "steps of lines" => tell_step(alloc, input, told),
        _ => return false,
    }
    true
}
