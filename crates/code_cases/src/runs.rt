//! Runs of lines.
use crate::lines::world;
use crate::memory::{memory_of, show_memory};
use crate::parts::{halves, number};
use case_text::Told;
use plain_data::{Items, Memory};
use rtx_tree::{MemByte, RangeAt, Reply, Start, World};
use rv_line::{CodeCalls, CodeOutcome, run_lines};
use rv_text::{CodeItem, parse_line};
use std::alloc::Global;

/// The items of a text: each part of it is a line, and the label `.L0_3` stands behind the first.
fn items(alloc: Global, text: &str) -> Result<Items<CodeItem>, Memory> {
    let mut items = Items::new(alloc);
    for part in text.split(" / ") {
        push_line(alloc, part, &mut items)?;
        push_label(&mut items)?;
    }
    Ok(items)
}

/// Appends the line that a text is, if it is one.
fn push_line(alloc: Global, text: &str, items: &mut Items<CodeItem>) -> Result<(), Memory> {
    match parse_line(alloc, text.as_bytes())? {
        Some(line) => items.push(CodeItem::Code { line }),
        None => Ok(()),
    }
}

/// Appends the label behind the first line.
fn push_label(items: &mut Items<CodeItem>) -> Result<(), Memory> {
    if items.len() != 1 {
        return Ok(());
    }
    items.push(CodeItem::Label {
        function: 0,
        uid: 3,
    })
}

/// 16 bytes of 0 from 4096 on: each address is followed by its byte.
const BYTES: [u64; 32] = [
    4096, 0, 4097, 0, 4098, 0, 4099, 0, 4100, 0, 4101, 0, 4102, 0, 4103, 0, 4104, 0, 4105, 0, 4106,
    0, 4107, 0, 4108, 0, 4109, 0, 4110, 0, 4111, 0,
];

/// A start with `a0` = 5, and with the 16 bytes below `sp`, of which none is visible but the first.
fn start(alloc: Global) -> Result<Start, Memory> {
    let mut visible = Items::new(alloc);
    visible.push(RangeAt {
        address: 4096,
        length: 1,
    })?;
    Ok(Start {
        args: [5, 0, 0, 0, 0, 0, 0, 0],
        sp: 4112,
        vars: 4112,
        ra: 64,
        saved: [0; 12],
        memory: memory_of(alloc, &BYTES)?,
        visible,
    })
}

/// A reply of 7 that writes 9 to the visible byte.
fn reply(alloc: Global) -> Result<Reply, Memory> {
    let mut writes = Items::new(alloc);
    writes.push(MemByte {
        address: 4096,
        byte: 9,
    })?;
    Ok(Reply { value: 7, writes })
}

/// A world with a reply of 7 that writes 9 to the visible byte.
fn answering_world(alloc: Global) -> Result<World, Memory> {
    let mut world = world(alloc)?;
    world.replies.push(reply(alloc)?)?;
    Ok(world)
}

fn show_calls(calls: &CodeCalls, told: &mut Told) {
    for call in calls.as_slice() {
        told.text(", ");
        told.show(call.target);
        told.text("(");
        told.debug(&call.args[0]);
        told.text(")");
        show_memory(&call.memory, told);
    }
}

fn show_outcome(outcome: &CodeOutcome, told: &mut Told) {
    match outcome {
        CodeOutcome::Stuck => told.text("stuck"),
        CodeOutcome::Running { calls } => {
            told.text("running");
            show_calls(calls, told);
        }
        CodeOutcome::Asked { calls } => {
            told.text("asked");
            show_calls(calls, told);
        }
        CodeOutcome::Returned {
            value,
            memory,
            calls,
            kept,
        } => {
            told.debug(value);
            told.text(" ");
            told.debug(&kept.sp);
            let is_saved = kept.saved == [Some(0); 12];
            told.text(if is_saved { " true" } else { " false" });
            show_memory(memory, told);
            show_calls(calls, told);
        }
    }
}

/// What a run of so many lines comes to.
fn outcome_of(alloc: Global, items: &[CodeItem], steps: u64) -> Result<CodeOutcome, Memory> {
    let start = start(alloc)?;
    let world = answering_world(alloc)?;
    run_lines(alloc, items, &start, &world, steps)
}

/// Appends what a run of so many lines comes to: what it returned, what it kept and the memory
/// then, and each call with its first argument and the memory then.
fn tell_run(alloc: Global, input: &[u8], told: &mut Told) {
    if let Some((steps, text)) = halves(input)
        && let Some(steps) = number(steps)
        && let Ok(items) = items(alloc, text)
        && let Ok(outcome) = outcome_of(alloc, items.as_slice(), steps)
    {
        show_outcome(&outcome, told);
    } else {
        told.fail();
    }
}

/// Tells what comes of an input. Whether it is a table of runs of lines.
pub fn answer(alloc: Global, table: &str, input: &[u8], told: &mut Told) -> bool {
    let is_mine = table == "runs of lines";
    if is_mine {
        tell_run(alloc, input, told);
    }
    is_mine
}
