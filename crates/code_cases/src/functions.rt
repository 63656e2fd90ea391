//! Graphs of chains, and the rules that functions keep.
ghost use Rattle.std.specs.Prelude.{◌≡◌, ◌<◌, ◌^◌, All, true, length};

use crate::parts::{function_in, functions_in};
use case_text::Told;
use rtl_chain::{greatest_uid, instruction_count, next_pseudo};
use rtl_func::{Block, CheckRefusal, blocks, check, reaches_exit, successors};
use rtx_tree::Function;
use std::alloc::Global;

fn show_place(of: Option<u32>, told: &mut Told) {
    match of {
        Some(place) => told.show(place),
        None => told.text("-1"),
    }
}

fn show_blocks(blocks: &[Block], told: &mut Told) {
    for block in blocks {
        told.text(" ");
        told.show(block.first);
        told.text("-");
        told.show(block.end);
    }
    told.text(";");
}

/// Appends where each place and the exit lead.
fn show_successors(f: &Function, told: &mut Told)
    requires { length f.now.insns < 2 ^ 32 }
{
    let end = u32::try_from(f.insns.len()).unwrap_or(0);
    for index in 0..=end {
        let next = successors(f, index);
        told.text(" ");
        show_place(next.first, told);
        told.text("|");
        show_place(next.second, told);
    }
}

/// Appends whether the exit is reached, the blocks, and where each place and the exit lead.
fn tell_graph(alloc: Global, input: &[u8], told: &mut Told) {
    if let Some(f) = function_in(alloc, input)
        && let Ok(is_reached) = reaches_exit(alloc, &f)
        && let Ok(blocks) = blocks(alloc, &f)
    {
        told.text(if is_reached { "exit;" } else { "none;" });
        show_blocks(blocks.as_slice(), told);
        show_successors(&f, told);
    } else {
        told.fail();
    }
}

fn is_short(f: &Function) -> bool
    ensures { result ≡ true → length f.now.insns < 2 ^ 32 }
{
    f.insns.len() < 100_000
}

fn are_short(functions: &[Function]) -> bool
    ensures { result ≡ true → All (λ f. length f.insns < 2 ^ 32) functions.now }
{
    functions.iter().all(|f| is_short(f))
}

/// Appends the uid and the rule that are told of the last of one function or two, or `-`.
fn tell_rule(alloc: Global, input: &[u8], told: &mut Told) {
    let Some(functions) = functions_in(alloc, input) else {
        return told.fail();
    };
    let functions = functions.as_slice();
    if functions.is_empty() || !are_short(functions) {
        return told.fail();
    }
    let index = if functions.len() > 1 { 1 } else { 0 };
    match check(alloc, functions, index) {
        Ok(()) => told.text("-"),
        Err(CheckRefusal::IllFormed { uid, rule }) => {
            told.show(uid);
            told.text(" ");
            told.show(rule);
        }
        Err(CheckRefusal::Memory) => told.fail(),
    }
}

/// Appends how many instructions a chain has, its greatest uid and the next pseudo register.
fn tell_counts(alloc: Global, input: &[u8], told: &mut Told) {
    let Some(f) = function_in(alloc, input) else {
        return told.fail();
    };
    let insns = f.insns.as_slice();
    told.show(instruction_count(insns));
    told.text(" ");
    told.show(greatest_uid(insns));
    told.text(" ");
    told.show(next_pseudo(insns));
}

/// Tells what comes of an input. Whether it is a table of functions.
pub fn answer(alloc: Global, table: &str, input: &[u8], told: &mut Told) -> bool {
    match table {
        "graphs" => tell_graph(alloc, input, told),
        "rules" => tell_rule(alloc, input, told),
        "counts" => tell_counts(alloc, input, told),
        _ => return false,
    }
    true
}
