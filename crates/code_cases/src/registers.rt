//! Registers: uses, liveness, conflicts, homes and layouts.
use crate::parts::{function_in, halves, numbers};
use assign::{Home, Homes, Layout, assign, layout};
use case_text::Told;
use lisp_read::{Tree, atom, items};
use live::live_rows_of;
use live_rows::{Node, live_rows};
use plain_data::{Items, Memory};
use reg_conflicts::conflict_rows;
use reg_rows::{RegRow, has};
use reg_uses::{does_define, does_use, insn_defines, insn_uses, is_return, return_uses};
use rtx_tree::Insn;
use rv_regs::{allocation_order, kept_registers, saved_registers};
use std::alloc::Global;
use text_cases::trees_in;
use text_words::number_in;

fn show(regs: &[u32], told: &mut Told) {
    for reg in regs {
        told.text(" ");
        told.show(*reg);
    }
}

fn show_found(regs: Result<Items<u32>, Memory>, told: &mut Told) {
    match regs {
        Ok(regs) => show(regs.as_slice(), told),
        Err(_) => told.fail(),
    }
}

fn show_insn(alloc: Global, insn: &Insn, told: &mut Told) {
    let is_return = is_return(insn);
    told.apart(if is_return { "return uses" } else { "uses" });
    show_found(insn_uses(alloc, insn), told);
    told.apart("defines");
    show_found(insn_defines(alloc, insn), told);
    told.text(";");
}

/// Appends the registers that each instruction of a chain uses and defines, and what a return uses.
fn tell_uses(alloc: Global, input: &[u8], told: &mut Told) {
    let Some(f) = function_in(alloc, input) else {
        return told.fail();
    };
    for insn in f.insns.as_slice() {
        show_insn(alloc, insn, told);
    }
    told.apart("at the end");
    show_found(return_uses(alloc, &f), told);
}

fn show_asked(insn: &Insn, reg: u32, told: &mut Told) {
    told.gap();
    match (does_use(insn, reg), does_define(insn, reg)) {
        (true, true) => told.text("both"),
        (true, false) => told.text("uses"),
        (false, true) => told.text("defines"),
        (false, false) => told.text("neither"),
    }
}

/// Appends what each instruction of a chain does with some registers, each asked by itself.
fn tell_asked(alloc: Global, input: &[u8], told: &mut Told) {
    if let Some((chain, regs)) = halves(input)
        && let Some(regs) = numbers(alloc, regs)
        && let Some(f) = function_in(alloc, chain.as_bytes())
    {
        for insn in f.insns.as_slice() {
            for reg in regs.as_slice() {
                match u32::try_from(*reg) {
                    Ok(reg) => show_asked(insn, reg, told),
                    Err(_) => told.fail(),
                }
            }
            told.text(";");
        }
    } else {
        told.fail();
    }
}

/// Appends the registers below 96 that are live before each place of a function.
fn tell_live(alloc: Global, input: &[u8], told: &mut Told) {
    if let Some(f) = function_in(alloc, input)
        && let Ok(live) = live_rows_of(alloc, &f)
    {
        for at in 0..live.len() {
            show_row(live.as_slice(), at, told);
        }
    } else {
        told.fail();
    }
}

/// The number that an atom writes.
fn number_of(tree: &Tree) -> Option<u32> {
    if let Some(word) = atom(tree)
        && let Some(number) = number_in(word.bytes())
    {
        u32::try_from(number).ok()
    } else {
        None
    }
}

/// The numbers that some atoms write.
fn numbers_of(alloc: Global, trees: &[Tree]) -> Option<Items<u32>> {
    let mut list = Items::new(alloc);
    for tree in trees {
        let Some(number) = number_of(tree) else {
            return None;
        };
        if list.push(number).is_err() {
            return None;
        }
    }
    Some(list)
}

/// A node: the list of its uses, the list of what it defines, and the places to which it leads.
fn node(alloc: Global, tree: &Tree) -> Option<Node> {
    if let [uses, defines, next @ ..] = items(tree)
        && let Some(next) = numbers_of(alloc, next)
        && let Some(uses) = numbers_of(alloc, items(uses))
        && let Some(defines) = numbers_of(alloc, items(defines))
    {
        Some(Node {
            uses,
            defines,
            first: next.as_slice().first().copied(),
            second: next.as_slice().get(1).copied(),
        })
    } else {
        None
    }
}

/// The nodes that some trees write.
fn nodes_of(alloc: Global, trees: &[Tree]) -> Option<Items<Node>> {
    let mut nodes = Items::new(alloc);
    for tree in trees {
        let Some(node) = node(alloc, tree) else {
            return None;
        };
        if nodes.push(node).is_err() {
            return None;
        }
    }
    Some(nodes)
}

/// Appends the registers below 96 that are live before each node of a graph.
fn tell_rows(alloc: Global, input: &[u8], told: &mut Told) {
    if let Some(trees) = trees_in(alloc, input)
        && let Some(nodes) = nodes_of(alloc, trees.as_slice())
        && let Ok(rows) = live_rows(alloc, nodes.as_slice())
    {
        for at in 0..nodes.len() {
            show_row(rows.as_slice(), at, told);
        }
    } else {
        told.fail();
    }
}

fn show_row(rows: &[RegRow], at: usize, told: &mut Told) {
    told.apart("live");
    for reg in 0..96 {
        if has(rows, at, reg) {
            show(&[reg], told);
        }
    }
    told.text(";");
}

/// Appends whether the registers of each pair conflict in a function.
fn tell_conflicts(alloc: Global, input: &[u8], told: &mut Told) {
    if let Some((chain, pairs)) = halves(input)
        && let Some(pairs) = numbers(alloc, pairs)
        && let Some(f) = function_in(alloc, chain.as_bytes())
        && let Ok(live) = live_rows_of(alloc, &f)
        && let Ok(rows) = conflict_rows(alloc, &f, live.as_slice())
    {
        show_pairs(rows.as_slice(), pairs.as_slice(), told);
    } else {
        told.fail();
    }
}

fn show_pairs(rows: &[RegRow], pairs: &[u64], told: &mut Told) {
    for pair in pairs.chunks(2) {
        if let [x, y] = pair
            && let Ok(x) = u32::try_from(*x)
            && let Ok(y) = u32::try_from(*y)
        {
            let is_conflict = has(rows, x as usize, y);
            told.apart(if is_conflict { "yes" } else { "no" });
        } else {
            told.fail();
        }
    }
}

/// Appends the homes of pseudo registers 0, 1 and so on, and the layout of the frame: its size, the
/// saved registers and the slots, each with its offset.
fn tell_homes(alloc: Global, input: &[u8], told: &mut Told) {
    if let Some(f) = function_in(alloc, input)
        && let Ok(live) = live_rows_of(alloc, &f)
        && let Ok(homes) = assign(alloc, &f, live.as_slice())
        && let Ok(frame) = layout(alloc, &f, &homes)
    {
        show_homes(&homes, told);
        show_frame(&frame, told);
    } else {
        told.fail();
    }
}

fn show_homes(homes: &Homes, told: &mut Told) {
    for home in homes.as_slice() {
        told.gap();
        match home.home {
            Home::Hard { reg } => told.show(reg),
            Home::Slot => told.text("slot"),
        }
    }
}

fn show_frame(frame: &Layout, told: &mut Told) {
    told.text("; ");
    told.show(frame.size);
    told.text(" bytes;");
    for place in frame.saved.as_slice() {
        told.text(" ");
        told.show(place.reg);
        told.text("@");
        told.show(place.offset);
    }
    told.text(";");
    for place in frame.slots.as_slice() {
        told.text(" <");
        told.show(place.pseudo);
        told.text(">@");
        told.show(place.offset);
    }
}

fn show_bytes(regs: &[u8], told: &mut Told) {
    for reg in regs {
        told.gap();
        told.show(*reg);
    }
    told.text(";");
}

/// Appends the order of allocation, the saved registers and those that a caller finds as they were.
fn tell_tables(told: &mut Told) {
    show_bytes(allocation_order().as_slice(), told);
    show_bytes(saved_registers().as_slice(), told);
    show_bytes(kept_registers().as_slice(), told);
}

/// Tells what comes of an input. Whether it is a table of registers.
pub fn answer(alloc: Global, table: &str, input: &[u8], told: &mut Told) -> bool {
    match table {
        "uses" => tell_uses(alloc, input, told),
        "one register" => tell_asked(alloc, input, told),
        "live registers" => tell_live(alloc, input, told),
        "live rows" => tell_rows(alloc, input, told),
        "conflicts" => tell_conflicts(alloc, input, told),
        "homes" => tell_homes(alloc, input, told),
        "tables of registers" => tell_tables(told),
        _ => return false,
    }
    true
}
