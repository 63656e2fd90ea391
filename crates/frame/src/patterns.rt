//! The patterns that make a frame and leave it.
ghost use Rattle.std.specs.Prelude.{◌≡◌, ◌++◌, pos, neg_ℤ, IfOk, OnOk};
ghost use Rattle.std.specs.List.{flat_map};
ghost use Rattle.rtx_tree.specs.Patterns as trees;
ghost use Rattle.law_frame.specs.Frame as spec;

use assign::{Layout, SavedAt};
use plain_data::{Items, Memory};
use rtx_tree::{Code, Kids, Mode, Rtx};
use rv_regs::STACK_POINTER;
use std::alloc::Global;

/// The register `t3`.
const SPARE: u32 = 28;

/// The greatest size of a frame that is part of an instruction, up and down.
const MOST_SHORT: u64 = 2032;

/// The greatest offset that is part of an instruction.
const MOST_NEAR: u64 = 2047;

fn sp(alloc: Global) -> Rtx
    ensures { result ≡ spec.sp_rtx }
{
    Rtx::reg(alloc, Mode::DI, u32::from(STACK_POINTER))
}

fn spare(alloc: Global) -> Rtx
    ensures { result ≡ spec.spare_rtx }
{
    Rtx::reg(alloc, Mode::DI, SPARE)
}

fn set(alloc: Global, target: Rtx, source: Rtx) -> Result<Rtx, Memory>
    ensures { IfOk result (λ x. x ≡ trees.set_rtx target source) }
{
    Rtx::of_two(alloc, Code::Set, Mode::Void, target, source)
}

fn sum(alloc: Global, a: Rtx, b: Rtx) -> Result<Rtx, Memory>
    ensures { IfOk result (λ x. x ≡ trees.sum_rtx a b) }
{
    Rtx::of_two(alloc, Code::Plus, Mode::DI, a, b)
}

/// The number of a constant. One past 63 bits finds no memory.
fn number_of(number: u64) -> Result<i64, Memory>
    ensures { IfOk result (λ n. n ≡ pos number) }
{
    match i64::try_from(number) {
        Ok(n) => Ok(n),
        Err(_) => Err(Memory),
    }
}

/// Adds the change of `sp` by a number that is part of an instruction.
fn add_short(alloc: Global, number: i64, patterns: &mut Kids) -> Result<(), Memory>
    ensures { OnOk result (patterns.new ≡ patterns.old ++ spec.short_change number) }
{
    let changed = sum(alloc, sp(alloc), Rtx::const_int(alloc, number))?;
    patterns.push(set(alloc, sp(alloc), changed)?)
}

/// Adds the change of `sp` by another number.
fn add_long(alloc: Global, number: i64, patterns: &mut Kids) -> Result<(), Memory>
    ensures { OnOk result (patterns.new ≡ patterns.old ++ spec.long_change number) }
{
    let held = set(alloc, spare(alloc), Rtx::const_int(alloc, number))?;
    let changed = sum(alloc, sp(alloc), spare(alloc))?;
    patterns.push(held)?;
    patterns.push(set(alloc, sp(alloc), changed)?)
}

/// Adds the change of `sp` by a frame's size, which is the number or its negative.
fn add_change(alloc: Global, size: u64, number: i64, patterns: &mut Kids) -> Result<(), Memory>
    ensures { OnOk result (patterns.new ≡ patterns.old ++ spec.sp_changed size number) }
{
    if size > MOST_SHORT {
        add_long(alloc, number, patterns)
    } else {
        add_short(alloc, number, patterns)
    }
}

fn near_address(alloc: Global, offset: u64) -> Result<Rtx, Memory>
    ensures { IfOk result (λ x. x ≡ spec.near_address offset) }
{
    if offset == 0 {
        return Ok(sp(alloc));
    }
    let number = number_of(offset)?;
    sum(alloc, sp(alloc), Rtx::const_int(alloc, number))
}

/// Adds what makes `t3` the sum of an offset and `sp`.
fn add_far_base(alloc: Global, offset: u64, patterns: &mut Kids) -> Result<(), Memory>
    ensures { OnOk result (patterns.new ≡ patterns.old ++ spec.far_base offset) }
{
    let number = number_of(offset)?;
    let held = set(alloc, spare(alloc), Rtx::const_int(alloc, number))?;
    let base = sum(alloc, spare(alloc), sp(alloc))?;
    patterns.push(held)?;
    patterns.push(set(alloc, spare(alloc), base)?)
}

/// Adds what is made for the address of an offset.
fn add_base(alloc: Global, offset: u64, patterns: &mut Kids) -> Result<(), Memory>
    ensures { OnOk result (patterns.new ≡ patterns.old ++ spec.base_made offset) }
{
    if offset > MOST_NEAR {
        add_far_base(alloc, offset, patterns)
    } else {
        Ok(())
    }
}

fn address_at(alloc: Global, offset: u64) -> Result<Rtx, Memory>
    ensures { IfOk result (λ x. x ≡ spec.address_at offset) }
{
    if offset > MOST_NEAR {
        Ok(spare(alloc))
    } else {
        near_address(alloc, offset)
    }
}

/// The 64 bits at an offset.
fn word_at(alloc: Global, offset: u64) -> Result<Rtx, Memory>
    ensures { IfOk result (λ x. x ≡ spec.word_at offset) }
{
    let address = address_at(alloc, offset)?;
    Rtx::of_one(alloc, Code::Mem, Mode::DI, address)
}

fn add_stored(alloc: Global, s: &SavedAt, patterns: &mut Kids) -> Result<(), Memory>
    ensures { OnOk result (patterns.new ≡ patterns.old ++ spec.stored s.now) }
{
    let word = word_at(alloc, s.offset)?;
    let stored = set(alloc, word, Rtx::reg(alloc, Mode::DI, u32::from(s.reg)))?;
    add_base(alloc, s.offset, patterns)?;
    patterns.push(stored)
}

fn add_loaded(alloc: Global, s: &SavedAt, patterns: &mut Kids) -> Result<(), Memory>
    ensures { OnOk result (patterns.new ≡ patterns.old ++ spec.loaded s.now) }
{
    let word = word_at(alloc, s.offset)?;
    let loaded = set(alloc, Rtx::reg(alloc, Mode::DI, u32::from(s.reg)), word)?;
    add_base(alloc, s.offset, patterns)?;
    patterns.push(loaded)
}

fn add_all_stored(alloc: Global, saved: &[SavedAt], patterns: &mut Kids) -> Result<(), Memory>
    ensures { OnOk result (patterns.new ≡ patterns.old ++ flat_map spec.stored saved.now) }
{
    for s in saved {
        add_stored(alloc, s, patterns)?;
    }
    Ok(())
}

fn add_all_loaded(alloc: Global, saved: &[SavedAt], patterns: &mut Kids) -> Result<(), Memory>
    ensures { OnOk result (patterns.new ≡ patterns.old ++ flat_map spec.loaded saved.now) }
{
    for s in saved {
        add_loaded(alloc, s, patterns)?;
    }
    Ok(())
}

fn frame_made(alloc: Global, layout: &Layout) -> Result<Kids, Memory>
    ensures { IfOk result (λ patterns. patterns ≡ spec.frame_made layout.now) }
{
    let size = number_of(layout.size)?;
    let mut patterns = Items::new(alloc);
    add_change(alloc, layout.size, -size, &mut patterns)?;
    add_all_stored(alloc, layout.saved.as_slice(), &mut patterns)?;
    Ok(patterns)
}

fn frame_left(alloc: Global, layout: &Layout) -> Result<Kids, Memory>
    ensures { IfOk result (λ patterns. patterns ≡ spec.frame_left layout.now) }
{
    let size = number_of(layout.size)?;
    let mut patterns = Items::new(alloc);
    add_all_loaded(alloc, layout.saved.as_slice(), &mut patterns)?;
    add_change(alloc, layout.size, size, &mut patterns)?;
    Ok(patterns)
}

/// The patterns that make the frame of a layout. A size or an offset past 63 bits finds no memory.
pub(crate) fn prologue(alloc: Global, layout: &Layout) -> Result<Kids, Memory>
    ensures { IfOk result (λ patterns. patterns ≡ spec.prologue layout.now) }
{
    if layout.size == 0 {
        Ok(Items::new(alloc))
    } else {
        frame_made(alloc, layout)
    }
}

/// The patterns that leave the frame of a layout. A size or an offset past 63 bits finds no memory.
pub(crate) fn epilogue(alloc: Global, layout: &Layout) -> Result<Kids, Memory>
    ensures { IfOk result (λ patterns. patterns ≡ spec.epilogue layout.now) }
{
    if layout.size == 0 {
        Ok(Items::new(alloc))
    } else {
        frame_left(alloc, layout)
    }
}
