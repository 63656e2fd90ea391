//! The functions of a group.
ghost use Rattle.std.specs.Prelude.{◌≡◌, [], ◌∷◌, ◌++◌, IfOk, OnOk, map, flat_map};
ghost use Rattle.lint_functions.specs.Patterns.{patterns_of as patterns_in};
ghost use Rattle.rtl_print.specs.Print.{printed, spaced_text};
ghost use Rattle.lint_tried.specs.Tried.{instances_tried as instances_in};
ghost use Rattle.lint_windows.specs.Windows.{windows_tried as windows_in};
ghost use Rattle.lint_groups.specs.Groups as spec;

use crate::group::Group;
use lint_functions::{function_of, keeping, patterns_of, several};
use lint_tried::{Instance, instances_tried};
use lint_windows::windows_tried;
use md_desc::Description;
use plain_data::{Items, Memory};
use plain_shape::Shape;
use rtl_print::print_rtx;
use rtx_tree::{Function, Kids, Kind, Mode, Name, Rtx};
use std::alloc::Global;
use std::slice;
use text_words::print_text;

/// A function that is tried.
#[derive(Drop)]
pub struct Try {
    /// What it is called where it is told of.
    pub what: Name,
    /// The function.
    pub function: Function,
}

/// Functions that are tried, in order.
pub type Tries = Items<Try>;

// ---- shapes

fn pattern_text(alloc: Global, pattern: &Rtx) -> Result<Name, Memory>
    ensures { IfOk result (λ text. text ≡ printed pattern.now) }
{
    let mut text = Vec::new(alloc);
    print_rtx(pattern, &mut text)?;
    Ok(Name::from_vec(text))
}

#[tactic(auto, unfolding(crate::specs::Groups::shape_try))]
fn shape_try(alloc: Global, shape: Shape, pattern: &Rtx) -> Result<Try, Memory>
    ensures { IfOk result (λ t. t ≡ spec.shape_try shape pattern.now) }
{
    Ok(Try {
        what: pattern_text(alloc, pattern)?,
        function: function_of(alloc, shape, pattern)?,
    })
}

#[tactic(auto, using(lint_choices::proofs::PushedLaws::mapped_next, lint_choices::proofs::PushedLaws::pushed_ends))]
fn shape_tries(alloc: Global, shape: Shape, patterns: &[Rtx]) -> Result<Tries, Memory>
    ensures { IfOk result (λ tries. tries ≡ map (spec.shape_try shape) patterns.now) }
{
    let mut tries = Items::new(alloc);
    for pattern in patterns {
        tries.push(shape_try(alloc, shape, pattern)?)?;
    }
    Ok(tries)
}

fn of_shape(alloc: Global, shape: Shape) -> Result<Tries, Memory>
    ensures { IfOk result (λ tries. tries ≡ map (spec.shape_try shape) (patterns_in shape)) }
{
    let patterns = patterns_of(alloc, shape)?;
    shape_tries(alloc, shape, patterns.as_slice())
}

// ---- values kept over a call

fn mode_words(mode: Mode) -> &'static [u8]
    ensures { result.now ≡ spec.mode_words mode }
{
    match mode {
        Mode::QI => b"QI",
        Mode::HI => b"HI",
        Mode::SI => b"SI",
        Mode::DI | Mode::Void => b"DI",
    }
}

fn far_words(is_far: bool) -> &'static [u8]
    ensures { result.now ≡ spec.far_words is_far }
{
    if is_far { b" in a large frame" } else { b"" }
}

fn print_kept(mode: Mode, is_far: bool, out: &mut Vec<u8>) -> Result<(), Memory>
    ensures { OnOk result (out.new.items ≡ out.old.items ++ spec.kept_text mode is_far) }
{
    print_text(mode_words(mode), out)?;
    print_text(b" values kept over a call", out)?;
    print_text(far_words(is_far), out)?;
    Ok(())
}

fn kept_text(alloc: Global, mode: Mode, is_far: bool) -> Result<Name, Memory>
    ensures { IfOk result (λ text. text ≡ spec.kept_text mode is_far) }
{
    let mut text = Vec::new(alloc);
    print_kept(mode, is_far, &mut text)?;
    Ok(Name::from_vec(text))
}

#[tactic(auto, unfolding(crate::specs::Groups::kept_try))]
fn of_kept(alloc: Global, mode: Mode, is_far: bool) -> Result<Tries, Memory>
    ensures { IfOk result (λ tries. tries ≡ spec.kept_try mode is_far ∷ []) }
{
    let mut tries = Items::new(alloc);
    tries.push(Try {
        what: kept_text(alloc, mode, is_far)?,
        function: keeping(alloc, mode, is_far)?,
    })?;
    Ok(tries)
}

// ---- windows

fn print_spaced(pattern: &Rtx, out: &mut Vec<u8>) -> Result<(), Memory>
    ensures { OnOk result (out.new.items ≡ out.old.items ++ spaced_text pattern.now) }
{
    print_text(b" ", out)?;
    print_rtx(pattern, out)
}

fn print_patterns(patterns: &[Rtx], out: &mut Vec<u8>) -> Result<(), Memory>
    ensures { OnOk result (out.new.items ≡ out.old.items ++ flat_map spaced_text
        patterns.now) }
{
    for pattern in patterns {
        print_spaced(pattern, out)?;
    }
    Ok(())
}

fn patterns_text(alloc: Global, patterns: &[Rtx]) -> Result<Name, Memory>
    ensures { IfOk result (λ text. text ≡ spec.patterns_text patterns.now) }
{
    let mut text = Vec::new(alloc);
    print_text(b"of", &mut text)?;
    print_patterns(patterns, &mut text)?;
    Ok(Name::from_vec(text))
}

#[tactic(auto, unfolding(crate::specs::Groups::window_try))]
fn window_try(alloc: Global, patterns: &[Rtx], are_live: bool) -> Result<Try, Memory>
    ensures { IfOk result (λ t. t ≡ spec.window_try are_live patterns.now) }
{
    Ok(Try {
        what: patterns_text(alloc, patterns)?,
        function: several(alloc, patterns, are_live)?,
    })
}

#[tactic(auto, using(lint_choices::proofs::PushedLaws::nothing_pushed))]
fn push_split(alloc: Global, instance: &Instance, tries: &mut Tries) -> Result<(), Memory>
    ensures { OnOk result (tries.new ≡ tries.old ++ spec.split_try instance.now) }
{
    if !matches!(instance.insn.kind, Kind::Plain) {
        return Ok(());
    }
    let patterns = slice::from_ref(&instance.insn.pattern);
    tries.push(window_try(alloc, patterns, true)?)
}

#[tactic(auto, using(lint_choices::proofs::PushedLaws::pushed_next, lint_choices::proofs::PushedLaws::pushed_ends))]
fn split_tries(alloc: Global, instances: &[Instance]) -> Result<Tries, Memory>
    ensures { IfOk result (λ tries. tries ≡ flat_map spec.split_try instances.now) }
{
    let mut tries = Items::new(alloc);
    for instance in instances {
        push_split(alloc, instance, &mut tries)?;
    }
    Ok(tries)
}

fn push_window(alloc: Global, window: &[Rtx], tries: &mut Tries) -> Result<(), Memory>
    ensures { OnOk result (tries.new ≡ tries.old ++ spec.window_tries window.now) }
{
    tries.push(window_try(alloc, window, true)?)?;
    tries.push(window_try(alloc, window, false)?)
}

#[tactic(auto, using(lint_choices::proofs::PushedLaws::pushed_next, lint_choices::proofs::PushedLaws::pushed_ends))]
fn window_tries(alloc: Global, windows: &[Kids]) -> Result<Tries, Memory>
    ensures { IfOk result (λ tries. tries ≡ flat_map spec.window_tries windows.now) }
{
    let mut tries = Items::new(alloc);
    for window in windows {
        push_window(alloc, window.as_slice(), &mut tries)?;
    }
    Ok(tries)
}

fn of_split(
    alloc: Global,
    description: &Description,
    tested: &[i64],
    form: u32,
) -> Result<Tries, Memory>
    ensures { IfOk result (λ tries. tries ≡ flat_map spec.split_try
        (instances_in description.now tested.now form 0)) }
{
    let instances = instances_tried(alloc, description, tested, form, 0)?;
    split_tries(alloc, instances.as_slice())
}

fn of_peephole(alloc: Global, description: &Description, form: u32) -> Result<Tries, Memory>
    ensures { IfOk result (λ tries. tries ≡
        flat_map spec.window_tries (windows_in description.now form)) }
{
    let windows = windows_tried(alloc, description, form)?;
    window_tries(alloc, windows.as_slice())
}

/// The functions of a group, by the numbers in the tests of the description, which
/// [`lint_tried::tested_numbers`] gives.
pub fn tries_of(
    alloc: Global,
    description: &Description,
    tested: &[i64],
    group: Group,
) -> Result<Tries, Memory>
    ensures { IfOk result (λ tries. tries ≡ spec.tries_of description.now tested.now group) }
{
    match group {
        Group::Shape(shape) => of_shape(alloc, shape),
        Group::Kept { mode, is_far } => of_kept(alloc, mode, is_far),
        Group::Split { form } => of_split(alloc, description, tested, form),
        Group::Peephole { form } => of_peephole(alloc, description, form),
    }
}
