//! Why a template is wrong, in a sentence.
ghost use Rattle.std.specs.Prelude.{◌≡◌, ◌++◌, OnOk, IfOk, codes};
ghost use Rattle.std.specs.Str.{bytes_eq};
ghost use Rattle.rtx_tree.specs.Registers.{register_text};
ghost use Rattle.term_text.specs.Item.{item_text};
ghost use Rattle.lint_sentences.specs.Fault as spec;

use plain_data::Memory;
use rtx_tree::{Name, print_register};
use std::alloc::Global;
use term_text::{Item, print_item};
use text_words::{print_count, print_text};

/// Appends a text in quotes behind a colon.
fn print_quoted(text: &[u8], out: &mut Vec<u8>) -> Result<(), Memory>
    ensures { OnOk result (out.new.items ≡ out.old.items ++
        (codes ": \"" ++ (text.now ++ codes "\""))) }
{
    print_text(b": \"", out)?;
    print_text(text, out)?;
    print_text(b"\"", out)
}

/// Appends what is wrong with a line, and its text.
fn print_told_line(words: &[u8], text: &[u8], out: &mut Vec<u8>) -> Result<(), Memory>
    ensures { OnOk result (out.new.items ≡ out.old.items ++ spec.told_line words.now text.now) }
{
    print_text(b" of the template ", out)?;
    print_text(words, out)?;
    print_quoted(text, out)?;
    Ok(())
}

/// Appends a line of a template by its place, what is wrong with it, and its text.
pub fn print_line(place: u32, words: &[u8], text: &[u8], out: &mut Vec<u8>) -> Result<(), Memory>
    ensures { OnOk result (out.new.items ≡ out.old.items ++
        spec.line_text place words.now text.now) }
{
    print_text(b"line ", out)?;
    print_count(u64::from(place) + 1, out)?;
    print_told_line(words, text, out)
}

fn print_left_alone(reg: u64, left: &[u8], out: &mut Vec<u8>) -> Result<(), Memory>
    ensures { OnOk result (out.new.items ≡ out.old.items ++ spec.left_alone reg left.now) }
{
    print_text(b"the lines leave ", out)?;
    print_register(reg, out)?;
    print_text(b" as it was; the instruction makes ", out)?;
    print_text(left, out)
}

/// Appends what the lines make.
fn print_made(right: &[u8], out: &mut Vec<u8>) -> Result<(), Memory>
    ensures { OnOk result (out.new.items ≡ out.old.items ++ spec.made_text right.now) }
{
    print_text(
        b", which the instruction leaves alone (no clobber says so): they make ",
        out,
    )?;
    print_text(right, out)?;
    Ok(())
}

fn print_changed(reg: u64, right: &[u8], out: &mut Vec<u8>) -> Result<(), Memory>
    ensures { OnOk result (out.new.items ≡ out.old.items ++ spec.changed reg right.now) }
{
    print_text(b"the lines change ", out)?;
    print_register(reg, out)?;
    print_made(right, out)
}

/// Appends what the lines make beside the instruction.
fn print_right(right: &[u8], out: &mut Vec<u8>) -> Result<(), Memory>
    ensures { OnOk result (out.new.items ≡ out.old.items ++ spec.right_text right.now) }
{
    print_text(b", by the lines ", out)?;
    print_text(right, out)?;
    Ok(())
}

/// Appends what the instruction and the lines make.
fn print_both(left: &[u8], right: &[u8], out: &mut Vec<u8>) -> Result<(), Memory>
    ensures { OnOk result (out.new.items ≡ out.old.items ++ spec.both_text left.now right.now) }
{
    print_text(b": by the instruction ", out)?;
    print_text(left, out)?;
    print_right(right, out)?;
    Ok(())
}

/// Appends what both sides make of something.
fn print_sides(subject: &[u8], left: &[u8], right: &[u8], out: &mut Vec<u8>) -> Result<(), Memory>
    ensures { OnOk result (out.new.items ≡ out.old.items ++
        spec.sides_text subject.now left.now right.now) }
{
    print_text(subject, out)?;
    print_both(left, right, out)
}

fn register_name(alloc: Global, reg: u64) -> Result<Name, Memory>
    ensures { IfOk result (λ name. name ≡ register_text reg) }
{
    let mut name = Vec::new(alloc);
    print_register(reg, &mut name)?;
    Ok(Name::from_vec(name))
}

fn item_name(alloc: Global, item: Item) -> Result<Name, Memory>
    ensures { IfOk result (λ name. name ≡ item_text item) }
{
    let mut name = Vec::new(alloc);
    print_item(item, &mut name)?;
    Ok(Name::from_vec(name))
}

fn is_text(one: &[u8], other: &[u8]) -> bool
    ensures { result ≡ bytes_eq one.now other.now }
{
    one == other
}

fn print_register_difference(
    alloc: Global,
    reg: u64,
    left: &[u8],
    right: &[u8],
    out: &mut Vec<u8>,
) -> Result<(), Memory>
    ensures { OnOk result (out.new.items ≡ out.old.items ++
        spec.register_difference reg left.now right.now) }
{
    let name = register_name(alloc, reg)?;
    if is_text(right, name.bytes()) {
        print_left_alone(reg, left, out)
    } else if is_text(left, name.bytes()) {
        print_changed(reg, right, out)
    } else {
        print_sides(name.bytes(), left, right, out)
    }
}

fn print_item_sides(
    alloc: Global,
    item: Item,
    left: &[u8],
    right: &[u8],
    out: &mut Vec<u8>,
) -> Result<(), Memory>
    ensures { OnOk result (out.new.items ≡ out.old.items ++
        spec.sides_text (item_text item) left.now right.now) }
{
    let name = item_name(alloc, item)?;
    print_sides(name.bytes(), left, right, out)
}

/// Appends in which item two sides differ, by what each makes of it.
pub fn print_difference(
    alloc: Global,
    item: Item,
    left: &[u8],
    right: &[u8],
    out: &mut Vec<u8>,
) -> Result<(), Memory>
    ensures { OnOk result (out.new.items ≡ out.old.items ++
        spec.difference_text item left.now right.now) }
{
    match item {
        Item::Register { reg } => print_register_difference(alloc, reg, left, right, out),
        Item::Jump => print_sides(b"where it leads", left, right, out),
        Item::Call => print_sides(b"what is called", left, right, out),
        Item::Store { .. } | Item::Need | Item::Shape { .. } => {
            print_item_sides(alloc, item, left, right, out)
        }
    }
}

/// Appends a term that the instruction doesn't ask for.
fn print_unasked(term: &[u8], out: &mut Vec<u8>) -> Result<(), Memory>
    ensures { OnOk result (out.new.items ≡ out.old.items ++ spec.unasked_text term.now) }
{
    print_text(term, out)?;
    print_text(b", the instruction doesn't", out)
}

/// Appends that the lines ask for what the instruction doesn't.
pub fn print_need(term: &[u8], out: &mut Vec<u8>) -> Result<(), Memory>
    ensures { OnOk result (out.new.items ≡ out.old.items ++ spec.need_text term.now) }
{
    print_text(b"the lines read ", out)?;
    print_unasked(term, out)
}
