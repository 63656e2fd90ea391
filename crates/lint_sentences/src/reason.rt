//! Why a form is set aside, in words.
ghost use Rattle.std.specs.Prelude.{◌≡◌, ◌++◌, OnOk, flat_map, codes};
ghost use Rattle.std.specs.Fmt.{decimal};
ghost use Rattle.lint_sentences.specs.Reason as spec;

use crate::place::print_place;
use plain_data::Memory;
use rtx_tree::{Name, Place};
use text_words::{print_count, print_text};

/// What a reason says, by its number.
fn words_of(reason: u8) -> &'static [u8]
    ensures { result.now ≡ spec.reason_words reason }
{
    match reason {
        1 => b"the head isn't taken",
        2 => b"a part is missing, too much or of the wrong kind",
        3 => b"a code, or a register's number, is outside",
        4 => b"a mode is outside",
        5 => b"the output is C code",
        6 => b"a condition is outside the grammar",
        7 => b"preparation statements are outside",
        8 => b"a predicate is unknown, set aside itself, or asks for itself",
        9 => {
            b"a constraint is unknown or set aside, a digit names no operand, or two operands have lists of different lengths"
        }
        10 => b"an attribute isn't right",
        11 => b"the operands aren't in order",
        _ => b"the template is outside",
    }
}

fn timing_words(is_timing: bool) -> &'static [u8]
    ensures { result.now ≡ spec.timing_words is_timing }
{
    if is_timing {
        b"it describes a pipeline, and "
    } else {
        b""
    }
}

fn print_number(reason: u8, out: &mut Vec<u8>) -> Result<(), Memory>
    ensures { OnOk result (out.new.items ≡ out.old.items ++
        (codes " (reason " ++ (decimal reason ++ codes ")"))) }
{
    print_text(b" (reason ", out)?;
    print_count(u64::from(reason), out)?;
    print_text(b")", out)
}

/// Appends the words of a reason and its number.
pub fn print_reason(is_timing: bool, reason: u8, out: &mut Vec<u8>) -> Result<(), Memory>
    ensures { OnOk result (out.new.items ≡ out.old.items ++ spec.reason_text is_timing reason) }
{
    print_text(b": ", out)?;
    print_text(timing_words(is_timing), out)?;
    print_text(words_of(reason), out)?;
    print_number(reason, out)
}

fn shown_byte(byte: u8) -> u8
    ensures { result ≡ spec.shown_byte byte }
{
    if byte < 32 { b' ' } else { byte }
}

/// Appends a text on one line.
fn print_shown(text: &[u8], out: &mut Vec<u8>) -> Result<(), Memory>
    ensures { OnOk result (out.new.items ≡ out.old.items ++ spec.shown text.now) }
{
    for byte in text {
        out.push(shown_byte(*byte))?;
    }
    Ok(())
}

/// Appends what a reason is about, if that is written.
fn print_subject(text: &[u8], out: &mut Vec<u8>) -> Result<(), Memory>
    ensures { OnOk result (out.new.items ≡ out.old.items ++ spec.subject_text text.now) }
{
    match text {
        [] => Ok(()),
        [_, ..] => {
            print_text(b": ", out)?;
            print_shown(text, out)
        }
    }
}

fn is_same(one: Place, other: Place) -> bool
    ensures { result ≡ spec.is_same_place one other }
{
    one.line == other.line && one.column == other.column
}

/// Appends where something stands, if that isn't where the form begins.
fn print_elsewhere(form: Place, place: Place, out: &mut Vec<u8>) -> Result<(), Memory>
    ensures { OnOk result (out.new.items ≡ out.old.items ++ spec.elsewhere_text form place) }
{
    if is_same(place, form) {
        return Ok(());
    }
    print_text(b", at ", out)?;
    print_place(place, out)
}

/// Appends what a reason is about and where that stands, where the form begins at a place.
pub fn print_about(text: &[u8], place: Place, form: Place, out: &mut Vec<u8>) -> Result<(), Memory>
    ensures { OnOk result (out.new.items ≡ out.old.items ++
        spec.about_text text.now place form) }
{
    print_subject(text, out)?;
    print_elsewhere(form, place, out)
}

fn print_name(name: &[u8], out: &mut Vec<u8>) -> Result<(), Memory>
    ensures { OnOk result (out.new.items ≡ out.old.items ++ spec.name_text name.now) }
{
    print_text(b", ", out)?;
    print_text(name, out)
}

fn print_names(names: &[Name], out: &mut Vec<u8>) -> Result<(), Memory>
    ensures { OnOk result (out.new.items ≡ out.old.items ++ flat_map spec.name_text names.now) }
{
    for name in names {
        print_name(name.bytes(), out)?;
    }
    Ok(())
}

/// Appends the names of the forms that are set aside for the sake of one, where there are some.
pub fn print_so_aside(names: &[Name], out: &mut Vec<u8>) -> Result<(), Memory>
    ensures { OnOk result (out.new.items ≡ out.old.items ++ spec.so_aside_text names.now) }
{
    let [name, others @ ..] = names else {
        return Ok(());
    };
    print_text(b"\tso are ", out)?;
    print_text(name.bytes(), out)?;
    print_names(others, out)?;
    print_text(b"\n", out)
}
