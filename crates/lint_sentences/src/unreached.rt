//! Why no instance of an alternative is reached, in words.
ghost use Rattle.std.specs.Prelude.{◌≡◌, ◌++◌, OnOk, codes};
ghost use Rattle.rtx_tree.specs.Code.{mode_name};
ghost use Rattle.lint_sentences.specs.Unreached as spec;

use plain_data::Memory;
use rtx_tree::Mode;
use text_words::{print_number, print_text};

/// Appends a mode, and that a constraint stands beside it.
fn print_mode(mode: Mode, out: &mut Vec<u8>) -> Result<(), Memory>
    ensures { OnOk result (out.new.items ≡ out.old.items ++
        (codes "\" in mode " ++ (mode_name mode ++ codes " and its constraint"))) }
{
    print_text(b"\" in mode ", out)?;
    print_text(mode.name().as_bytes(), out)?;
    print_text(b" and its constraint", out)
}

/// Appends a predicate and a mode.
fn print_predicate(predicate: &[u8], mode: Mode, out: &mut Vec<u8>) -> Result<(), Memory>
    ensures { OnOk result (out.new.items ≡ out.old.items ++
        spec.predicate_text predicate.now mode) }
{
    print_text(b" is taken by its predicate \"", out)?;
    print_text(predicate, out)?;
    print_mode(mode, out)?;
    Ok(())
}

/// Appends that an operand has no candidate.
pub fn print_without(
    number: i64,
    predicate: &[u8],
    mode: Mode,
    out: &mut Vec<u8>,
) -> Result<(), Memory>
    ensures { OnOk result (out.new.items ≡ out.old.items ++
        spec.without_text number predicate.now mode) }
{
    print_text(b"nothing that was tried in the place of operand ", out)?;
    print_number(number, out)?;
    print_predicate(predicate, mode, out)?;
    Ok(())
}

/// Appends that another form or alternative takes it.
pub fn print_takes(what: &[u8], name: &[u8], out: &mut Vec<u8>) -> Result<(), Memory>
    ensures { OnOk result (out.new.items ≡ out.old.items ++ spec.takes_text what.now name.now) }
{
    print_text(what, out)?;
    print_text(b" ", out)?;
    print_text(name, out)?;
    print_text(b" takes what it takes", out)
}
