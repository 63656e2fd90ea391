//! Where something stands, and what is found of it.
ghost use Rattle.std.specs.Prelude.{◌≡◌, ◌++◌, OnOk};
ghost use Rattle.lint_sentences.specs.Place as spec;

use crate::kind::Kind;
use plain_data::Memory;
use rtx_tree::Place;
use text_words::{print_count, print_text};

/// Appends `LINE:COLUMN`.
pub fn print_place(place: Place, out: &mut Vec<u8>) -> Result<(), Memory>
    ensures { OnOk result (out.new.items ≡ out.old.items ++ spec.place_text place) }
{
    print_count(u64::from(place.line), out)?;
    print_text(b":", out)?;
    print_count(u64::from(place.column), out)
}

/// Appends `FILE:LINE:COLUMN: `.
pub fn print_at(file: &[u8], place: Place, out: &mut Vec<u8>) -> Result<(), Memory>
    ensures { OnOk result (out.new.items ≡ out.old.items ++ spec.at_text file.now place) }
{
    print_text(file, out)?;
    print_text(b":", out)?;
    print_place(place, out)?;
    print_text(b": ", out)
}

/// Appends a kind and a name.
pub fn print_found(kind: Kind, name: &[u8], out: &mut Vec<u8>) -> Result<(), Memory>
    ensures { OnOk result (out.new.items ≡ out.old.items ++ spec.found_text kind name.now) }
{
    print_text(kind.word(), out)?;
    print_text(b" ", out)?;
    print_text(name, out)
}
