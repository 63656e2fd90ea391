//! A text and the lines and labels that it spells.
ghost use Rattle.std.specs.Prelude.{◌≡◌, ◌++◌, ◌+◌, OnOk, Ok, length, nat_le};
ghost use Rattle.asm_out.specs.Comes.{limited};
ghost use Rattle.asm_out.specs.Outcome.{Appends};
ghost use Rattle.rtx_tree.specs.Limit.{most_output};

use crate::refusal::too_long;
use pass_refusal::PassRefusal;
use plain_data::{Items, Memory};
use rtx_tree::{MOST_OUTPUT, Name};
use rv_text::CodeItem;
use text_words::print_text;

/// A text with the lines and labels that it spells.
#[derive(Drop)]
pub struct Piece {
    /// The text.
    pub text: Name,
    /// The lines and labels that the text spells.
    pub items: Items<CodeItem>,
}

/// Whether no more bytes come together than an assembly may have.
fn has_room(out: &[u8], text: &[u8]) -> bool
    ensures { result ≡ nat_le (length out.now + length text.now) most_output }
{
    out.len() <= MOST_OUTPUT && text.len() <= MOST_OUTPUT - out.len()
}

fn append_items(more: Items<CodeItem>, items: &mut Vec<CodeItem>) -> Result<(), Memory>
    ensures { OnOk result (items.new.items ≡ items.old.items ++ more) }
{
    items.append(&mut more.into_vec())?;
    Ok(())
}

/// Appends a piece, unless the text were longer than an assembly may be.
pub fn append_piece(
    piece: Piece,
    out: &mut Vec<u8>,
    items: &mut Vec<CodeItem>,
) -> Result<(), PassRefusal>
    ensures { Appends out.old.items out.new.items items.old.items items.new.items result
        (λ o. o ≡ limited (length out.old.items) (Ok piece)) }
{
    let Piece { text, items: more } = piece;
    if !has_room(out.as_slice(), text.bytes()) {
        return Err(too_long());
    }
    print_text(text.bytes(), out)?;
    append_items(more, items)?;
    Ok(())
}
