//! The lines of texts.
ghost use Rattle.std.specs.Prelude.{◌≡◌, IfOk};
ghost use Rattle.md_output.specs.Read.{IsReadAs, AreReadAs};

use plain_data::{Items, Memory};
use rtx_tree::Name;
use rv_text::{Line, LineParts, parse_line};
use std::alloc::Global;

/// The line of a text, or one that is none of the table's.
fn read_line(alloc: Global, text: &[u8]) -> Result<Line, Memory>
    ensures { IfOk result (λ line. IsReadAs text.now line) }
{
    match parse_line(alloc, text)? {
        Some(line) => Ok(line),
        None => LineParts::bare(b"").to_line(alloc),
    }
}

/// The lines of some texts.
#[tactic(auto, using(crate::proofs::ReadLaws::read_end))]
pub fn read_lines(alloc: Global, texts: &[Name]) -> Result<Items<Line>, Memory>
    ensures { IfOk result (λ lines. AreReadAs texts.now lines) }
{
    let mut lines = Items::new(alloc);
    for text in texts {
        lines.push(read_line(alloc, text.bytes())?)?;
    }
    Ok(lines)
}
