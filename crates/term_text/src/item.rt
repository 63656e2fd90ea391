//! The items in which two sides of a comparison can differ.
ghost use Rattle.std.specs.Prelude.{◌≡◌, ◌++◌, codes, OnOk};
ghost use Rattle.std.specs.Fmt.{decimal};
ghost use Rattle.term_text.specs.Item as spec;

use plain_data::Memory;
use rtx_tree::print_register;
use text_words::print_count;

/// An item in which two sides of a comparison can differ.
#[derive(Clone, Copy)]
pub enum Item {
    /// A register.
    Register {
        /// The register's number.
        reg: u64,
    },
    /// A store.
    Store {
        /// The store's place among the stores, counted from 0.
        index: u32,
    },
    /// Where a side leads.
    Jump,
    /// What is called.
    Call,
    /// What has to be there.
    Need,
    /// An instruction or a line that can't be compared.
    Shape {
        /// The place of the instruction or line, counted from 0.
        index: u32,
    },
}

/// Appends a word and a number.
fn print_numbered(word: &[u8], index: u32, out: &mut Vec<u8>) -> Result<(), Memory>
    ensures { OnOk result (out.new.items ≡ out.old.items ++ (word.now ++ decimal index)) }
{
    out.extend_from_slice(word)?;
    print_count(u64::from(index), out)
}

/// Appends an item's text, as `register a0` or `store 1`.
pub fn print_item(item: Item, out: &mut Vec<u8>) -> Result<(), Memory>
    ensures { OnOk result (out.new.items ≡ out.old.items ++ spec.item_text item) }
{
    match item {
        Item::Register { reg } => {
            out.extend_from_slice(b"register ")?;
            print_register(reg, out)
        }
        Item::Store { index } => print_numbered(b"store ", index, out),
        Item::Jump => Ok(out.extend_from_slice(b"jump")?),
        Item::Call => Ok(out.extend_from_slice(b"call")?),
        Item::Need => Ok(out.extend_from_slice(b"need")?),
        Item::Shape { index } => print_numbered(b"shape ", index, out),
    }
}
