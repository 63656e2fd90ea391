//! Where the labels of a function stand.
ghost use Rattle.std.specs.Prelude.{◌≡◌, ◌++◌, IfOk, OnOk, ℕ, List, None, Some, if◌then◌else◌};
ghost use Rattle.std.specs.Option.{option_or};
ghost use Rattle.name_places.specs.Places.{place_in};
ghost use Rattle.rv_line.specs.Run.{is_label};
ghost use Rattle.rv_text.specs.Body.{label_text};
ghost use Rattle.rv_unit.specs.machine.Labels.{AreLabels, lead_in};

use name_places::Places;
use plain_data::Memory;
use rv_text::CodeItem;
use std::alloc::Global;
use text_words::{print_count, print_text};

/// The text of a label.
fn text_of(alloc: Global, function: u32, uid: u32) -> Result<Vec<u8>, Memory>
    ensures { IfOk result (λ text. text.items ≡ label_text function uid) }
{
    let mut text = Vec::new(alloc);
    print_text(b".L", &mut text)?;
    print_count(u64::from(function), &mut text)?;
    print_text(b"_", &mut text)?;
    print_count(u64::from(uid), &mut text)?;
    Ok(text)
}

/// One item more. A label counts where its text stands nowhere yet.
fn put(alloc: Global, item: &CodeItem, at: usize, labels: &mut Places) -> Result<(), Memory>
    ensures { OnOk result ((target : List ℕ) →
        place_in labels.new target ≡ option_or (place_in labels.old target)
        (if is_label target item.now then Some at else None)) }
{
    match item {
        CodeItem::Label { function, uid } => {
            let text = text_of(alloc, *function, *uid)?;
            labels.put(alloc, &text, at)
        }
        CodeItem::Code { .. } => Ok(()),
    }
}

/// The labels of some items.
pub(crate) fn labels_of(alloc: Global, items: &[CodeItem]) -> Result<Places, Memory>
    ensures { IfOk result (AreLabels items.now) }
{
    let mut labels = Places::new(alloc);
    for (at, item) in items.iter().enumerate() {
        put(alloc, item, at, &mut labels)?;
    }
    Ok(labels)
}

/// The item that an item leads to.
pub(crate) fn lead_of(labels: &Places, item: &CodeItem) -> usize
    ensures { result ≡ lead_in labels.now item.now }
{
    match item {
        CodeItem::Label { .. } => 0,
        CodeItem::Code { line } => labels.place_of(line.target.bytes()).unwrap_or(0),
    }
}
