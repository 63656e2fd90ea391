//! Labels, and the lines behind them.
ghost use Rattle.std.specs.Prelude.{◌≡◌, ◌+◌, ℕ, List, Some, IfOk, OnOk, option_map, if◌then◌else◌};
ghost use Rattle.rv_text.specs.Body.{label_text};
ghost use Rattle.rv_line.specs.Run as spec;
ghost use Rattle.rv_line.specs.machine.Labels.{place_behind, AreLabels};

use plain_data::Memory;
use rv_text::{CodeItem, Line};
use std::alloc::Global;
use std::collections::HashMap;
use std::marker::Model;
use text_words::{print_count, print_text};

/// The places behind labels, by the texts of the labels. One is looked up at once.
#[derive(Drop)]
pub struct Labels {
    places: HashMap<Vec<u8>, usize>,
}

/// The text of a label.
fn text_of(alloc: Global, function: u32, uid: u32) -> Result<Vec<u8>, Memory>
    ensures { IfOk result (λ text. text.items ≡ label_text function uid) }
{
    let mut text = Vec::new(alloc);
    print_text(b".L", &mut text)?;
    print_count(u64::from(function), &mut text)?;
    print_text(b"_", &mut text)?;
    print_count(u64::from(uid), &mut text)?;
    Ok(text)
}

impl Labels {
    /// The place behind a label.
    fn place_behind(&self, target: &[u8]) -> Option<usize>
        ensures { result ≡ place_behind self.now target.now }
    {
        self.places.get(target).copied()
    }

    /// An item stands before a place. If it is a label, that place counts for its text from now on.
    fn put(&mut self, alloc: Global, item: &CodeItem, behind: usize) -> Result<(), Memory>
        ensures { OnOk result ((target : List ℕ) →
            place_behind self.new target ≡ (if spec.is_label target item.now then Some behind
            else place_behind self.old target)) }
    {
        match item {
            CodeItem::Label { function, uid } => {
                let text = text_of(alloc, *function, *uid)?;
                self.places.insert(text, behind)?;
                Ok(())
            }
            CodeItem::Code { .. } => Ok(()),
        }
    }
}

/// The labels of some items. Of those with one text the first counts.
fn labels_of(alloc: Global, items: &[CodeItem]) -> Result<Labels, Memory>
    ensures { IfOk result (AreLabels items.now 0) }
{
    let mut labels = Labels {
        places: HashMap::new(alloc),
    };
    for place in (0..items.len()).rev() {
        labels.put(alloc, &items[place], place + 1)?;
    }
    Ok(labels)
}

/// Lines and labels. Contracts see the list of them.
#[derive(Drop)]
pub struct LabelledItems<'a> {
    items: &'a [CodeItem],
    labels: Labels,
}

impl<'a> Model for LabelledItems<'a> {
    ghost use Rattle.std.specs.Prelude.{List};
    ghost use Rattle.rv_text.specs.declared.line.CodeItem.{CodeItem};
    ghost use Rattle.rv_line.specs.machine.Labels.{AreLabels};

    ghost Value = { List CodeItem };

    ghost view = { λ code. code.items.now };

    ghost invariant = { λ code. AreLabels code.items.now 0 code.labels };
}

impl<'a> LabelledItems<'a> {
    /// The items, with their labels found.
    pub(crate) fn of(alloc: Global, items: &'a [CodeItem]) -> Result<LabelledItems<'a>, Memory>
        ensures { IfOk result (λ code. code ≡ items.entry.now) }
    {
        let labels = labels_of(alloc, items)?;
        Ok(LabelledItems { items, labels })
    }

    /// What stands behind the first label with this text.
    pub(crate) fn behind_label(&self, target: &[u8]) -> Option<&'a [CodeItem]>
        ensures { option_map (λ rest. rest.now) result ≡ spec.behind_label target.now self.now }
    {
        let place = self.labels.place_behind(target)?;
        Some(&self.items[place..])
    }
}

/// The first line, and what stands behind it.
pub(crate) fn next_line(items: &[CodeItem]) -> Option<(&Line, &[CodeItem])>
    ensures { option_map (λ next. (next.0.now, next.1.now)) result ≡ spec.next_line
        items.entry.now }
{
    for (at, item) in items.iter().enumerate() {
        if let CodeItem::Code { line } = item {
            return Some((line, &items[at + 1..]));
        }
    }
    None
}
