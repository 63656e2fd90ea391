//! What stands for the items of a function's chain.
ghost use Rattle.std.specs.Prelude.{◌≡◌, ◌∷◌, [], ◌<◌, ◌^◌, ℕ, true, false, length};
ghost use Rattle.std.specs.Ordering.{nat_cmp};
ghost use Rattle.std.specs.BTreeMap as map;
ghost use Rattle.rtx_tree.specs.Patterns.{place_of};
ghost use Rattle.form_needs.specs.Needs as needs;
ghost use Rattle.live.specs.Live.{AreLiveRows};
ghost use Rattle.asm_out.specs.Comes.{PlaceComes, PartComes, PartsCome, Place, places_from};
ghost use Rattle.asm_out.specs.Outcome.{Appends};
ghost use Rattle.pass_refusal.specs.Outcome.{Gives};

use crate::chosen::chosen_piece;
use crate::frame::{label, only_text};
use crate::piece::{Piece, append_piece};
use crate::setting::Setting;
use form_needs::{is_silent, output_facts};
use pass_refusal::{PassRefusal, unmatched};
use rtx_tree::{Insn, Kind};
use rv_text::CodeItem;
use std::alloc::Global;

/// What an instruction at a place comes to.
fn insn_piece(setting: &Setting, place: u32, insn: &Insn) -> Result<Piece, PassRefusal>
    requires short { length setting.now.function.now.insns < 2 ^ 32 }
    requires labels { (uid : ℕ) → map.get nat_cmp setting.now.labels.now uid ≡
        place_of uid setting.now.function.now.insns }
    requires rows { AreLiveRows setting.now.function.now setting.now.rows.now }
    requires needs { needs.needs_form insn.now ≡ true }
    ensures { Gives result
        (PlaceComes setting.now.description.now setting.now.number setting.now.function.now place insn.now) }
{
    let alloc = setting.alloc;
    match setting
        .description
        .recog_out(alloc, &insn.pattern, &output_facts(alloc))?
    {
        Some(chosen) => chosen_piece(setting, place, insn, &chosen),
        None => Err(unmatched(alloc, insn)?),
    }
}

fn is_label(insn: &Insn) -> bool
    ensures { result ≡ needs.is_label insn.now.kind }
{
    matches!(insn.kind, Kind::Label)
}

/// What an item at a place comes to.
fn item_piece(setting: &Setting, place: u32, insn: &Insn) -> Result<Piece, PassRefusal>
    requires short { length setting.now.function.now.insns < 2 ^ 32 }
    requires labels { (uid : ℕ) → map.get nat_cmp setting.now.labels.now uid ≡
        place_of uid setting.now.function.now.insns }
    requires rows { AreLiveRows setting.now.function.now setting.now.rows.now }
    ensures { Gives result
        (PlaceComes setting.now.description.now setting.now.number setting.now.function.now place insn.now) }
{
    if is_label(insn) {
        return Ok(label(setting.alloc, setting.number, insn.uid)?);
    }
    if is_silent(insn) {
        return Ok(only_text(setting.alloc, Vec::new(setting.alloc)));
    }
    insn_piece(setting, place, insn)
}

/// Appends what stands for an item at a place.
fn write_place(
    setting: &Setting,
    place: u32,
    insn: &Insn,
    out: &mut Vec<u8>,
    items: &mut Vec<CodeItem>,
) -> Result<(), PassRefusal>
    requires short { length setting.now.function.now.insns < 2 ^ 32 }
    requires labels { (uid : ℕ) → map.get nat_cmp setting.now.labels.now uid ≡
        place_of uid setting.now.function.now.insns }
    requires rows { AreLiveRows setting.now.function.now setting.now.rows.now }
    ensures { Appends out.old.items out.new.items items.old.items items.new.items result
        (PartsCome (PartComes setting.now.description.now setting.now.number setting.now.function.now)
        (length out.old.items) (Place place insn.now ∷ [])) }
{
    let piece = item_piece(setting, place, insn)?;
    append_piece(piece, out, items)
}

/// Appends what stands for the items of the chain.
pub fn write_places(
    setting: &Setting,
    out: &mut Vec<u8>,
    items: &mut Vec<CodeItem>,
) -> Result<(), PassRefusal>
    requires short { length setting.now.function.now.insns < 2 ^ 32 }
    requires labels { (uid : ℕ) → map.get nat_cmp setting.now.labels.now uid ≡
        place_of uid setting.now.function.now.insns }
    requires rows { AreLiveRows setting.now.function.now setting.now.rows.now }
    ensures { Appends out.old.items out.new.items items.old.items items.new.items result
        (PartsCome (PartComes setting.now.description.now setting.now.number setting.now.function.now)
        (length out.old.items) (places_from 0 setting.now.function.now.insns)) }
{
    for (place, insn) in setting.function.insns.as_slice().iter().enumerate() {
        write_place(setting, place as u32, insn, out, items)?;
    }
    Ok(())
}
