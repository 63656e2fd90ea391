//! What an instruction comes to by the form that is chosen for it.
ghost use Rattle.std.specs.Prelude.{◌≡◌, ◌∷◌, [], ◌<◌, ◌^◌, ℕ, true, false, length};
ghost use Rattle.std.specs.Ordering.{nat_cmp};
ghost use Rattle.std.specs.BTreeMap as map;
ghost use Rattle.rtx_tree.specs.Patterns.{place_of};
ghost use Rattle.form_needs.specs.Needs as needs;
ghost use Rattle.live.specs.Live.{AreLiveRows};
ghost use Rattle.md_desc.specs.Recog.{IsChosen};
ghost use Rattle.md_forms.specs.Forms.{names_of};
ghost use Rattle.pass_refusal.specs.equate.Side as sides;
ghost use Rattle.pass_refusal.specs.equate.Equated.{verdict};
ghost use Rattle.pass_refusal.specs.equate.Views.{side_of};
ghost use Rattle.pass_refusal.specs.machine.Steps.{Judges};
ghost use Rattle.asm_out.specs.Comes.{PlaceComes};
ghost use Rattle.pass_refusal.specs.Outcome.{Gives};
ghost use Rattle.asm_out.specs.machine.Steps as steps;

use crate::lines::{code_piece, read_lines, text_of};
use crate::piece::Piece;
use crate::setting::Setting;
use live::live_after_by;
use md_desc::{Chosen, Description};
use pass_refusal::{PassRefusal, Side, judge};
use plain_data::Items;
use rtx_tree::{Insn, RegSet};
use rv_text::Line;
use std::alloc::Global;
use std::slice;

/// Compares an instruction with the lines that stand for it by a form, over the registers that are
/// live behind it.
fn compare(
    alloc: Global,
    description: &Description,
    form: u32,
    insn: &Insn,
    side: &Side,
    live: &RegSet,
) -> Result<(), PassRefusal>
    requires { sides.side_length (side_of side.now) < 2 ^ 32 }
    ensures { Judges result insn.now.uid (needs.name_at (names_of description.now) form)
        (verdict (insn.now ∷ []) (side_of side.now) live.now) }
{
    judge(
        alloc,
        description,
        form,
        insn.uid,
        slice::from_ref(insn),
        side,
        live,
    )
}

/// The lines of a side.
fn lines_in(alloc: Global, side: Side) -> Items<Line>
    ensures { result ≡ steps.lines_in side }
{
    match side {
        Side::Insns { .. } => Items::new(alloc),
        Side::Lines { lines, .. } => lines,
    }
}

/// What an instruction at a place comes to by the chosen form: its lines, where they are equated
/// with it over the registers that are live behind it. More lines than 32 bits count find no
/// memory.
pub fn chosen_piece(
    setting: &Setting,
    place: u32,
    insn: &Insn,
    chosen: &Chosen,
) -> Result<Piece, PassRefusal>
    requires short { length setting.now.function.now.insns < 2 ^ 32 }
    requires labels { (uid : ℕ) → map.get nat_cmp setting.now.labels.now uid ≡
        place_of uid setting.now.function.now.insns }
    requires rows { AreLiveRows setting.now.function.now setting.now.rows.now }
    requires needs { needs.needs_form insn.now ≡ true }
    requires chosen { IsChosen setting.now.description.now needs.output_facts insn.now.pattern chosen.now }
    ensures { Gives result
        (PlaceComes setting.now.description.now setting.now.number setting.now.function.now place insn.now) }
{
    let alloc = setting.alloc;
    let text = text_of(alloc, setting.description, setting.number, insn, chosen)?;
    let lines = read_lines(alloc, text.as_slice())?;
    if lines.len() > u32::MAX as usize {
        return Err(PassRefusal::Memory);
    }
    let live = live_after_by(alloc, setting.function, setting.labels, setting.rows, place)?;
    let side = Side::Lines {
        function: setting.number,
        lines,
    };
    compare(alloc, setting.description, chosen.form, insn, &side, &live)?;
    Ok(code_piece(alloc, text.as_slice(), lines_in(alloc, side))?)
}
