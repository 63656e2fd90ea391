//! The table of the predicates of a description.
ghost use Rattle.std.specs.Prelude.{◌≡◌, IfOk};

use crate::answers::Answers;
use crate::definitions::Definitions;
use crate::weight::{Weighed, weigh_all};
use c_eval::Preds;
use md_forms::Forms;
use plain_data::{Items, Memory};
use rtx_tree::{Mode, Name, Rtx};
use std::alloc::Global;
use std::cell::RefCell;

/// The predicates of a description: those that its forms define, and those that every description
/// has.
#[derive(Drop)]
pub struct PredTable {
    /// The definitions.
    pub(crate) definitions: Definitions,
    /// How many questions are asked at most where the one at a place is answered by itself.
    pub(crate) weights: Items<u32>,
    /// The places of all questions, each behind those that its question is made of.
    pub(crate) order: Items<usize>,
    /// Room for what is known of each place while a question is answered.
    pub(crate) known: RefCell<Vec<Option<Answers>>>,
    /// How often definitions may ask for one another, one behind the other.
    pub(crate) rounds: usize,
}

/// Room for what is known of each place.
fn room_for(alloc: Global, places: &[u32]) -> Result<Vec<Option<Answers>>, Memory> {
    let mut room = Vec::new(alloc);
    room.resize(places.len(), None)?;
    Ok(room)
}

impl PredTable {
    ghost use Rattle.std.specs.Prelude.{List};
    ghost use Rattle.md_forms.specs.md_draft.declared.draft.DraftEntry.{DraftEntry};
    ghost use Rattle.md_forms.specs.Forms.{forms_in};
    ghost use Rattle.ask_order.specs.Order.{IsOrder, AreWeights};
    ghost use Rattle.md_pred.specs.Holds.{holds, IsTold};
    ghost use Rattle.md_pred.specs.machine.Table.{accepted_by};
    ghost use Rattle.md_pred.specs.machine.Weights.{asked_of};

    /// The table of the predicates that some forms define. Of a name the first definition counts,
    /// and one that is set aside accepts nothing. For the forms of a description the definitions
    /// tell what predicates accept. Its questions stand behind those that they ask, each with how
    /// many are asked for it.
    pub fn of(alloc: Global, forms: &Forms) -> Result<PredTable, Memory>
        ensures accepts { IfOk result (λ table. accepted_by table ≡ holds forms.now) }
        ensures told { (drafts : List DraftEntry) → forms.now ≡ forms_in drafts →
            IsTold forms.now (holds forms.now) }
        ensures ordered { IfOk result (λ table. IsOrder (asked_of table.definitions) table.order) }
        ensures weighed { IfOk result (λ table.
            AreWeights (asked_of table.definitions) table.order table.weights) }
    {
        let definitions = Definitions::of(alloc, forms.as_slice())?;
        let rounds = forms.len() + 1;
        let Weighed { weights, order } = weigh_all(alloc, &definitions)?;
        let known = room_for(alloc, weights.as_slice())?;
        Ok(PredTable {
            definitions,
            weights,
            order,
            known: RefCell::new(known),
            rounds,
        })
    }
}

impl Preds for PredTable {
    ghost use Rattle.md_pred.specs.machine.Table.{accepted_by};

    ghost accepts = { λ table. accepted_by table };

    fn holds(&self, name: &Name, x: &Rtx, mode: Mode) -> bool {
        let step = self.asked(name, x, mode, self.rounds);
        match self.in_order(step, x) {
            Some(answer) => answer,
            None => self.answer(step, x),
        }
    }
}
