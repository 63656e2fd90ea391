//! Answers a question after all that it is made of, in the order in which questions are made of one
//! another.
//!
//! Each question is answered once, for all modes, whoever asks for it again. What is known is kept
//! in room that the table has for it, so no memory is taken and no call is nested in another.
ghost use Rattle.std.specs.Prelude.{◌≡◌, ◌<◌, ◌≤◌, length, IfSome};
ghost use Rattle.rtx_tree.specs.declared.tree.Rtx.{Rtx};
ghost use Rattle.md_pred.specs.declared.table.PredTable.{PredTable};
ghost use Rattle.md_pred.specs.machine.Known as spec;
ghost use Rattle.md_pred.specs.machine.Known.{AreAnswers, AreKnown};
ghost use Rattle.md_pred.specs.machine.Steps as steps;
ghost use Rattle.md_pred.specs.machine.Table as tables;

use crate::answers::Answers;
use crate::definitions::Definition;
use crate::step::Step;
use crate::table::PredTable;
use md_operand::BuiltIn;
use pred_rows::{Node, condition_holds, has_code};
use rtx_tree::{Name, Rtx};

/// What is known of a place.
fn known_in(known: &[Option<Answers>], place: usize) -> Option<Answers>
    ensures { result ≡ spec.known_in known.now place }
{
    match known.get(place) {
        Some(answers) => *answers,
        None => None,
    }
}

/// Keeps what is known of a place.
fn keep(known: &mut [Option<Answers>], place: usize, answers: Option<Answers>)
    ensures { (table : PredTable) (x : Rtx) → AreKnown table x known.old →
        IfSome answers (AreAnswers (spec.at_place table x place)) → AreKnown table x known.new }
{
    if place < known.len() {
        known[place] = answers;
    }
}

/// Nothing is known any more.
fn forget(known: &mut [Option<Answers>])
    ensures { (table : PredTable) (x : Rtx) → AreKnown table x known.new }
{
    known.fill(None);
}

impl PredTable {
    /// What is known of a part of the question at a place. It stands before the question.
    fn part_known(&self, known: &[Option<Answers>], at: usize, place: usize) -> Option<Answers>
        requires { at < length self.now.definitions.rows }
        ensures { (x : Rtx) → AreKnown self.now x known.now →
            IfSome result (AreAnswers (spec.part_at self.now x at place)) }
    {
        if place < at {
            known_in(known, place)
        } else {
            Some(Answers::all(false))
        }
    }

    /// The answers of a definition.
    fn defined(
        &self,
        known: &[Option<Answers>],
        definition: Option<Definition>,
        x: &Rtx,
    ) -> Option<Answers>
        requires { AreKnown self.now x.now known.now }
        ensures { IfSome result (AreAnswers (spec.defined_by self.now x.now definition)) }
    {
        match definition {
            Some(
                Definition {
                    head,
                    root: Some(root),
                },
            ) => Some(known_in(known, root)?.fitting(head, x)),
            _ => Some(Answers::all(false)),
        }
    }

    /// The answers of a predicate.
    fn named(&self, known: &[Option<Answers>], name: &Name, x: &Rtx) -> Option<Answers>
        requires { AreKnown self.now x.now known.now }
        ensures { IfSome result (AreAnswers (spec.named_by self.now x.now name.now)) }
    {
        match BuiltIn::named(name.bytes()) {
            Some(own) => Some(Answers::of_own(own, x)),
            None => {
                self.defined(known, self.definitions.named(name.bytes()), x)?
                    .asked_for()
            }
        }
    }

    /// The answers of a choice between parts of the question at a place.
    fn choice_known(
        &self,
        known: &[Option<Answers>],
        at: usize,
        a: usize,
        b: usize,
        c: usize,
    ) -> Option<Answers>
        requires { at < length self.now.definitions.rows }
        ensures { (x : Rtx) → AreKnown self.now x known.now →
            IfSome result (AreAnswers (spec.choice_at self.now x at a b c)) }
    {
        let first = self.part_known(known, at, a)?;
        Some(first.chosen(
            self.part_known(known, at, b)?,
            self.part_known(known, at, c)?,
        ))
    }

    /// The answers of two parts of the question at a place, of which one is enough.
    fn either_known(
        &self,
        known: &[Option<Answers>],
        at: usize,
        a: usize,
        b: usize,
    ) -> Option<Answers>
        requires { at < length self.now.definitions.rows }
        ensures { (x : Rtx) → AreKnown self.now x known.now →
            IfSome result (AreAnswers (spec.either_at self.now x at a b)) }
    {
        let first = self.part_known(known, at, a)?;
        Some(first.chosen(Answers::all(true), self.part_known(known, at, b)?))
    }

    /// The answers of two parts of the question at a place, of which both are needed.
    fn both_known(
        &self,
        known: &[Option<Answers>],
        at: usize,
        a: usize,
        b: usize,
    ) -> Option<Answers>
        requires { at < length self.now.definitions.rows }
        ensures { (x : Rtx) → AreKnown self.now x known.now →
            IfSome result (AreAnswers (spec.both_at self.now x at a b)) }
    {
        let first = self.part_known(known, at, a)?;
        Some(first.chosen(self.part_known(known, at, b)?, Answers::all(false)))
    }

    /// The other answers than those of a part of the question at a place.
    fn turned_known(&self, known: &[Option<Answers>], at: usize, a: usize) -> Option<Answers>
        requires { at < length self.now.definitions.rows }
        ensures { (x : Rtx) → AreKnown self.now x known.now →
            IfSome result (AreAnswers (spec.turned_at self.now x at a)) }
    {
        Some(
            self.part_known(known, at, a)?
                .chosen(Answers::all(false), Answers::all(true)),
        )
    }

    /// The answers of a node at a place.
    fn node_known(
        &self,
        known: &[Option<Answers>],
        at: usize,
        node: &Node,
        x: &Rtx,
    ) -> Option<Answers>
        requires at { at < length self.now.definitions.rows }
        requires known { AreKnown self.now x.now known.now }
        ensures { IfSome result (AreAnswers (spec.node_at self.now x.now at node.now)) }
    {
        match node {
            Node::Codes(codes) => Some(Answers::all(has_code(codes.as_slice(), x))),
            Node::Condition(heads) => Some(Answers::all(condition_holds(heads.as_slice(), x))),
            Node::Predicate { name, mode } => Some(self.named(known, name, x)?.in_own(*mode)),
            Node::And(a, b) => self.both_known(known, at, *a, *b),
            Node::Ior(a, b) => self.either_known(known, at, *a, *b),
            Node::Not(a) => self.turned_known(known, at, *a),
            Node::IfThenElse(a, b, c) => self.choice_known(known, at, *a, *b, *c),
        }
    }

    /// The answers of the question at a place, where those that it is made of are known.
    fn place_known(&self, known: &[Option<Answers>], place: usize, x: &Rtx) -> Option<Answers>
        requires { AreKnown self.now x.now known.now }
        ensures { IfSome result (AreAnswers (spec.at_place self.now x.now place)) }
    {
        match self.definitions.rows.nodes().get(place) {
            Some(node) => self.node_known(known, place, node, x),
            None => None,
        }
    }

    /// The answers of the question at a place, behind those of all before it in the order.
    fn known_behind(&self, known: &mut [Option<Answers>], root: usize, x: &Rtx) -> Option<Answers>
        requires { AreKnown self.now x.now known.old }
        ensures { IfSome result (AreAnswers (spec.at_place self.now x.now root)) }
    {
        for place in self.order.as_slice() {
            let answers = self.place_known(known, *place, x);
            if *place == root {
                return answers;
            }
            keep(known, *place, answers);
        }
        None
    }

    /// The answer to what is asked, with each question answered once, where the room for that is
    /// free.
    pub(crate) fn in_order(&self, step: Step, x: &Rtx) -> Option<bool>
        ensures { IfSome result (λ answer. answer ≡ steps.step_holds self.now x.now step) }
    {
        let Step::Is(at) = step else {
            return None;
        };
        if !self.is_dear(at.place) {
            return None;
        }
        let mut room = self.known.try_borrow_mut().ok()?;
        let known = (&mut *room).as_mut_slice();
        forget(known);
        let answers = self.known_behind(known, at.place, x)?;
        if answers.rounds <= at.rounds {
            Some(answers.at(at.mode))
        } else {
            None
        }
    }
}
