//! Asks a table of predicates.
//!
//! A question at a place is answered, or comes to another question, whose answer it has or has not.
//! Of the parts of a question those with less behind them are answered by calls, and the last is
//! the question that it comes to.
ghost use Rattle.std.specs.Prelude.{◌≡◌, ℕ, ◌+◌, ◌*◌, ◌<◌, ◌≤◌, nat_lt, ◌&&◌, ◌||◌, length, slice_get, Some, if◌then◌else◌};
ghost use Rattle.ask_order.specs.Order.{weight_at};
ghost use Rattle.md_pred.specs.Holds as spec;
ghost use Rattle.md_pred.specs.machine.Steps as steps;
ghost use Rattle.md_pred.specs.machine.Table as tables;
ghost use Rattle.pred_rows.specs.machine.Rows as rows;

use crate::definitions::Definition;
use crate::step::{At, Step};
use crate::table::PredTable;
use md_forms::FormHead;
use md_operand::{BuiltIn, has_mode};
use pred_rows::{Node, condition_holds, has_code};
use rtx_tree::{Mode, Name, Rtx};

/// Whether a tree has the mode, or is a constant, which has none.
fn is_of_mode(mode: Mode, x: &Rtx) -> bool
    ensures { result ≡ spec.is_of_mode mode x.now }
{
    has_mode(mode, x) || x.is_constant()
}

/// Whether a definition's head lets a tree through in a mode.
pub fn mode_fits(head: FormHead, mode: Mode, x: &Rtx) -> bool
    ensures { result ≡ spec.mode_fits head mode x.now }
{
    match head {
        FormHead::Predicate => is_of_mode(mode, x),
        _ => true,
    }
}

impl PredTable {
    /// What a definition comes to, from which definitions may be asked for so often.
    fn begun(&self, definition: Option<Definition>, x: &Rtx, mode: Mode, rounds: usize) -> Step
        ensures value { steps.step_holds self.now x.now result ≡ tables.kept_holds
            (steps.asked_within self.now rounds) x.now mode self.now.definitions.rows definition }
        ensures size { steps.step_size self.now result ≤ (rounds + 1) *
            (length self.now.definitions.rows + 1) }
    {
        match definition {
            Some(
                Definition {
                    head,
                    root: Some(root),
                },
            ) if mode_fits(head, mode, x) => Step::Is(At {
                place: root,
                mode,
                rounds,
            }),
            _ => Step::Answer(false),
        }
    }

    /// What a predicate comes to, where definitions may be asked for so often.
    pub(crate) fn asked(&self, name: &Name, x: &Rtx, mode: Mode, rounds: usize) -> Step
        ensures value { steps.step_holds self.now x.now result ≡
            steps.asked_within self.now rounds name.now x.now mode }
        ensures size { steps.step_size self.now result ≤ rounds *
            (length self.now.definitions.rows + 1) }
    {
        match BuiltIn::named(name.bytes()) {
            Some(own) => Step::Answer(own.accepts(mode, x)),
            None if rounds == 0 => Step::Answer(false),
            None => self.begun(self.definitions.named(name.bytes()), x, mode, rounds - 1),
        }
    }

    /// What a part of a question comes to. It stands before the question.
    fn part(&self, at: At, place: usize) -> Step
        requires { at.place < length self.now.definitions.rows }
        ensures value { (x : Rtx) →
            steps.step_holds self.now x result ≡ steps.part_holds self.now x at place }
        ensures size { steps.step_size self.now result ≤ steps.size_at self.now at }
    {
        if place < at.place {
            Step::Is(At {
                place,
                mode: at.mode,
                rounds: at.rounds,
            })
        } else {
            Step::Answer(false)
        }
    }

    /// How many questions are asked at most where the one at a place is answered by itself.
    fn weight(&self, place: usize) -> u32
        ensures { result ≡ weight_at self.now.weights place }
    {
        self.weights.as_slice().get(place).copied().unwrap_or(0)
    }

    /// Whether more questions than there are may be asked for the one at a place, some of them
    /// again and again.
    pub(crate) fn is_dear(&self, place: usize) -> bool
        ensures { result ≡ nat_lt (length self.now.order) (weight_at self.now.weights place) }
    {
        self.weight(place) as usize > self.order.len()
    }

    /// Whether the first of three parts has most behind it.
    fn is_heaviest(&self, a: usize, b: usize, c: usize) -> bool {
        self.weight(b) < self.weight(a) && self.weight(c) < self.weight(a)
    }

    /// What a question of two parts comes to. Where the first part has this answer, it decides.
    #[cycle(ask)]
    fn joined(&self, at: At, first: usize, last: usize, decides: bool, x: &Rtx) -> Step
        requires { at.place < length self.now.definitions.rows }
        ensures value { steps.step_holds self.now x.now result ≡
            (if decides then steps.part_holds self.now x.now at first || steps.part_holds self.now
            x.now at last else steps.part_holds self.now x.now at first && steps.part_holds self.now
            x.now at last) }
        ensures size { steps.step_size self.now result ≤ steps.size_at self.now at }
    {
        if self.answer(self.part(at, first), x) == decides {
            Step::Answer(decides)
        } else {
            self.part(at, last)
        }
    }

    /// Two parts joined, the one with less behind it asked first.
    #[cycle(ask)]
    fn lighter_first(&self, at: At, a: usize, b: usize, decides: bool, x: &Rtx) -> Step
        requires { at.place < length self.now.definitions.rows }
        ensures value { steps.step_holds self.now x.now result ≡
            (if decides then steps.part_holds self.now x.now at a || steps.part_holds self.now x.now
            at b else steps.part_holds self.now x.now at a && steps.part_holds self.now x.now at
            b) }
        ensures size { steps.step_size self.now result ≤ steps.size_at self.now at }
    {
        if self.weight(a) < self.weight(b) {
            self.joined(at, a, b, decides, x)
        } else {
            self.joined(at, b, a, decides, x)
        }
    }

    /// What a choice comes to, its first part being answered before the others.
    #[cycle(ask)]
    fn chosen(&self, at: At, a: usize, b: usize, c: usize, x: &Rtx) -> Step
        requires { at.place < length self.now.definitions.rows }
        ensures value { steps.step_holds self.now x.now result ≡
            (if steps.part_holds self.now x.now at a then steps.part_holds self.now x.now at b else
            steps.part_holds self.now x.now at c) }
        ensures size { steps.step_size self.now result ≤ steps.size_at self.now at }
    {
        if self.answer(self.part(at, a), x) {
            self.part(at, b)
        } else {
            self.part(at, c)
        }
    }

    /// A part chosen by another, the chosen one being what it comes to.
    #[cycle(ask)]
    fn chosen_last(&self, at: At, a: usize, b: usize, c: usize, x: &Rtx) -> Step
        requires { at.place < length self.now.definitions.rows }
        ensures value { steps.step_holds self.now x.now result ≡
            (if steps.part_holds self.now x.now at a then steps.part_holds self.now x.now at b else
            steps.part_holds self.now x.now at c) }
        ensures size { steps.step_size self.now result ≤ steps.size_at self.now at }
    {
        let then = self.answer(self.part(at, b), x);
        let otherwise = self.answer(self.part(at, c), x);
        if then == otherwise {
            Step::Answer(then)
        } else if then {
            self.part(at, a)
        } else {
            self.part(at, a).turned()
        }
    }

    /// What a choice comes to.
    #[cycle(ask)]
    fn choice(&self, at: At, a: usize, b: usize, c: usize, x: &Rtx) -> Step
        requires { at.place < length self.now.definitions.rows }
        ensures value { steps.step_holds self.now x.now result ≡
            (if steps.part_holds self.now x.now at a then steps.part_holds self.now x.now at b else
            steps.part_holds self.now x.now at c) }
        ensures size { steps.step_size self.now result ≤ steps.size_at self.now at }
    {
        if self.is_heaviest(a, b, c) {
            self.chosen_last(at, a, b, c, x)
        } else {
            self.chosen(at, a, b, c, x)
        }
    }

    /// What the question of a node comes to.
    #[cycle(ask)]
    fn node_step(&self, at: At, node: &Node, x: &Rtx) -> Step
        requires { at.place < length self.now.definitions.rows }
        ensures value { steps.step_holds self.now x.now result ≡
            steps.node_holds self.now x.now at node.now }
        ensures size { steps.step_size self.now result ≤ steps.size_at self.now at }
    {
        match node {
            Node::Codes(codes) => Step::Answer(has_code(codes.as_slice(), x)),
            Node::Condition(heads) => Step::Answer(condition_holds(heads.as_slice(), x)),
            Node::Predicate { name, mode } => { self.asked(name, x, mode.or(at.mode), at.rounds) }
            Node::And(a, b) => self.lighter_first(at, *a, *b, false, x),
            Node::Ior(a, b) => self.lighter_first(at, *a, *b, true, x),
            Node::Not(a) => self.part(at, *a).turned(),
            Node::IfThenElse(a, b, c) => self.choice(at, *a, *b, *c, x),
        }
    }

    /// What a question comes to.
    #[cycle(ask)]
    fn step(&self, at: At, x: &Rtx) -> Step
        ensures value { steps.step_holds self.now x.now result ≡ steps.at_holds self.now x.now at }
        ensures size { steps.step_size self.now result ≤ steps.size_at self.now at }
    {
        match self.definitions.rows.nodes().get(at.place) {
            Some(node) => self.node_step(at, node, x),
            None => Step::Answer(false),
        }
    }

    /// The answer to what is asked.
    #[cycle(ask)]
    pub(crate) fn answer(&self, first: Step, x: &Rtx) -> bool
        ensures { result ≡ steps.step_holds self.now x.now first }
    {
        let mut step = first;
        loop {
            match step {
                Step::Answer(answer) => return answer,
                Step::Is(at) => step = self.step(at, x),
                Step::IsNot(at) => step = self.step(at, x).turned(),
            }
        }
    }
}
