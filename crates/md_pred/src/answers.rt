//! The answers to a question in all modes at once.
ghost use Rattle.std.specs.Prelude.{◌≡◌, ◌+◌, ◌≤◌, IfSome, ◌&&◌, if◌then◌else◌};
ghost use Rattle.rtx_tree.specs.declared.code.Mode.{Mode};
ghost use Rattle.rtx_tree.specs.Code.{mode_or};
ghost use Rattle.md_operand.specs.Operand.{accepts};
ghost use Rattle.md_pred.specs.Holds as spec;
ghost use Rattle.md_pred.specs.machine.Known.{answer_in};

use crate::ask::mode_fits;
use md_forms::FormHead;
use md_operand::BuiltIn;
use rtx_tree::{Mode, Rtx};

/// The answers to a question in each mode.
#[derive(Clone, Copy)]
pub struct Answers {
    /// In no mode.
    pub void: bool,
    /// In 8 bits.
    pub qi: bool,
    /// In 16 bits.
    pub hi: bool,
    /// In 32 bits.
    pub si: bool,
    /// In 64 bits.
    pub di: bool,
    /// How often definitions may have to ask for one another, one behind the other, until these
    /// are the answers.
    pub rounds: usize,
}

impl Answers {
    /// The same answer in each mode, for which no definition is asked.
    pub fn all(answer: bool) -> Answers
        ensures { (m : Mode) → answer_in result m ≡ answer }
    {
        Answers {
            void: answer,
            qi: answer,
            hi: answer,
            si: answer,
            di: answer,
            rounds: 0,
        }
    }

    /// What a predicate that every description has accepts.
    pub fn of_own(own: BuiltIn, x: &Rtx) -> Answers
        ensures { (m : Mode) → answer_in result m ≡ accepts own m x.now }
    {
        Answers {
            void: own.accepts(Mode::Void, x),
            qi: own.accepts(Mode::QI, x),
            hi: own.accepts(Mode::HI, x),
            si: own.accepts(Mode::SI, x),
            di: own.accepts(Mode::DI, x),
            rounds: 0,
        }
    }

    /// The answer in a mode.
    pub fn at(self, mode: Mode) -> bool
        ensures { result ≡ answer_in self mode }
    {
        match mode {
            Mode::Void => self.void,
            Mode::QI => self.qi,
            Mode::HI => self.hi,
            Mode::SI => self.si,
            Mode::DI => self.di,
        }
    }

    /// Those where a mode of its own counts before that of the call.
    pub fn in_own(self, own: Mode) -> Answers
        ensures value { (m : Mode) → answer_in result m ≡ answer_in self (mode_or own m) }
        ensures rounds { result.rounds ≡ self.rounds }
    {
        Answers {
            void: self.at(own.or(Mode::Void)),
            qi: self.at(own.or(Mode::QI)),
            hi: self.at(own.or(Mode::HI)),
            si: self.at(own.or(Mode::SI)),
            di: self.at(own.or(Mode::DI)),
            rounds: self.rounds,
        }
    }

    /// Those of a definition with a head, by those of its test.
    pub fn fitting(self, head: FormHead, x: &Rtx) -> Answers
        ensures value { (m : Mode) →
            answer_in result m ≡ spec.mode_fits head m x.now && answer_in self m }
        ensures rounds { result.rounds ≡ self.rounds }
    {
        Answers {
            void: mode_fits(head, Mode::Void, x) && self.void,
            qi: mode_fits(head, Mode::QI, x) && self.qi,
            hi: mode_fits(head, Mode::HI, x) && self.hi,
            si: mode_fits(head, Mode::SI, x) && self.si,
            di: mode_fits(head, Mode::DI, x) && self.di,
            rounds: self.rounds,
        }
    }

    /// Those of a choice, of which these are the answers of the first part.
    pub fn chosen(self, yes: Answers, no: Answers) -> Answers
        ensures value { (m : Mode) → answer_in result m ≡
            (if answer_in self m then answer_in yes m else answer_in no m) }
        ensures rounds { (self.rounds ≤ result.rounds) ×
            ((yes.rounds ≤ result.rounds) × (no.rounds ≤ result.rounds)) }
    {
        Answers {
            void: if self.void { yes.void } else { no.void },
            qi: if self.qi { yes.qi } else { no.qi },
            hi: if self.hi { yes.hi } else { no.hi },
            si: if self.si { yes.si } else { no.si },
            di: if self.di { yes.di } else { no.di },
            rounds: self.rounds.max(yes.rounds).max(no.rounds),
        }
    }

    /// Those of a definition's name, by those of the definition.
    pub fn asked_for(self) -> Option<Answers>
        ensures { IfSome result (λ a. (a.rounds ≡ self.rounds + 1) ×
            ((m : Mode) → answer_in a m ≡ answer_in self m)) }
    {
        Some(Answers {
            rounds: self.rounds.checked_add(1)?,
            ..self
        })
    }
}
