//! The lists and vectors that are open, which contracts see with the innermost first.
ghost use Rattle.std.specs.Prelude.{◌≡◌, List, ℕ, [], ◌∷◌, ◌++◌, OnOk, MatchOption, length};

use crate::class::Bracket;
use crate::tree::Trees;
use plain_data::Memory;
use rtx_tree::Place;
use std::alloc::Global;
use std::marker::Model;

/// A list or vector that is open.
#[derive(Drop)]
pub struct Frame {
    /// Which of the two it is.
    pub kind: Bracket,
    /// Where its opening byte stands.
    pub place: Place,
    /// The trees before it in the list or vector that holds it.
    pub before: Trees,
}

/// The lists and vectors that are open.
#[derive(Drop)]
pub struct Stack {
    frames: Vec<Frame>,
}

impl Model for Stack {
    ghost use Rattle.std.specs.Prelude.{List, reverse};
    ghost use Rattle.std.specs.Coded.{coded_list};
    ghost use Rattle.lisp_read.specs.declared.stack.Frame.{Frame};
    ghost use Rattle.lisp_read.specs.contracts.stack.Frame as frame;

    ghost Value = { List Frame };

    ghost coded = { coded_list frame.the_row.coded };

    ghost view = { λ s. reverse s.frames.items };
}

impl Stack {
    /// None is open. It takes no memory.
    pub fn new(alloc: Global) -> Stack
        ensures { result ≡ [] }
    {
        Stack {
            frames: Vec::new(alloc),
        }
    }

    /// How many are open.
    pub fn len(&self) -> usize
        ensures { result ≡ length self.now }
    {
        self.frames.len()
    }

    /// Opens one more.
    pub fn push(&mut self, frame: Frame) -> Result<(), Memory>
        ensures { OnOk result (self.new ≡ frame ∷ self.old) }
    {
        self.frames.push(frame)?;
        Ok(())
    }

    /// Takes the innermost away.
    pub fn pop(&mut self) -> Option<Frame>
        ensures { MatchOption result ((self.old ≡ []) × (self.new ≡ [])) (λ frame.
            self.old ≡ frame ∷ self.new) }
    {
        self.frames.pop()
    }
}
