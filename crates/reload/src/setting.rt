//! What instructions are reloaded by.
ghost use Rattle.std.specs.Prelude.{◌≡◌, IfOk, MatchBool, MatchOption};
ghost use Rattle.md_desc.specs.Recog.{IsFirst, NoneMatches};
ghost use Rattle.form_needs.specs.Needs as needs;
ghost use Rattle.reload_homes.specs.Homes.{AreOrdered, homed};
ghost use Rattle.reload.specs.Reload as spec;

use assign::{Homes, Layout};
use form_needs::lower_facts;
use md_desc::{Description, FormMatch};
use md_forms::Entry;
use plain_data::Memory;
use reload_choice::Given;
use reload_homes::{with_frame, with_homes};
use reload_operands::{operands_of, whole_of};
use rtx_tree::{Insn, Kind, Operands, Rtx};
use std::alloc::Global;

/// A description, the homes of a function's registers, and the layout of its frame.
#[derive(Drop)]
pub(crate) struct Setting<'a> {
    pub alloc: Global,
    pub desc: &'a Description,
    pub homes: &'a Homes,
    pub layout: &'a Layout,
}

impl Setting<'_> {
    /// An instruction with its references to the frame put in.
    pub fn placed(&self, insn: &Insn) -> Result<Rtx, Memory>
        ensures { IfOk result (λ x. x ≡ spec.placed self.now.layout.now insn.now) }
    {
        with_frame(self.alloc, &insn.pattern, self.layout.size)
    }

    /// A tree with the homes of its registers put in.
    pub fn homed(&self, x: &Rtx) -> Result<Rtx, Memory>
        requires { AreOrdered self.now.homes.now self.now.layout.now }
        ensures { IfOk result (λ r. r ≡ homed self.now.homes.now self.now.layout.now x.now) }
    {
        with_homes(self.alloc, x, self.homes, self.layout)
    }

    /// The first form that matches a tree, before registers have homes.
    pub fn first_match(&self, x: &Rtx) -> Result<Option<FormMatch>, Memory>
        ensures { IfOk result (λ r. MatchOption r
            (NoneMatches self.now.desc.now needs.lower_facts x.now)
            (λ m. IsFirst self.now.desc.now needs.lower_facts x.now 0 m)) }
    {
        self.desc.recog(self.alloc, x, &lower_facts(self.alloc))
    }

    /// Whether some form does.
    pub fn is_matched(&self, x: &Rtx) -> Result<bool, Memory>
        ensures { IfOk result (λ b. MatchBool b (spec.IsMatched self.now.desc.now x.now)
            (NoneMatches self.now.desc.now needs.lower_facts x.now)) }
    {
        match self.first_match(x)? {
            Some(_) => Ok(true),
            None => Ok(false),
        }
    }

    /// What is chosen from for a tree in the frame that a pattern matches with operands, as an
    /// instruction of a kind.
    pub fn given(
        &self,
        kind: Kind,
        placed: &Rtx,
        pattern: &Rtx,
        found: &Operands,
    ) -> Result<Given, Memory>
        requires { AreOrdered self.now.homes.now self.now.layout.now }
        ensures { IfOk result (λ given.
            given ≡ spec.given_of self.now.homes.now self.now.layout.now kind placed.now pattern.now
            found.now) }
    {
        let insn = self.homed(placed)?;
        let operands = operands_of(
            self.alloc,
            pattern,
            found,
            placed,
            &insn,
            self.homes,
            self.layout,
        )?;
        let whole = whole_of(self.alloc, placed, &insn)?;
        Ok(Given {
            pattern: pattern.copy(self.alloc)?,
            kind,
            insn,
            operands,
            whole,
        })
    }
}

fn patterns_in(entry: &Entry) -> &[Rtx]
    ensures { result.now ≡ spec.patterns_in entry.now }
{
    match &entry.form {
        Ok(form) => form.patterns.as_slice(),
        Err(_) => &[],
    }
}

/// The patterns of a form.
pub(crate) fn patterns_at(desc: &Description, form: u32) -> &[Rtx]
    ensures { result.now ≡ spec.patterns_at desc.now form }
{
    match desc.forms().as_slice().get(form as usize) {
        Some(entry) => patterns_in(entry),
        None => &[],
    }
}
