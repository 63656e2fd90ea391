//! An expression up to the term that was read last.
ghost use Rattle.std.specs.Prelude.{◌≡◌, IfOk};
ghost use Rattle.dfa_ways.specs.Expression as spec;

use crate::join::{all_joined, no_cycle, one_of};
use crate::token::Mark;
use crate::way::{Joint, Way, Ways};
use plain_data::{Items, Memory};
use std::alloc::Global;

/// An expression as far as it was read, up to its last `+`, `|`, `,` or `(`.
#[derive(Drop)]
pub struct Level {
    /// The ways of what stands before the last comma.
    pub parts: Ways,
    /// Those of what stands between it and the last bar.
    pub choices: Ways,
    /// Those of what stands between both and the last plus.
    pub terms: Ways,
}

impl Level {
    /// Nothing was read.
    pub fn new(alloc: Global) -> Result<Level, Memory>
        ensures { IfOk result (λ level. level ≡ spec.new_level) }
    {
        Ok(Level {
            parts: no_cycle(alloc)?,
            choices: Items::new(alloc),
            terms: no_cycle(alloc)?,
        })
    }

    /// With one term more.
    #[tactic(auto, unfolding(crate::specs::Expression::with_term))]
    fn with_term(self, alloc: Global, term: &[Way]) -> Result<Option<Level>, Memory>
        ensures { IfOk result (λ level. level ≡ spec.with_term self term.now) }
    {
        let Level {
            parts,
            choices,
            terms,
        } = self;
        match all_joined(alloc, Joint::AtOnce, terms.as_slice(), term)? {
            Some(terms) => Ok(Some(Level {
                parts,
                choices,
                terms,
            })),
            None => Ok(None),
        }
    }

    /// With its terms as one choice more.
    #[tactic(auto, unfolding(crate::specs::Expression::with_choice))]
    fn with_choice(self, alloc: Global) -> Result<Option<Level>, Memory>
        ensures { IfOk result (λ level. level ≡ spec.with_choice self) }
    {
        let Level {
            parts,
            choices,
            terms,
        } = self;
        match one_of(choices, terms)? {
            Some(choices) => Ok(Some(Level {
                parts,
                choices,
                terms: no_cycle(alloc)?,
            })),
            None => Ok(None),
        }
    }

    /// With its choices as one part more.
    #[tactic(auto, unfolding(crate::specs::Expression::with_part))]
    fn with_part(self, alloc: Global) -> Result<Option<Level>, Memory>
        ensures { IfOk result (λ level. level ≡ spec.with_part self) }
    {
        let Level {
            parts,
            choices,
            terms,
        } = self;
        match all_joined(alloc, Joint::Behind, parts.as_slice(), choices.as_slice())? {
            Some(parts) => Ok(Some(Level {
                parts,
                choices: Items::new(alloc),
                terms,
            })),
            None => Ok(None),
        }
    }

    /// With one term more, which ends a choice.
    #[tactic(auto, unfolding(crate::specs::Expression::behind_bar))]
    fn behind_bar(self, alloc: Global, term: &[Way]) -> Result<Option<Level>, Memory>
        ensures { IfOk result (λ level. level ≡ spec.behind_bar self term.now) }
    {
        match self.with_term(alloc, term)? {
            Some(level) => level.with_choice(alloc),
            None => Ok(None),
        }
    }

    /// With one term more, which ends a part.
    #[tactic(auto, unfolding(crate::specs::Expression::behind_comma))]
    fn behind_comma(self, alloc: Global, term: &[Way]) -> Result<Option<Level>, Memory>
        ensures { IfOk result (λ level. level ≡ spec.behind_comma self term.now) }
    {
        match self.behind_bar(alloc, term)? {
            Some(level) => level.with_part(alloc),
            None => Ok(None),
        }
    }

    /// With one term more, behind a plus, a bar or a comma.
    #[tactic(auto, unfolding(crate::specs::Expression::behind_term))]
    pub fn behind(self, alloc: Global, mark: Mark, term: &[Way]) -> Result<Option<Level>, Memory>
        ensures { IfOk result (λ level. level ≡ spec.behind_term mark self term.now) }
    {
        match mark {
            Mark::Plus => self.with_term(alloc, term),
            Mark::Bar => self.behind_bar(alloc, term),
            Mark::Comma => self.behind_comma(alloc, term),
            Mark::Blank | Mark::Star | Mark::Open | Mark::Close => Ok(None),
        }
    }

    /// The ways of all, with one term more, which is the last.
    #[tactic(auto, unfolding(crate::specs::Expression::whole))]
    pub fn whole(self, alloc: Global, term: &[Way]) -> Result<Option<Ways>, Memory>
        ensures { IfOk result (λ ways. ways ≡ spec.whole self term.now) }
    {
        match self.behind_comma(alloc, term)? {
            Some(level) => Ok(Some(level.parts)),
            None => Ok(None),
        }
    }
}
