//! Reads an expression, one token behind the other.
ghost use Rattle.std.specs.Prelude.{◌≡◌, ◌∷◌, [], List, IfOk, OnOk, MatchOption};
ghost use Rattle.std.specs.Option.{option_copied};
ghost use Rattle.dfa_ways.specs.Expression as spec;

use crate::join::{one_cycle, repeated};
use crate::level::Level;
use crate::token::{Mark, Token, tokens_of};
use crate::way::{Way, Ways};
use md_text::operand_number;
use plain_data::Memory;
use rtx_tree::{MOST_TIMES, Name};
use std::alloc::Global;
use std::marker::Model;
use text_words::same;

/// The expressions in which an open parenthesis stands. Contracts see the innermost first.
#[derive(Drop)]
pub struct Outer {
    levels: Vec<Level>,
}

impl Model for Outer {
    ghost use Rattle.std.specs.Prelude.{List, reverse};
    ghost use Rattle.std.specs.Coded.{coded_list};
    ghost use Rattle.dfa_ways.specs.declared.level.Level.{Level};
    ghost use Rattle.dfa_ways.specs.contracts.level.Level as level;

    ghost Value = { List Level };

    ghost coded = { coded_list level.the_row.coded };

    ghost view = { λ s. reverse s.levels.items };
}

impl Outer {
    /// No parenthesis is open.
    fn new(alloc: Global) -> Outer
        ensures { result ≡ [] }
    {
        Outer {
            levels: Vec::new(alloc),
        }
    }

    /// One more is open.
    fn push(&mut self, level: Level) -> Result<(), Memory>
        ensures { OnOk result (self.new ≡ level ∷ self.old) }
    {
        self.levels.push(level)?;
        Ok(())
    }

    /// Takes the innermost away.
    fn pop(&mut self) -> Option<Level>
        ensures { MatchOption result ((self.old ≡ []) × (self.new ≡ [])) (λ level.
            self.old ≡ level ∷ self.new) }
    {
        self.levels.pop()
    }
}

/// What was read behind the last `+`, `|`, `,` or `(`.
#[derive(Drop)]
pub enum Read {
    /// Nothing: an element comes.
    Nothing,
    /// An element, of these ways.
    Element(Ways),
    /// An element and a star: a count comes.
    Star(Ways),
    /// An element and its count, of these ways.
    Counted(Ways),
}

/// An expression as far as it was read.
#[derive(Drop)]
pub struct State {
    /// The expressions around it.
    pub outer: Outer,
    /// What was read of it, up to the last term.
    pub level: Level,
    /// What was read of the term.
    pub read: Read,
}

/// The number that a text writes, from 1 to 1,000.
#[tactic(auto, unfolding(crate::specs::Expression::count_of))]
fn count_of(text: &[u8]) -> Option<u32>
    ensures { result ≡ spec.count_of text.now }
{
    let count = operand_number(text)?;
    if 1 <= count && count <= MOST_TIMES {
        Some(count)
    } else {
        None
    }
}

/// The place of the first unit of a name.
fn unit_named(units: &[Name], word: &[u8]) -> Option<usize>
    ensures { result ≡ spec.unit_named units.now word.now }
{
    units.iter().position(|unit| same(unit.bytes(), word))
}

/// The set of the unit at a place.
fn unit_at(place: usize) -> Option<u64>
    ensures { result ≡ spec.unit_at place }
{
    if place < 64 { Some(1 << place) } else { None }
}

/// The set of units that a word takes.
#[tactic(auto, unfolding(crate::specs::Expression::units_of))]
fn units_of(units: &[Name], word: &[u8]) -> Option<u64>
    ensures { result ≡ spec.units_of units.now word.now }
{
    if same(word, b"nothing") {
        Some(0)
    } else {
        unit_at(unit_named(units, word)?)
    }
}

/// The ways of an element that is a word.
#[tactic(auto, unfolding(crate::specs::Expression::element_of))]
fn element_of(alloc: Global, units: &[Name], word: &[u8]) -> Result<Option<Ways>, Memory>
    ensures { IfOk result (λ ways. ways ≡ spec.element_of units.now word.now) }
{
    match units_of(units, word) {
        Some(taken) => Ok(Some(one_cycle(alloc, taken)?)),
        None => Ok(None),
    }
}

/// The ways of an element with a count behind it.
#[tactic(auto, unfolding(crate::specs::Expression::counted))]
fn counted(alloc: Global, word: &[u8], ways: &[Way]) -> Result<Option<Ways>, Memory>
    ensures { IfOk result (λ all. all ≡ spec.counted word.now ways.now) }
{
    match count_of(word) {
        Some(count) => repeated(alloc, count, ways),
        None => Ok(None),
    }
}

/// What was read, with a word behind it.
#[tactic(auto, unfolding(crate::specs::Expression::with_word))]
fn with_word(alloc: Global, units: &[Name], read: Read, word: &[u8]) -> Result<Option<Read>, Memory>
    ensures { IfOk result (λ read'. read' ≡ spec.with_word units.now read word.now) }
{
    match read {
        Read::Nothing => match element_of(alloc, units, word)? {
            Some(ways) => Ok(Some(Read::Element(ways))),
            None => Ok(None),
        },
        Read::Star(ways) => match counted(alloc, word, ways.as_slice())? {
            Some(ways) => Ok(Some(Read::Counted(ways))),
            None => Ok(None),
        },
        Read::Element(_) | Read::Counted(_) => Ok(None),
    }
}

/// The ways of the term that was read, if one was.
fn term_of(read: Read) -> Option<Ways>
    ensures { result ≡ spec.term_of read }
{
    match read {
        Read::Element(ways) => Some(ways),
        Read::Counted(ways) => Some(ways),
        Read::Nothing | Read::Star(_) => None,
    }
}

impl State {
    /// Nothing was read.
    fn new(alloc: Global) -> Result<State, Memory>
        ensures { IfOk result (λ state. state ≡ spec.start) }
    {
        Ok(State {
            outer: Outer::new(alloc),
            level: Level::new(alloc)?,
            read: Read::Nothing,
        })
    }

    #[tactic(auto, unfolding(crate::specs::Expression::behind_word))]
    fn behind_word(
        self,
        alloc: Global,
        units: &[Name],
        word: &[u8],
    ) -> Result<Option<State>, Memory>
        ensures { IfOk result (λ state. state ≡ spec.behind_word units.now word.now self) }
    {
        let State { outer, level, read } = self;
        match with_word(alloc, units, read, word)? {
            Some(read) => Ok(Some(State { outer, level, read })),
            None => Ok(None),
        }
    }

    #[tactic(auto, unfolding(crate::specs::Expression::behind_star))]
    fn behind_star(self) -> Option<State>
        ensures { result ≡ spec.behind_star self }
    {
        let State { outer, level, read } = self;
        match read {
            Read::Element(ways) => Some(State {
                outer,
                level,
                read: Read::Star(ways),
            }),
            Read::Nothing | Read::Star(_) | Read::Counted(_) => None,
        }
    }

    #[tactic(auto, unfolding(crate::specs::Expression::behind_open))]
    fn behind_open(self, alloc: Global) -> Result<Option<State>, Memory>
        ensures { IfOk result (λ state. state ≡ spec.behind_open self) }
    {
        let State {
            mut outer,
            level,
            read,
        } = self;
        match read {
            Read::Nothing => {
                outer.push(level)?;
                Ok(Some(State {
                    outer,
                    level: Level::new(alloc)?,
                    read: Read::Nothing,
                }))
            }
            Read::Element(_) | Read::Star(_) | Read::Counted(_) => Ok(None),
        }
    }

    #[tactic(auto, unfolding(crate::specs::Expression::behind_close))]
    fn behind_close(self, alloc: Global) -> Result<Option<State>, Memory>
        ensures { IfOk result (λ state. state ≡ spec.behind_close self) }
    {
        let State {
            mut outer,
            level,
            read,
        } = self;
        let Some(term) = term_of(read) else {
            return Ok(None);
        };
        let Some(ways) = level.whole(alloc, term.as_slice())? else {
            return Ok(None);
        };
        match outer.pop() {
            Some(level) => Ok(Some(State {
                outer,
                level,
                read: Read::Element(ways),
            })),
            None => Ok(None),
        }
    }

    /// Behind a plus, a bar or a comma.
    #[tactic(auto, unfolding(crate::specs::Expression::behind_sign))]
    fn behind_sign(self, alloc: Global, mark: Mark) -> Result<Option<State>, Memory>
        ensures { IfOk result (λ state. state ≡ spec.behind_sign mark self) }
    {
        let State { outer, level, read } = self;
        let Some(term) = term_of(read) else {
            return Ok(None);
        };
        match level.behind(alloc, mark, term.as_slice())? {
            Some(level) => Ok(Some(State {
                outer,
                level,
                read: Read::Nothing,
            })),
            None => Ok(None),
        }
    }

    #[tactic(auto, unfolding(crate::specs::Expression::behind_mark))]
    fn behind_mark(self, alloc: Global, mark: Mark) -> Result<Option<State>, Memory>
        ensures { IfOk result (λ state. state ≡ spec.behind_mark mark self) }
    {
        match mark {
            Mark::Blank => Ok(Some(self)),
            Mark::Star => Ok(self.behind_star()),
            Mark::Open => self.behind_open(alloc),
            Mark::Close => self.behind_close(alloc),
            Mark::Comma | Mark::Bar | Mark::Plus => self.behind_sign(alloc, mark),
        }
    }

    #[tactic(auto, unfolding(crate::specs::Expression::behind))]
    fn behind(self, alloc: Global, units: &[Name], token: &Token) -> Result<Option<State>, Memory>
        ensures { IfOk result (λ state. state ≡ spec.behind units.now self token.now) }
    {
        match token {
            Token::Mark(mark) => self.behind_mark(alloc, *mark),
            Token::Word(word) => self.behind_word(alloc, units, word.bytes()),
        }
    }

    /// The ways of an expression that ends here.
    #[tactic(auto, unfolding(crate::specs::Expression::ended))]
    fn ended(self, alloc: Global) -> Result<Option<Ways>, Memory>
        ensures { IfOk result (λ ways. ways ≡ spec.ended self) }
    {
        let State {
            mut outer,
            level,
            read,
        } = self;
        if let Some(_) = outer.pop() {
            return Ok(None);
        }
        match term_of(read) {
            Some(term) => level.whole(alloc, term.as_slice()),
            None => Ok(None),
        }
    }
}

/// The state behind some tokens.
#[tactic(auto, using(crate::proofs::StateLaws::state_next, crate::proofs::StateLaws::state_stops, crate::proofs::StateLaws::state_ends))]
fn behind_all(alloc: Global, units: &[Name], tokens: &[Token]) -> Result<Option<State>, Memory>
    ensures { IfOk result (λ state. state ≡ spec.behind_all units.now spec.start tokens.now) }
{
    let mut state = State::new(alloc)?;
    for token in tokens {
        match state.behind(alloc, units, token)? {
            Some(next) => state = next,
            None => return Ok(None),
        }
    }
    Ok(Some(state))
}

/// The ways that a text writes over some units, or none where it is no expression.
#[tactic(auto, unfolding(crate::specs::Expression::ways_of))]
pub fn ways_of(alloc: Global, units: &[Name], text: &[u8]) -> Result<Option<Ways>, Memory>
    ensures { IfOk result (λ ways. ways ≡ spec.ways_of units.now text.now) }
{
    let tokens = tokens_of(alloc, text)?;
    match behind_all(alloc, units, tokens.as_slice())? {
        Some(state) => state.ended(alloc),
        None => Ok(None),
    }
}
