//! What a goal takes of a text, and what must come then.
ghost use Rattle.std.specs.Prelude.{◌≡◌, List, [], ◌∷◌, OnOk, IfOk, Option};
ghost use Rattle.bits64.specs.Words.{signed};
ghost use Rattle.bits64.specs.declared.Width.TheVariants as Width;
ghost use Rattle.c_words.specs.Words as words;
ghost use Rattle.c_words.specs.declared.keyword.Keyword.TheVariants as keyword;
ghost use Rattle.c_cond.specs.Grammar.{comparison_with, comparison_of, value_mode_named};
ghost use Rattle.c_cond.specs.machine.Steps as spec;
ghost use Rattle.c_cond.specs.machine.Steps.{Takes};
ghost use Rattle.c_cond.specs.machine.Front.{is_taken};
ghost use Rattle.std.specs.Option.{is_some};

use crate::goal::{Goal, Goals};
use crate::part::{Part, Signature, is_maker, level, signature_of, unary_of};
use c_words::{
    Atom, Binary, Call, CondHead, Dialect, Keyword, Property, Token, Unary, atom_of,
    code_in_capitals, mode_named,
};
use name_places::Constants;
use plain_data::Memory;
use rtx_tree::{Mode, Name};
use std::alloc::Global;

/// The level of unary operators, which bind more tightly than all others.
const UNARY: u8 = 11;

/// The level of `==` and `!=`.
const EQUALITY: u8 = 6;

/// A whole expression.
const EXPRESSION: Part = Part::Expression { level: 0 };

impl Goals {
    fn push_parts(&mut self, parts: Signature) -> Result<(), Memory>
        ensures { OnOk result (self.new ≡ spec.parts_then parts self.old) }
    {
        match parts {
            Signature::None => {}
            Signature::One(x) => self.push(Goal::Part(x))?,
            Signature::Two(x, y) => {
                self.push(Goal::Part(y))?;
                self.push(Goal::Mark(b','))?;
                self.push(Goal::Part(x))?;
            }
            Signature::Three(x, y, z) => {
                self.push(Goal::Part(z))?;
                self.push(Goal::Mark(b','))?;
                self.push(Goal::Part(y))?;
                self.push(Goal::Mark(b','))?;
                self.push(Goal::Part(x))?;
            }
        }
        Ok(())
    }

    fn push_call(&mut self, parts: Signature, head: CondHead) -> Result<(), Memory>
        ensures { OnOk result (self.new ≡ spec.call_then parts head self.old) }
    {
        self.push(Goal::Yield(head))?;
        self.push(Goal::Mark(b')'))?;
        self.push_parts(parts)?;
        self.push(Goal::Mark(b'('))
    }

    fn push_more(&mut self, from: u8) -> Result<(), Memory>
        ensures { OnOk result (self.new ≡ spec.more from self.old) }
    {
        self.push(Goal::More { from, to: UNARY })
    }

    fn push_compare(&mut self, from: u8, property: Property) -> Result<(), Memory>
        ensures { OnOk result (self.new ≡ spec.compare_then from property self.old) }
    {
        self.push(Goal::More { from, to: EQUALITY })?;
        self.push(Goal::Comparison(property))?;
        self.push(Goal::Mark(b')'))?;
        self.push(Goal::Part(Part::Operand))?;
        self.push(Goal::Mark(b'('))
    }

    /// A word where an expression may begin.
    fn atom(&mut self, alloc: Global, from: u8, word: &Name, atom: Atom) -> Result<bool, Memory>
        ensures { Takes result self.old self.new (spec.by_atom from word.now atom self.old) }
    {
        match atom {
            Atom::Leaf(head) => {
                self.push_more(from)?;
                self.push(Goal::Yield(head))?;
                Ok(true)
            }
            Atom::Call(call) => {
                self.push_more(from)?;
                self.push_call(signature_of(call), CondHead::Call(call))?;
                Ok(true)
            }
            Atom::Compare(property) => {
                if from > EQUALITY {
                    return Ok(false);
                }
                self.push_compare(from, property)?;
                Ok(true)
            }
            Atom::Predicate => {
                let name = word.copy(alloc)?;
                self.push_more(from)?;
                self.push_call(
                    Signature::Two(Part::Operand, Part::AnyMode),
                    CondHead::Predicate(name),
                )?;
                Ok(true)
            }
            Atom::Nothing => Ok(false),
        }
    }

    fn primary(
        &mut self,
        alloc: Global,
        dialect: Dialect,
        constants: &Constants,
        from: u8,
        token: &Token,
    ) -> Result<bool, Memory>
        ensures { Takes result self.old self.new
            (spec.primary dialect constants.now from token.now self.old) }
    {
        match token {
            Token::Number(number) => {
                self.push_more(from)?;
                self.push(Goal::Yield(CondHead::Number(wrapped(*number))))?;
                Ok(true)
            }
            Token::Word(word) => {
                let atom = atom_of(alloc, dialect, constants, word.bytes())?;
                self.atom(alloc, from, word, atom)
            }
            Token::Mark(b'(') => {
                self.push_more(from)?;
                self.push(Goal::Mark(b')'))?;
                self.push(Goal::Part(EXPRESSION))?;
                Ok(true)
            }
            _ => Ok(false),
        }
    }

    /// Where an expression of a level must come.
    fn expression(
        &mut self,
        alloc: Global,
        dialect: Dialect,
        constants: &Constants,
        from: u8,
        token: &Token,
    ) -> Result<bool, Memory>
        ensures { Takes result self.old self.new
            (spec.takes_expression dialect constants.now from token.now self.old) }
    {
        match unary_of(token) {
            Some(operator) => {
                self.push_more(from)?;
                self.push(Goal::Yield(CondHead::Unary(operator)))?;
                self.push(Goal::Part(Part::Expression { level: UNARY }))?;
                Ok(true)
            }
            None => self.primary(alloc, dialect, constants, from, token),
        }
    }

    fn operator(&mut self, from: u8, to: u8, operator: Binary) -> Result<bool, Memory>
        ensures { Takes result self.old self.new (spec.takes_operator from to operator self.old) }
    {
        let level = level(operator);
        if level < from || to < level {
            return Ok(false);
        }
        self.push(Goal::More { from, to: level })?;
        self.push(Goal::Yield(CondHead::Binary(operator)))?;
        self.push(Goal::Part(Part::Expression { level: level + 1 }))?;
        Ok(true)
    }

    fn question(&mut self, from: u8, to: u8) -> Result<bool, Memory>
        ensures { Takes result self.old self.new (spec.takes_question from to self.old) }
    {
        if from > 0 || to < 1 {
            return Ok(false);
        }
        self.push(Goal::Yield(CondHead::Choose))?;
        self.push(Goal::Part(EXPRESSION))?;
        self.push(Goal::Mark(b':'))?;
        self.push(Goal::Part(EXPRESSION))?;
        Ok(true)
    }

    /// Where an expression may go on.
    fn more(&mut self, from: u8, to: u8, token: &Token) -> Result<bool, Memory>
        ensures { Takes result self.old self.new (spec.takes_more from to token.now self.old) }
    {
        match token {
            Token::Operator(operator) => self.operator(from, to, *operator),
            Token::Mark(b'?') => self.question(from, to),
            _ => Ok(false),
        }
    }

    fn operands(&mut self, dialect: Dialect) -> Result<bool, Memory>
        ensures { Takes result self.old self.new
            (spec.operand_by dialect (Option.Some keyword.Operands) self.old) }
    {
        match dialect {
            Dialect::Condition => {
                self.push(Goal::Index)?;
                self.push(Goal::Mark(b'['))?;
                Ok(true)
            }
            Dialect::Test => Ok(false),
        }
    }

    fn tested(&mut self, dialect: Dialect) -> Result<bool, Memory>
        ensures { Takes result self.old self.new
            (spec.operand_by dialect (Option.Some keyword.Op) self.old) }
    {
        match dialect {
            Dialect::Condition => Ok(false),
            Dialect::Test => {
                self.push(Goal::Yield(CondHead::Operand(0)))?;
                Ok(true)
            }
        }
    }

    fn operand_by(&mut self, dialect: Dialect, keyword: Option<Keyword>) -> Result<bool, Memory>
        ensures { Takes result self.old self.new (spec.operand_by dialect keyword self.old) }
    {
        match keyword {
            Some(Keyword::Operands) => self.operands(dialect),
            Some(Keyword::Op) => self.tested(dialect),
            _ => Ok(false),
        }
    }

    fn operand(&mut self, dialect: Dialect, token: &Token) -> Result<bool, Memory>
        ensures { Takes result self.old self.new (spec.takes_operand dialect token.now self.old) }
    {
        match token {
            Token::Word(word) => self.operand_by(dialect, Keyword::named(word.bytes())),
            _ => Ok(false),
        }
    }

    fn maker(&mut self, call: Call) -> Result<bool, Memory>
        ensures { Takes result self.old self.new (spec.takes_maker call self.old) }
    {
        if !is_maker(call) {
            return Ok(false);
        }
        self.push_call(signature_of(call), CondHead::Call(call))?;
        Ok(true)
    }

    fn value(&mut self, dialect: Dialect, token: &Token) -> Result<bool, Memory>
        ensures { Takes result self.old self.new (spec.takes_value dialect token.now self.old) }
    {
        match token {
            Token::Word(word) => match Keyword::named(word.bytes()) {
                Some(Keyword::Call(call)) => self.maker(call),
                keyword => self.operand_by(dialect, keyword),
            },
            _ => Ok(false),
        }
    }

    fn mode(&mut self, mode: Option<Mode>) -> Result<bool, Memory>
        ensures { Takes result self.old self.new (spec.mode_then mode self.old) }
    {
        match mode {
            Some(mode) => {
                self.push(Goal::Yield(CondHead::Mode(mode)))?;
                Ok(true)
            }
            None => Ok(false),
        }
    }

    fn any_mode(&mut self, token: &Token) -> Result<bool, Memory>
        ensures { Takes result self.old self.new (spec.takes_any_mode token.now self.old) }
    {
        match token {
            Token::Word(word) => self.mode(mode_named(word.bytes())),
            _ => Ok(false),
        }
    }

    fn value_mode(&mut self, token: &Token) -> Result<bool, Memory>
        ensures { Takes result self.old self.new (spec.takes_value_mode token.now self.old) }
    {
        match token {
            Token::Word(word) => self.mode(value_mode_named(word.bytes())),
            _ => Ok(false),
        }
    }

    fn window(&mut self, token: &Token) -> Result<bool, Memory>
        ensures { Takes result self.old self.new (spec.takes_window token.now self.old) }
    {
        match token {
            Token::Number(number) => {
                self.push(Goal::Yield(CondHead::Window(*number)))?;
                Ok(true)
            }
            _ => Ok(false),
        }
    }

    fn part(
        &mut self,
        alloc: Global,
        dialect: Dialect,
        constants: &Constants,
        part: Part,
        token: &Token,
    ) -> Result<bool, Memory>
        ensures { Takes result self.old self.new
            (spec.takes_part dialect constants.now part token.now self.old) }
    {
        match part {
            Part::Expression { level } => self.expression(alloc, dialect, constants, level, token),
            Part::Operand => self.operand(dialect, token),
            Part::Window => self.window(token),
            Part::AnyMode => self.any_mode(token),
            Part::ValueMode => self.value_mode(token),
            Part::Value => self.value(dialect, token),
        }
    }

    fn condition_of_if(&mut self) -> Result<bool, Memory>
        ensures { Takes result self.old self.new (spec.if_then self.old) }
    {
        self.push(Goal::Else)?;
        self.push(Goal::Statement)?;
        self.push(Goal::Mark(b')'))?;
        self.push(Goal::Part(EXPRESSION))?;
        self.push(Goal::Mark(b'('))?;
        Ok(true)
    }

    fn ended(&mut self, head: CondHead) -> Result<bool, Memory>
        ensures { Takes result self.old self.new (spec.ended head self.old) }
    {
        self.push(Goal::Yield(head))?;
        self.push(Goal::Mark(b';'))?;
        Ok(true)
    }

    fn statement_by(&mut self, keyword: Keyword) -> Result<bool, Memory>
        ensures { Takes result self.old self.new
            (spec.statement_by (Option.Some keyword) self.old) }
    {
        match keyword {
            Keyword::Operands => {
                self.push(Goal::Target)?;
                self.push(Goal::Mark(b'['))?;
                Ok(true)
            }
            Keyword::If => self.condition_of_if(),
            Keyword::Done => self.ended(CondHead::Done),
            Keyword::Fail => self.ended(CondHead::Fail),
            Keyword::Call(Call::EmitMove) => {
                self.push(Goal::Mark(b';'))?;
                self.push_call(signature_of(Call::EmitMove), CondHead::Call(Call::EmitMove))?;
                Ok(true)
            }
            _ => Ok(false),
        }
    }

    fn statement(&mut self, token: &Token) -> Result<bool, Memory>
        ensures { Takes result self.old self.new (spec.takes_statement token.now self.old) }
    {
        match token {
            Token::Word(word) => match Keyword::named(word.bytes()) {
                Some(keyword) => self.statement_by(keyword),
                None => Ok(false),
            },
            Token::Mark(b'{') => {
                self.push(Goal::Mark(b'}'))?;
                self.push(Goal::Statements)?;
                Ok(true)
            }
            _ => Ok(false),
        }
    }
}

/// The number of 64 signed bits that an unsigned one wraps to.
fn wrapped(number: u64) -> i64
    ensures { result ≡ signed Width.W64 number }
{
    number.cast_signed()
}

fn value_mode_named(word: &[u8]) -> Option<Mode>
    ensures { result ≡ value_mode_named word.now }
{
    match mode_named(word) {
        Some(Mode::Void) => None,
        mode => mode,
    }
}

/// `==` or `!=`.
fn comparison_of(token: &Token) -> Option<bool>
    ensures { result ≡ comparison_of token.now }
{
    match token {
        Token::Operator(Binary::Equal) => Some(true),
        Token::Operator(Binary::Unequal) => Some(false),
        _ => None,
    }
}

/// The comparison with the code or mode that a word names.
fn comparison_with(
    alloc: Global,
    property: Property,
    equal: bool,
    word: &[u8],
) -> Result<Option<CondHead>, Memory>
    ensures { IfOk result (λ head. head ≡ comparison_with property equal word.now) }
{
    match property {
        Property::Code => match code_in_capitals(alloc, word)? {
            Some(code) => Ok(Some(CondHead::CodeIs { code, equal })),
            None => Ok(None),
        },
        Property::Mode => match mode_named(word) {
            Some(mode) => Ok(Some(CondHead::ModeIs { mode, equal })),
            None => Ok(None),
        },
    }
}

impl Goals {
    fn or_else(&mut self, token: &Token) -> Result<bool, Memory>
        ensures { Takes result self.old self.new (spec.takes_else token.now self.old) }
    {
        match token {
            Token::Word(word) => match Keyword::named(word.bytes()) {
                Some(Keyword::Else) => {
                    self.push(Goal::Yield(CondHead::IfElse))?;
                    self.push(Goal::Statement)?;
                    Ok(true)
                }
                _ => Ok(false),
            },
            _ => Ok(false),
        }
    }

    fn statements(&mut self, token: &Token) -> Result<bool, Memory>
        ensures { Takes result self.old self.new (spec.takes_statements token.now self.old) }
    {
        self.push(Goal::Yield(CondHead::Then))?;
        self.push(Goal::Statements)?;
        if self.statement(token)? {
            return Ok(true);
        }
        self.pop();
        self.pop();
        Ok(false)
    }

    fn comparison(&mut self, property: Property, token: &Token) -> Result<bool, Memory>
        ensures { Takes result self.old self.new
            (spec.takes_comparison property token.now self.old) }
    {
        match comparison_of(token) {
            Some(equal) => {
                self.push(Goal::Compared { property, equal })?;
                Ok(true)
            }
            None => Ok(false),
        }
    }

    fn compared(
        &mut self,
        alloc: Global,
        property: Property,
        equal: bool,
        token: &Token,
    ) -> Result<bool, Memory>
        ensures { Takes result self.old self.new
            (spec.takes_compared property equal token.now self.old) }
    {
        match token {
            Token::Word(word) => match comparison_with(alloc, property, equal, word.bytes())? {
                Some(head) => {
                    self.push(Goal::Yield(head))?;
                    Ok(true)
                }
                None => Ok(false),
            },
            _ => Ok(false),
        }
    }

    fn index(&mut self, token: &Token) -> Result<bool, Memory>
        ensures { Takes result self.old self.new (spec.takes_index token.now self.old) }
    {
        match token {
            Token::Number(number) if *number < 4_294_967_296 => {
                self.push(Goal::Mark(b']'))?;
                self.push(Goal::Yield(CondHead::Operand(*number as u32)))?;
                Ok(true)
            }
            _ => Ok(false),
        }
    }

    fn target(&mut self, token: &Token) -> Result<bool, Memory>
        ensures { Takes result self.old self.new (spec.takes_target token.now self.old) }
    {
        match token {
            Token::Number(number) if *number < 4_294_967_296 => {
                self.push(Goal::Yield(CondHead::Assign(*number as u32)))?;
                self.push(Goal::Mark(b';'))?;
                self.push(Goal::Part(Part::Value))?;
                self.push(Goal::Mark(b'='))?;
                self.push(Goal::Mark(b']'))?;
                Ok(true)
            }
            _ => Ok(false),
        }
    }

    /// Whether a goal takes the token. Where it does, what must come then stands before the others.
    pub fn take(
        &mut self,
        alloc: Global,
        dialect: Dialect,
        constants: &Constants,
        goal: &Goal,
        token: &Token,
    ) -> Result<bool, Memory>
        ensures { Takes result self.old self.new
            (spec.takes dialect constants.now goal.now token.now self.old) }
    {
        match goal {
            Goal::Mark(byte) => Ok(is_mark(*byte, token)),
            Goal::Yield(_) => Ok(false),
            Goal::Part(part) => self.part(alloc, dialect, constants, *part, token),
            Goal::More { from, to } => self.more(*from, *to, token),
            Goal::Comparison(property) => self.comparison(*property, token),
            Goal::Compared { property, equal } => self.compared(alloc, *property, *equal, token),
            Goal::Index => self.index(token),
            Goal::Target => self.target(token),
            Goal::Statement => self.statement(token),
            Goal::Else => self.or_else(token),
            Goal::Statements => self.statements(token),
            Goal::Condition => self.expression(alloc, dialect, constants, 0, token),
        }
    }
}

/// Whether a goal takes the token.
fn takes(
    alloc: Global,
    dialect: Dialect,
    constants: &Constants,
    goal: &Goal,
    token: &Token,
) -> Result<bool, Memory>
    ensures { IfOk result (λ taken.
        taken ≡ is_some (spec.takes dialect constants.now goal.now token.now [])) }
{
    Goals::new(alloc).take(alloc, dialect, constants, goal, token)
}

impl Goals {
    /// Whether some goal takes the token, where those before it may be passed over.
    pub fn is_taken(
        &self,
        alloc: Global,
        dialect: Dialect,
        constants: &Constants,
        token: &Token,
    ) -> Result<bool, Memory>
        ensures { IfOk result (λ taken. taken ≡ is_taken dialect constants.now token.now self.now) }
    {
        let goals = self.as_slice();
        for place in (0..goals.len()).rev() {
            if takes(alloc, dialect, constants, &goals[place], token)? {
                return Ok(true);
            }
            if !goals[place].may_pass() {
                return Ok(false);
            }
        }
        Ok(false)
    }
}

fn is_mark(byte: u8, token: &Token) -> bool
    ensures { result ≡ spec.is_mark byte token.now }
{
    match token {
        Token::Mark(mark) => byte == *mark,
        _ => false,
    }
}
