ghost use Rattle.std.specs.Prelude.{◌≡◌, ◌+◌, max, OnOk, IfOk};
ghost use Rattle.lua_parser.specs.Counting.Count.{at, start};

use crate::labels::Marks;
use crate::operators::{level, right_level};
use crate::seen::Seen;
use crate::signs::{Declares, Sign, Tuple};
use crate::stack::Stack;
use crate::starters::Starter;
use lua_lexer::Symbol;
use std::alloc::Global;
use std::marker::Model;
use tl_base::NoMemory;

/// What a counting of depth expects, what is next standing first; the height of the expression or type that was read last; and what is reached.
#[derive(Drop)]
pub(crate) struct Tally {
    pub(crate) expected: Stack<Sign>,
    pub(crate) height: u32,
    pub(crate) reached: Marks,
}

impl Model for Tally {
    ghost use Rattle.lua_parser.specs.Counting.Count.{Count, at};

    ghost Value = { Count };

    ghost view = { λ t. at t.expected t.height t.reached };
}

impl Tally {
    ghost use Rattle.std.specs.Prelude.{◌≡◌, ◌∷◌, ◌+◌, max, OnOk, IfOk};
    ghost use Rattle.lua_parser.specs.Grammar.Depth.{begins, ends, reaches};
    ghost use Rattle.lua_parser.specs.Counting.Count.{at, start, operand, operation, suffix, entry_end, member, marked_at, bar_at, barred, declared, statement, assignment};
    ghost use Rattle.lua_parser.specs.Counting.Choices.{Chooses};

    pub(crate) fn new(alloc: Global) -> Result<Tally, NoMemory>
        ensures { IfOk result (λ t. t ≡ start) }
    {
        let mut expected = Stack::new(alloc);
        expected.push(Sign::Pass)?;
        expected.push(Sign::ABlock)?;
        Ok(Tally {
            expected,
            height: 0,
            reached: Marks::new(alloc),
        })
    }

    /// This is expected first.
    pub(crate) fn push(&mut self, sign: Sign) -> Result<(), NoMemory>
        ensures { OnOk result (self.new ≡ at (sign ∷ self.old.expected) self.old.height self.old.reached) }
    {
        self.expected.push(sign)
    }

    /// The first token of an operand.
    pub(crate) fn operand(&mut self, seen: &Seen<'_>) -> Result<(), NoMemory>
        ensures { OnOk result (self.new ≡ operand seen.now self.old.expected self.old.height self.old.reached) }
    {
        match seen.starter() {
            Starter::Function => self.push(Sign::ABody),
            Starter::OpenParen => {
                self.push(Sign::Suffixes)?;
                self.push(Sign::Up)?;
                self.push(Sign::Pass)?;
                self.push(Sign::Expr(1))
            }
            Starter::OpenBrace => {
                self.push(Sign::Up)?;
                self.push(Sign::Entries(0))
            }
            Starter::Unary(_) => {
                self.reached.begin()?;
                self.push(Sign::Up)?;
                self.push(Sign::Leave)?;
                self.push(Sign::Expr(11))
            }
            Starter::Name => {
                self.height = 1;
                self.push(Sign::Suffixes)
            }
            Starter::Nil => self.leaf(),
            Starter::False => self.leaf(),
            Starter::True => self.leaf(),
            Starter::Dots => self.leaf(),
            Starter::Int(_) => self.leaf(),
            Starter::Text => self.leaf(),
            Starter::Other => self.leaf(),
        }
    }

    /// An expression or type with none in it.
    pub(crate) fn leaf(&mut self) -> Result<(), NoMemory>
        ensures { OnOk result (self.new ≡ at self.old.expected 1 self.old.reached) }
    {
        self.height = 1;
        Ok(())
    }

    /// What was read last ended with the last token.
    pub(crate) fn note(&mut self) -> Result<(), NoMemory>
        ensures { OnOk result (self.new ≡ at self.old.expected self.old.height (reaches self.old.height self.old.reached)) }
    {
        self.reached.tell(self.height)
    }

    /// An operator of at least this level behind an operand.
    pub(crate) fn operation(&mut self, least: u8, seen: &Seen<'_>) -> Result<bool, NoMemory>
        ensures { IfOk result (λ taken. Chooses (λ other. operation least self.old.expected self.old.height seen.now self.old.reached other) self.old taken self.new) }
    {
        let Some(operator) = seen.binary() else {
            return Ok(false);
        };
        if level(operator) < least {
            return Ok(false);
        }
        self.note()?;
        let height = self.height;
        self.push(Sign::Operations(least))?;
        self.push(Sign::Grow(height))?;
        self.push(Sign::Leave)?;
        self.push(Sign::Expr(right_level(operator)))?;
        self.push(Sign::Begin)?;
        Ok(true)
    }

    /// One more part of a prefix, behind which the first is expected.
    pub(crate) fn suffix(&mut self, next: Sign, seen: &Seen<'_>) -> Result<bool, NoMemory>
        ensures { IfOk result (λ taken. Chooses (λ other. suffix next self.old.expected self.old.height seen.now self.old.reached other) self.old taken self.new) }
    {
        let height = self.height;
        if seen.is(Symbol::Dot) {
            self.note()?;
            self.push(next)?;
            self.push(Sign::Up)?;
            self.push(Sign::Pass)?;
            return Ok(true);
        }
        if seen.is(Symbol::OpenBracket) {
            self.note()?;
            self.push(next)?;
            self.push(Sign::Grow(height))?;
            self.push(Sign::Pass)?;
            self.push(Sign::Expr(1))?;
            return Ok(true);
        }
        if seen.is(Symbol::Colon) {
            self.note()?;
            self.push(next)?;
            self.push(Sign::Grow(height))?;
            self.push(Sign::SomeArguments)?;
            self.push(Sign::Pass)?;
            return Ok(true);
        }
        if seen.is(Symbol::OpenParen) {
            self.note()?;
            self.push(next)?;
            self.push(Sign::Grow(height))?;
            self.push(Sign::RestOfArguments)?;
            return Ok(true);
        }
        if seen.is(Symbol::OpenBrace) {
            self.note()?;
            self.push(next)?;
            self.push(Sign::Grow(height))?;
            self.push(Sign::Up)?;
            self.push(Sign::Entries(0))?;
            return Ok(true);
        }
        if seen.is_text() {
            self.note()?;
            self.push(next)?;
            self.push(Sign::Grow(height))?;
            self.height = 1;
            return Ok(true);
        }
        Ok(false)
    }

    /// What ends an entry.
    pub(crate) fn entry_end(&mut self, highest: u32, seen: &Seen<'_>) -> Result<(), NoMemory>
        ensures { OnOk result (self.new ≡ entry_end highest self.old.expected self.old.height seen.now self.old.reached) }
    {
        let most = highest.max(self.height);
        if seen.is(Symbol::CloseBrace) {
            self.height = most;
            return Ok(());
        }
        self.push(Sign::Entries(most))
    }

    /// The first token of a member of a union.
    pub(crate) fn member(&mut self, seen: &Seen<'_>) -> Result<(), NoMemory>
        ensures { OnOk result (self.new ≡ member seen.now self.old.expected self.old.height self.old.reached) }
    {
        if seen.is(Symbol::OpenParen) {
            return self.push(Sign::Items(Tuple::OfMember, 0));
        }
        self.push(Sign::MaybeMark)?;
        if seen.is(Symbol::OpenBrace) {
            return self.push(Sign::InBraces);
        }
        self.height = 1;
        if seen.is(Symbol::Minus) {
            return self.push(Sign::Pass);
        }
        if seen.is_name() {
            return self.push(Sign::Dots);
        }
        Ok(())
    }

    /// A mark behind a simple type.
    pub(crate) fn marked_at(&mut self, seen: &Seen<'_>) -> Result<bool, NoMemory>
        ensures { IfOk result (λ taken. Chooses (λ other. marked_at self.old.expected self.old.height seen.now self.old.reached other) self.old taken self.new) }
    {
        if !seen.is(Symbol::Question) {
            return Ok(false);
        }
        self.note()?;
        self.push(Sign::Note)?;
        self.push(Sign::Up)?;
        Ok(true)
    }

    /// A bar behind the first member of a union.
    pub(crate) fn bar_at(&mut self, seen: &Seen<'_>) -> Result<bool, NoMemory>
        ensures { IfOk result (λ taken. Chooses (λ other. bar_at self.old.expected self.old.height seen.now self.old.reached other) self.old taken self.new) }
    {
        if !seen.is(Symbol::Pipe) {
            return Ok(false);
        }
        let height = self.height;
        self.push(Sign::MoreBars(height))?;
        self.push(Sign::AMember)?;
        Ok(true)
    }

    /// A member of a union, where the bar before it was taken behind a function type.
    pub(crate) fn barred(&mut self, seen: &Seen<'_>) -> Result<(), NoMemory>
        ensures { OnOk result (self.new ≡ barred self.old.expected self.old.height seen.now self.old.reached) }
    {
        let height = self.height;
        match self.expected.pop() {
            Some(Sign::Bar) => {
                self.push(Sign::MoreBars(height))?;
                self.member(seen)
            }
            Some(Sign::MoreBars(highest)) => {
                self.push(Sign::MoreBars(highest.max(height)))?;
                self.member(seen)
            }
            Some(other) => self.push(other),
            None => Ok(()),
        }
    }

    /// What stands behind the name of a type statement.
    pub(crate) fn declared(&mut self, declares: Declares) -> Result<(), NoMemory>
        ensures { OnOk result (self.new ≡ declared declares self.old.expected self.old.height self.old.reached) }
    {
        match declares {
            Declares::AnInterface => self.push(Sign::InterfaceFields),
            Declares::AnAlias => {
                self.push(Sign::AType)?;
                self.push(Sign::Pass)
            }
            Declares::Nothing => Ok(()),
        }
    }

    /// What stands behind a target or a call that is a statement.
    pub(crate) fn assignment(&mut self, seen: &Seen<'_>) -> Result<bool, NoMemory>
        ensures { IfOk result (λ taken. Chooses (λ other. assignment self.old.expected self.old.height seen.now self.old.reached other) self.old taken self.new) }
    {
        if seen.is(Symbol::Assign) {
            self.note()?;
            self.push(Sign::MoreExprs(0))?;
            self.push(Sign::Expr(1))?;
            return Ok(true);
        }
        if seen.is(Symbol::Comma) {
            self.note()?;
            self.push(Sign::NextTarget)?;
            return Ok(true);
        }
        Ok(false)
    }
}

/// One more than the higher of two heights.
pub(crate) fn above(left: u32, right: u32) -> Result<u32, NoMemory>
    ensures { IfOk result (λ h. h ≡ max left right + 1) }
{
    left.max(right).checked_add(1).ok_or(NoMemory)
}
