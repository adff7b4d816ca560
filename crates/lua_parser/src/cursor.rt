ghost use Rattle.std.specs.Prelude.{◌≡◌, ◌<◌, [], ◌∷◌, ◌↔◌, IsTrue, length, drop};
ghost use Rattle.lua_parser.specs.Words.{Words, words_of, sign, key, mark, slice_of};
ghost use Rattle.lua_parser.specs.Machine.Steps.{binary_at};
ghost use Rattle.lua_parser.specs.Parsing.{head_foreign};
ghost use Rattle.lua_parser.specs.Outcomes.{head_atom, head_is, head_pos, head_number, head_unary, head_binary, Eats, Takes, EatsText, TakesName};

use crate::limits::Limits;
use lua_lexer::{Keyword, Symbol, Token, TokenKind};
use lua_tree::{BinaryOperator, Name, UnaryOperator};
use std::alloc::Global;
use std::marker::Model;
use tl_base::{Bytes, NoMemory, Pos, RefusalCode};

/// Why a part isn't read.
#[derive(Clone, Copy, Debug, PartialEq, Eq)]
pub(crate) enum Stop {
    NoMemory,
    /// No spelling goes on with the first token that is left.
    Unexpected,
    /// The first token that is left is inside too many constructs, or ends an expression that is too high.
    Deep,
    /// A form that isn't read yet.
    NotBuilt,
}

impl From<NoMemory> for Stop {
    ghost use Rattle.lua_parser.specs.declared.cursor.Stop.TheVariants as stop;

    ghost from_gives = { λ _ e. e ≡ stop.NoMemory };

    fn from(_error: NoMemory) -> Stop {
        Stop::NoMemory
    }
}

/// The tokens that are left of a source. Contracts see their words.
#[derive(Drop)]
pub(crate) struct Cursor<'a> {
    pub(crate) source: &'a [u8],
    pub(crate) rest: &'a [Token],
    /// The same from the token on that was taken last.
    last: &'a [Token],
    /// The same from the token on that was taken before that one.
    before: &'a [Token],
    pub(crate) limits: Limits,
}

impl<'a> Model for Cursor<'a> {
    ghost Value = { Words };

    ghost view = { λ c. words_of c.source.now c.rest.now };
}

impl<'a> Cursor<'a> {
    pub(crate) fn new(source: &'a [u8], tokens: &'a [Token]) -> Cursor<'a>
        ensures { result ≡ words_of source.now tokens.now }
    {
        Cursor {
            source,
            rest: tokens,
            limits: Limits::new(),
            last: tokens,
            before: tokens,
        }
    }

    /// Whether no token is left.
    pub(crate) fn is_over(&self) -> bool
        ensures { IsTrue result ↔ (self.now ≡ []) }
    {
        self.rest.is_empty()
    }

    /// How many tokens are left.
    pub(crate) fn len(&self) -> usize
        ensures { result ≡ length self.now }
    {
        self.rest.len()
    }

    /// The code of a first token that only other languages have.
    pub(crate) fn foreign(&self) -> Option<RefusalCode>
        ensures { result ≡ head_foreign self.now }
    {
        match self.rest.first() {
            Some(token) => match &token.kind {
                TokenKind::Sym(Symbol::Slash) => Some(RefusalCode::P2),
                TokenKind::Sym(Symbol::Caret) => Some(RefusalCode::P2),
                TokenKind::Word(Keyword::Goto) => Some(RefusalCode::P3),
                TokenKind::Sym(Symbol::DoubleColon) => Some(RefusalCode::P3),
                _ => None,
            },
            None => None,
        }
    }

    /// Gives back the token that was taken last, at which reading stops. It can be called twice in a row.
    pub(crate) fn back(&mut self) {
        self.rest = self.last;
        self.last = self.before;
    }

    /// Whether the first token is a name, a numeral or a string.
    pub(crate) fn at_atom(&self) -> bool
        ensures { result ≡ head_atom self.now }
    {
        match self.rest.first() {
            Some(token) => match &token.kind {
                TokenKind::Name => true,
                TokenKind::Int(_) => true,
                TokenKind::Str(_) => true,
                _ => false,
            },
            None => false,
        }
    }

    /// The place of the first token.
    pub(crate) fn pos(&self) -> Pos
        ensures { result ≡ head_pos self.now }
    {
        match self.rest.first() {
            Some(token) => token.pos,
            None => Pos {
                module: 0,
                line: 0,
                column: 0,
            },
        }
    }

    /// Whether the first token is this symbol.
    pub(crate) fn at(&self, symbol: Symbol) -> bool
        ensures { result ≡ head_is (sign symbol) self.now }
    {
        match self.rest.first() {
            Some(token) => match &token.kind {
                TokenKind::Sym(found) => *found == symbol,
                _ => false,
            },
            None => false,
        }
    }

    /// Whether the first token is this keyword.
    pub(crate) fn at_word(&self, word: Keyword) -> bool
        ensures { result ≡ head_is (key word) self.now }
    {
        match self.rest.first() {
            Some(token) => match &token.kind {
                TokenKind::Word(found) => *found == word,
                _ => false,
            },
            None => false,
        }
    }

    /// The number that the first token is.
    pub(crate) fn number(&self) -> Option<i64>
        ensures { result ≡ head_number self.now }
    {
        match self.rest.first() {
            Some(token) => match &token.kind {
                TokenKind::Int(number) => Some(*number),
                _ => None,
            },
            None => None,
        }
    }

    /// The operator before an operand that the first token is.
    pub(crate) fn unary(&self) -> Option<UnaryOperator>
        ensures { result ≡ head_unary self.now }
    {
        match self.rest.first() {
            Some(token) => match &token.kind {
                TokenKind::Word(Keyword::Not) => Some(UnaryOperator::Not),
                TokenKind::Sym(Symbol::Hash) => Some(UnaryOperator::Length),
                TokenKind::Sym(Symbol::Minus) => Some(UnaryOperator::Negate),
                TokenKind::Sym(Symbol::Tilde) => Some(UnaryOperator::BitNot),
                _ => None,
            },
            None => None,
        }
    }

    /// The operator between operands that the first token is.
    pub(crate) fn binary(&self) -> Option<BinaryOperator>
        ensures { result ≡ head_binary self.now }
    {
        match self.rest.first() {
            Some(token) => match &token.kind {
                TokenKind::Word(Keyword::Or) => Some(BinaryOperator::Or),
                TokenKind::Word(Keyword::And) => Some(BinaryOperator::And),
                TokenKind::Sym(symbol) => binary_of(*symbol),
                _ => None,
            },
            None => None,
        }
    }

    /// Leaves out the first token.
    pub(crate) fn advance(&mut self)
        requires { 0 < length self.old }
        ensures { self.new ≡ drop 1 self.old }
    {
        self.before = self.last;
        self.last = self.rest;
        self.rest = &self.rest[1..];
    }

    /// Takes this symbol, if it is the first token.
    #[tactic(auto, using(crate::proofs::Heads::eats))]
    pub(crate) fn eat(&mut self, symbol: Symbol) -> bool
        ensures { Eats (sign symbol) self.old result self.new }
    {
        let found = self.at(symbol);
        if found {
            self.advance();
        }
        found
    }

    /// Takes this keyword, if it is the first token.
    #[tactic(auto, using(crate::proofs::Heads::eats))]
    pub(crate) fn eat_word(&mut self, word: Keyword) -> bool
        ensures { Eats (key word) self.old result self.new }
    {
        let found = self.at_word(word);
        if found {
            self.advance();
        }
        found
    }

    /// Takes this symbol, which has to be the first token.
    pub(crate) fn want(&mut self, symbol: Symbol) -> Result<(), Stop>
        ensures { Takes (sign symbol) self.old result self.new }
    {
        if self.eat(symbol) {
            Ok(())
        } else {
            Err(Stop::Unexpected)
        }
    }

    /// Takes this keyword, which has to be the first token.
    pub(crate) fn want_word(&mut self, word: Keyword) -> Result<(), Stop>
        ensures { Takes (key word) self.old result self.new }
    {
        if self.eat_word(word) {
            Ok(())
        } else {
            Err(Stop::Unexpected)
        }
    }

    /// Takes the first token, if it is a string, and copies its bytes.
    pub(crate) fn text(&mut self, alloc: Global) -> Result<Option<Bytes>, Stop>
        ensures { EatsText self.old result self.new }
    {
        match self.rest.first() {
            Some(token) => match &token.kind {
                TokenKind::Str(bytes) => {
                    let text = Bytes::from_slice(alloc, bytes.as_slice())?;
                    self.advance();
                    Ok(Some(text))
                }
                _ => Ok(None),
            },
            None => Ok(None),
        }
    }

    /// Takes the first token, which has to be a name, and copies its text.
    pub(crate) fn name(&mut self, alloc: Global) -> Result<Name, Stop>
        ensures { TakesName self.old result self.new }
    {
        match self.rest.first() {
            Some(token) => match &token.kind {
                TokenKind::Name => {
                    let text = Bytes::from_slice(alloc, slice_of(self.source, token))?;
                    let pos = token.pos;
                    self.advance();
                    Ok(Name { pos, text })
                }
                _ => Err(Stop::Unexpected),
            },
            None => Err(Stop::Unexpected),
        }
    }
}

/// The text of a token in its source.
pub(crate) fn slice_of<'a>(source: &'a [u8], token: &Token) -> &'a [u8]
    ensures { result.now ≡ slice_of source.now token.now }
{
    let start = token.start as usize;
    let end = token.end as usize;
    if start >= source.len() || end <= start {
        return &source[..0];
    }
    let tail = &source[start..];
    if end - start >= tail.len() {
        tail
    } else {
        &tail[..end - start]
    }
}

/// The operator between operands that a symbol is.
pub(crate) fn binary_of(symbol: Symbol) -> Option<BinaryOperator>
    ensures { result ≡ binary_at (mark (sign symbol)) }
{
    match symbol {
        Symbol::Less => Some(BinaryOperator::Less),
        Symbol::Greater => Some(BinaryOperator::Greater),
        Symbol::LessEqual => Some(BinaryOperator::LessEqual),
        Symbol::GreaterEqual => Some(BinaryOperator::GreaterEqual),
        Symbol::NotEqual => Some(BinaryOperator::NotEqual),
        Symbol::Equal => Some(BinaryOperator::Equal),
        Symbol::Pipe => Some(BinaryOperator::BitOr),
        Symbol::Tilde => Some(BinaryOperator::BitXor),
        Symbol::Ampersand => Some(BinaryOperator::BitAnd),
        Symbol::ShiftLeft => Some(BinaryOperator::ShiftLeft),
        Symbol::ShiftRight => Some(BinaryOperator::ShiftRight),
        Symbol::Concat => Some(BinaryOperator::Concat),
        Symbol::Plus => Some(BinaryOperator::Add),
        Symbol::Minus => Some(BinaryOperator::Subtract),
        Symbol::Star => Some(BinaryOperator::Multiply),
        Symbol::DoubleSlash => Some(BinaryOperator::Divide),
        Symbol::Percent => Some(BinaryOperator::Modulo),
        _ => None,
    }
}
