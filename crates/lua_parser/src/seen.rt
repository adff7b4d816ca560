ghost use Rattle.std.specs.Prelude.{◌≡◌};

use crate::cursor::{binary_of, slice_of};
use crate::signs::Declares;
use crate::starters::{Opener, Start, Starter};
use lua_lexer::{Keyword, Symbol, Token, TokenKind};
use lua_tree::{BinaryOperator, UnaryOperator};
use std::marker::Model;

/// A token of a source. Contracts see what the grammar sees of it.
#[derive(Drop)]
pub(crate) struct Seen<'a> {
    pub(crate) source: &'a [u8],
    pub(crate) token: &'a Token,
}

impl<'a> Model for Seen<'a> {
    ghost use Rattle.lua_parser.specs.Words.{WordKind, kind_of, slice_of};

    ghost Value = { WordKind };

    ghost view = { λ s. kind_of s.token.now.kind (slice_of s.source.now s.token.now) };
}

impl<'a> Seen<'a> {
    ghost use Rattle.std.specs.Prelude.{◌≡◌, Bool, [], if◌then◌else◌};
    ghost use Rattle.lua_parser.specs.Grammar.Depth.{opening, closing};
    ghost use Rattle.lua_parser.specs.Counting.Count.{begins_expr, declares};
    ghost use Rattle.lua_parser.specs.Machine.Steps.{is_sign, is_key, if_name, if_text, binary_at};
    ghost use Rattle.lua_parser.specs.Outcomes.{starter_of, opener_of};

    /// Whether it is this symbol.
    pub(crate) fn is(&self, symbol: Symbol) -> bool
        ensures { result ≡ is_sign symbol self.now }
    {
        match &self.token.kind {
            TokenKind::Sym(found) => *found == symbol,
            _ => false,
        }
    }

    /// Whether it is this keyword.
    pub(crate) fn is_word(&self, word: Keyword) -> bool
        ensures { result ≡ is_key word self.now }
    {
        match &self.token.kind {
            TokenKind::Word(found) => *found == word,
            _ => false,
        }
    }

    /// Whether it is a name.
    pub(crate) fn is_name(&self) -> bool
        ensures { result ≡ if_name self.now (λ x. Bool.true) Bool.false }
    {
        matches!(&self.token.kind, TokenKind::Name)
    }

    /// Whether it is a string.
    pub(crate) fn is_text(&self) -> bool
        ensures { result ≡ if_text self.now (λ x. Bool.true) Bool.false }
    {
        matches!(&self.token.kind, TokenKind::Str(_))
    }

    /// What it begins.
    pub(crate) fn starter(&self) -> Starter
        ensures { result ≡ starter_of self.now }
    {
        match &self.token.kind {
            TokenKind::Word(Keyword::Nil) => Starter::Nil,
            TokenKind::Word(Keyword::False) => Starter::False,
            TokenKind::Word(Keyword::True) => Starter::True,
            TokenKind::Sym(Symbol::Dots) => Starter::Dots,
            TokenKind::Word(Keyword::Function) => Starter::Function,
            TokenKind::Sym(Symbol::OpenParen) => Starter::OpenParen,
            TokenKind::Sym(Symbol::OpenBrace) => Starter::OpenBrace,
            TokenKind::Word(Keyword::Not) => Starter::Unary(UnaryOperator::Not),
            TokenKind::Sym(Symbol::Hash) => Starter::Unary(UnaryOperator::Length),
            TokenKind::Sym(Symbol::Minus) => Starter::Unary(UnaryOperator::Negate),
            TokenKind::Sym(Symbol::Tilde) => Starter::Unary(UnaryOperator::BitNot),
            TokenKind::Int(number) => Starter::Int(*number),
            TokenKind::Str(_) => Starter::Text,
            TokenKind::Name => Starter::Name,
            _ => Starter::Other,
        }
    }

    /// What statement it begins.
    pub(crate) fn opener(&self) -> Opener
        ensures { result ≡ opener_of self.now }
    {
        match &self.token.kind {
            TokenKind::Sym(Symbol::Semicolon) => Opener::Plain(Start::Semicolon),
            TokenKind::Word(Keyword::Break) => Opener::Plain(Start::Break),
            TokenKind::Word(Keyword::Do) => Opener::Plain(Start::Do),
            TokenKind::Word(Keyword::While) => Opener::Plain(Start::While),
            TokenKind::Word(Keyword::Repeat) => Opener::Plain(Start::Repeat),
            TokenKind::Word(Keyword::If) => Opener::Plain(Start::If),
            TokenKind::Word(Keyword::For) => Opener::Plain(Start::For),
            TokenKind::Word(Keyword::Function) => Opener::Plain(Start::Function),
            TokenKind::Word(Keyword::Local) => Opener::Plain(Start::Local),
            TokenKind::Word(Keyword::Return) => Opener::Return,
            TokenKind::Sym(Symbol::OpenParen) => Opener::OpenParen,
            TokenKind::Name => Opener::Name,
            _ => Opener::Other,
        }
    }

    /// The operator between operands that it is.
    pub(crate) fn binary(&self) -> Option<BinaryOperator>
        ensures { result ≡ binary_at self.now }
    {
        match &self.token.kind {
            TokenKind::Word(Keyword::Or) => Some(BinaryOperator::Or),
            TokenKind::Word(Keyword::And) => Some(BinaryOperator::And),
            TokenKind::Sym(symbol) => binary_of(*symbol),
            _ => None,
        }
    }

    /// Whether an expression begins with it.
    pub(crate) fn starts_expr(&self) -> bool
        ensures { result ≡ begins_expr self.now }
    {
        match self.starter() {
            Starter::Nil => true,
            Starter::False => true,
            Starter::True => true,
            Starter::Dots => true,
            Starter::Function => true,
            Starter::OpenParen => true,
            Starter::OpenBrace => true,
            Starter::Int(_) => true,
            Starter::Text => true,
            Starter::Name => true,
            Starter::Unary(_) => true,
            Starter::Other => false,
        }
    }

    /// What it declares where another name follows.
    pub(crate) fn declares(&self) -> Declares
        ensures { result ≡ declares (if_name self.now (λ x. x) []) }
    {
        if !self.is_name() {
            return Declares::Nothing;
        }
        let text = slice_of(self.source, self.token);
        if text == b"interface".as_slice() {
            return Declares::AnInterface;
        }
        if text == b"typealias".as_slice() {
            return Declares::AnAlias;
        }
        Declares::Nothing
    }

    /// Whether it opens parentheses, brackets or braces.
    pub(crate) fn opens(&self) -> bool
        ensures { (if result then 1 else 0) ≡ opening self.now }
    {
        match &self.token.kind {
            TokenKind::Sym(Symbol::OpenParen) => true,
            TokenKind::Sym(Symbol::OpenBracket) => true,
            TokenKind::Sym(Symbol::OpenBrace) => true,
            _ => false,
        }
    }

    /// Whether it closes some.
    pub(crate) fn closes(&self) -> bool
        ensures { (if result then 1 else 0) ≡ closing self.now }
    {
        match &self.token.kind {
            TokenKind::Sym(Symbol::CloseParen) => true,
            TokenKind::Sym(Symbol::CloseBracket) => true,
            TokenKind::Sym(Symbol::CloseBrace) => true,
            _ => false,
        }
    }
}
