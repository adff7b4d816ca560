ghost use Rattle.std.specs.Prelude.{◌≡◌};
ghost use Rattle.lua_parser.specs.Outcomes.{head_starter, head_suffix, head_opener, head_is_name, is_starter};

use crate::cursor::Cursor;
use lua_lexer::{Keyword, Symbol, TokenKind};
use lua_tree::UnaryOperator;

/// What an expression's first token is.
#[derive(Clone, Copy, Debug)]
pub(crate) enum Starter {
    Nil,
    False,
    True,
    Dots,
    Function,
    OpenParen,
    OpenBrace,
    Int(i64),
    Text,
    Name,
    Unary(UnaryOperator),
    /// None of them.
    Other,
}

/// What a statement begins with other than a name or a parenthesis.
#[derive(Clone, Copy, Debug)]
pub(crate) enum Start {
    Semicolon,
    Break,
    Do,
    While,
    Repeat,
    If,
    For,
    Function,
    Local,
}

/// What stands in a block.
#[derive(Clone, Copy, Debug)]
pub(crate) enum Opener {
    Plain(Start),
    Return,
    OpenParen,
    Name,
    /// No statement.
    Other,
}

/// What a part of a prefix begins with.
#[derive(Clone, Copy, Debug)]
pub(crate) enum Suffix {
    Dot,
    OpenBracket,
    Colon,
    OpenParen,
    OpenBrace,
    Text,
    /// None of them.
    Other,
}

impl<'a> Cursor<'a> {
    /// What the first token begins.
    pub(crate) fn starter(&self) -> Starter
        ensures { result ≡ head_starter self.now }
    {
        match self.rest.first() {
            Some(token) => match &token.kind {
                TokenKind::Word(Keyword::Nil) => Starter::Nil,
                TokenKind::Word(Keyword::False) => Starter::False,
                TokenKind::Word(Keyword::True) => Starter::True,
                TokenKind::Sym(Symbol::Dots) => Starter::Dots,
                TokenKind::Word(Keyword::Function) => Starter::Function,
                TokenKind::Sym(Symbol::OpenParen) => Starter::OpenParen,
                TokenKind::Sym(Symbol::OpenBrace) => Starter::OpenBrace,
                TokenKind::Word(Keyword::Not) => Starter::Unary(UnaryOperator::Not),
                TokenKind::Sym(Symbol::Hash) => Starter::Unary(UnaryOperator::Length),
                TokenKind::Sym(Symbol::Minus) => Starter::Unary(UnaryOperator::Negate),
                TokenKind::Sym(Symbol::Tilde) => Starter::Unary(UnaryOperator::BitNot),
                TokenKind::Int(number) => Starter::Int(*number),
                TokenKind::Str(_) => Starter::Text,
                TokenKind::Name => Starter::Name,
                _ => Starter::Other,
            },
            None => Starter::Other,
        }
    }

    /// What part of a prefix the first token begins.
    pub(crate) fn suffix(&self) -> Suffix
        ensures { result ≡ head_suffix self.now }
    {
        match self.rest.first() {
            Some(token) => match &token.kind {
                TokenKind::Sym(Symbol::Dot) => Suffix::Dot,
                TokenKind::Sym(Symbol::OpenBracket) => Suffix::OpenBracket,
                TokenKind::Sym(Symbol::Colon) => Suffix::Colon,
                TokenKind::Sym(Symbol::OpenParen) => Suffix::OpenParen,
                TokenKind::Sym(Symbol::OpenBrace) => Suffix::OpenBrace,
                TokenKind::Str(_) => Suffix::Text,
                _ => Suffix::Other,
            },
            None => Suffix::Other,
        }
    }

    /// What statement the first token begins.
    pub(crate) fn opener(&self) -> Opener
        ensures { result ≡ head_opener self.now }
    {
        match self.rest.first() {
            Some(token) => match &token.kind {
                TokenKind::Sym(Symbol::Semicolon) => Opener::Plain(Start::Semicolon),
                TokenKind::Word(Keyword::Break) => Opener::Plain(Start::Break),
                TokenKind::Word(Keyword::Do) => Opener::Plain(Start::Do),
                TokenKind::Word(Keyword::While) => Opener::Plain(Start::While),
                TokenKind::Word(Keyword::Repeat) => Opener::Plain(Start::Repeat),
                TokenKind::Word(Keyword::If) => Opener::Plain(Start::If),
                TokenKind::Word(Keyword::For) => Opener::Plain(Start::For),
                TokenKind::Word(Keyword::Function) => Opener::Plain(Start::Function),
                TokenKind::Word(Keyword::Local) => Opener::Plain(Start::Local),
                TokenKind::Word(Keyword::Return) => Opener::Return,
                TokenKind::Sym(Symbol::OpenParen) => Opener::OpenParen,
                TokenKind::Name => Opener::Name,
                _ => Opener::Other,
            },
            None => Opener::Other,
        }
    }

    /// Whether the first token is a name.
    pub(crate) fn is_name(&self) -> bool
        ensures { result ≡ head_is_name self.now }
    {
        match self.rest.first() {
            Some(token) => match &token.kind {
                TokenKind::Name => true,
                _ => false,
            },
            None => false,
        }
    }

    /// Whether an expression begins with the first token.
    pub(crate) fn starts_expr(&self) -> bool
        ensures { result ≡ is_starter (head_starter self.now) }
    {
        match self.starter() {
            Starter::Nil => true,
            Starter::False => true,
            Starter::True => true,
            Starter::Dots => true,
            Starter::Function => true,
            Starter::OpenParen => true,
            Starter::OpenBrace => true,
            Starter::Int(_) => true,
            Starter::Text => true,
            Starter::Name => true,
            Starter::Unary(_) => true,
            Starter::Other => false,
        }
    }
}
