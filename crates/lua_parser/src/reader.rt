ghost use Rattle.std.specs.Prelude.{◌≡◌};
ghost use Rattle.lua_parser.specs.Grammar.Syntax.{place};
ghost use Rattle.lua_parser.specs.Readings.{first_place};

use crate::cursor::Cursor;
use crate::stack::Stack;
use lua_tree::{
    BinaryOperator, Block, Clause, Entry, Expr, Name, Rest, Return, Stat, TypeResults, Typed,
    UnaryOperator,
};
use std::alloc::Global;
use tl_base::{List, ModuleKind, Pos};

/// What a prefix is: a name, a field or an index, which can be assigned to; a call; or an expression in parentheses.
#[derive(Clone, Copy, Debug, PartialEq, Eq)]
pub(crate) enum Form {
    Target,
    Called,
    Enclosed,
}

/// Where a prefix stands.
#[derive(Drop)]
pub(crate) enum Within {
    /// In an expression of at least this level.
    Expression(u8),
    /// At the beginning of a statement.
    Statement,
    /// Behind these targets of an assignment.
    Targets(Stack<Expr>),
}

/// What is called, once its arguments are read, and where the call stands.
#[derive(Drop)]
pub(crate) struct Called {
    pub(crate) within: Within,
    pub(crate) callee: Expr,
    pub(crate) method: Option<Name>,
    /// The height of what is called.
    pub(crate) height: u32,
}

/// What a list of expressions is for.
#[derive(Drop)]
pub(crate) enum ListOf {
    Arguments(Called),
    Assigned(Stack<Expr>),
    Locals(Pos, Stack<Typed>),
    Returned(Pos),
    Iterated(Pos, Stack<Name>),
}

/// Where a table constructor stands: an operand of an expression of at least this level, or the argument of a call.
#[derive(Drop)]
pub(crate) enum TableOf {
    Operand(u8),
    Argument(Called),
}

/// A table constructor, and its entries so far.
#[derive(Drop)]
pub(crate) struct Table {
    pub(crate) of: TableOf,
    pub(crate) pos: Pos,
    pub(crate) entries: Stack<Entry>,
    /// The height of the highest expression that stands before the next entry in the one that the constructor is for.
    pub(crate) height: u32,
    /// How many constructs are open behind the constructor.
    pub(crate) depth: u32,
}

/// A numeric `for` up to its limit.
#[derive(Drop)]
pub(crate) struct Range {
    pub(crate) pos: Pos,
    pub(crate) name: Name,
    pub(crate) first: Expr,
    pub(crate) limit: Expr,
}

/// What an expression is read for.
#[derive(Drop)]
pub(crate) enum Frame {
    /// The operand of an operator, which is an operand of an expression of at least this level.
    Unary(u8, Pos, UnaryOperator),
    /// The right operand of an operation, in an expression of at least this level.
    Right(u8, BinaryOperator, Expr),
    /// In parentheses.
    Paren(Within, Pos),
    /// In brackets behind this prefix.
    Index(Within, Expr),
    /// In a list, behind these expressions.
    Listed(ListOf, Stack<Expr>),
    /// An entry's key.
    Key(Table),
    /// The value of an entry with a key.
    Keyed(Table, Expr),
    /// The value of an entry with a name.
    Named(Table, Name),
    /// An entry.
    Item(Table),
    /// The condition of a `while`.
    While(Pos),
    /// The condition of a `repeat`.
    Until(Pos, Block),
    /// The condition behind `if` or `elseif`, behind these clauses.
    Condition(Pos, Stack<Clause>),
    /// The first value of a numeric `for`.
    First(Pos, Name),
    /// The limit of a numeric `for`.
    Limit(Pos, Name, Expr),
    /// The step of a numeric `for`.
    Step(Range),
}

/// What an expression is read for, the height of the highest expression that stands before it in the one that it is for,
/// and how many constructs are open behind that one.
#[derive(Drop)]
pub(crate) struct Held {
    pub(crate) frame: Frame,
    pub(crate) height: u32,
    pub(crate) depth: u32,
}

/// A function's parameters and results.
#[derive(Drop)]
pub(crate) struct Signature {
    pub(crate) params: List<Typed>,
    pub(crate) rest: Option<Rest>,
    pub(crate) results: Option<TypeResults>,
}

/// What a function's body is for.
#[derive(Drop)]
pub(crate) enum BodyOf {
    /// An operand of an expression of at least this level.
    Operand(u8, Pos),
    Function(Pos, Expr),
    Method(Pos, Expr, Name),
    Local(Pos, Name),
}

/// A function up to its parameters so far, and how many constructs are open behind its body.
#[derive(Drop)]
pub(crate) struct Header {
    pub(crate) of: BodyOf,
    pub(crate) params: Stack<Typed>,
    pub(crate) depth: u32,
}

/// What a block is for.
#[derive(Drop)]
pub(crate) enum BlockOf {
    Do(Pos),
    While(Pos, Expr),
    Repeat(Pos),
    /// Behind these clauses and this condition of an `if`.
    Then(Pos, Stack<Clause>, Expr),
    /// Behind the `else` of an `if` with these clauses.
    Else(Pos, Stack<Clause>),
    Numeric(Range, Option<Expr>),
    Generic(Pos, List<Name>, List<Expr>),
    Body(BodyOf, Signature),
}

/// A block that another one stands in, which is for this, its statements so far, and what the expression is for that the inner block stands in.
#[derive(Drop)]
pub(crate) struct Outer {
    pub(crate) of: BlockOf,
    pub(crate) stats: Stack<Stat>,
    pub(crate) frames: Stack<Held>,
    /// How many constructs are open behind the inner block.
    pub(crate) depth: u32,
}

/// Where a module is being read, and what is open there.
#[derive(Drop)]
pub(crate) struct Reader<'a> {
    pub(crate) alloc: Global,
    pub(crate) kind: ModuleKind,
    pub(crate) cursor: Cursor<'a>,
    /// The number of the next use of a name.
    pub(crate) uses: u32,
    /// Whether a call may follow what was read last.
    pub(crate) takes_call: bool,
    /// The statements of the innermost block.
    pub(crate) stats: Stack<Stat>,
    /// What the expression is for that is being read.
    pub(crate) frames: Stack<Held>,
    /// The blocks that the innermost block stands in.
    pub(crate) outer: Stack<Outer>,
}

/// What is read next.
#[derive(Drop)]
pub(crate) enum Mode {
    /// A statement, or the end of the block.
    Block,
    /// An expression of at least this level.
    Operand(u8),
    /// Operators from the first level on behind an operand of the second one.
    Operation(u8, u8, Expr),
    /// The next part of a prefix.
    Prefix(Within, Form, Expr),
    /// What stands behind a whole expression.
    Value(Expr),
    /// An entry of a table or its end.
    Entries(Table),
    /// What stands behind an entry.
    BehindEntry(Table),
    /// What stands behind these names of a `local`.
    Locals(Pos, Stack<Typed>),
    /// What stands behind these names of a `for`, as many constructs being open behind it.
    Names(Pos, Stack<Name>, u32),
    /// What stands behind this part of what a function statement declares.
    Path(Pos, Expr),
    /// A parameter behind these, or what ends them where that may be.
    Params(Header, bool),
    /// What stands behind a whole statement.
    Statement(Stat),
    /// What ends a block.
    Ended(Option<Return>),
}

/// The place of an expression's first token.
pub(crate) fn place(expr: &Expr) -> Pos
    ensures { result ≡ place expr.now }
{
    match expr {
        Expr::Nil(pos) => *pos,
        Expr::Bool(pos, _) => *pos,
        Expr::Int(pos, _) => *pos,
        Expr::Str(pos, _) => *pos,
        Expr::Vararg(pos) => *pos,
        Expr::Function(pos, _) => *pos,
        Expr::Name(pos, _, _) => *pos,
        Expr::Paren(pos, _) => *pos,
        Expr::Field(pos, _, _) => *pos,
        Expr::Index(pos, _, _) => *pos,
        Expr::Call(pos, _, _) => *pos,
        Expr::Method(pos, _, _, _) => *pos,
        Expr::Table(pos, _) => *pos,
        Expr::Unary(pos, _, _) => *pos,
        Expr::Binary(pos, _, _, _) => *pos,
        Expr::Mark(_, _) => Pos {
            module: 0,
            line: 0,
            column: 0,
        },
    }
}

/// The place of the first of some expressions.
pub(crate) fn first_place(exprs: &List<Expr>) -> Pos
    ensures { result ≡ first_place exprs.now }
{
    match exprs.as_slice().first() {
        Some(expr) => place(expr),
        None => Pos {
            module: 0,
            line: 0,
            column: 0,
        },
    }
}
