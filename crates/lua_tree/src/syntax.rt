use crate::{Name, TypeExpr, TypeField, TypeResults, Typed};
use tl_base::{Boxed, Bytes, CrossKind, List, ModuleKind, Pos};

/// An operator before its operand.
#[derive(Clone, Copy, Debug, PartialEq, Eq)]
pub enum UnaryOperator {
    Not,
    Length,
    Negate,
    BitNot,
}

/// An operator between its operands.
#[derive(Clone, Copy, Debug, PartialEq, Eq)]
pub enum BinaryOperator {
    Or,
    And,
    Less,
    Greater,
    LessEqual,
    GreaterEqual,
    NotEqual,
    Equal,
    BitOr,
    BitXor,
    BitAnd,
    ShiftLeft,
    ShiftRight,
    Concat,
    Add,
    Subtract,
    Multiply,
    /// `//`, which rounds down
    Divide,
    Modulo,
}

/// An expression. Each has the place of its first token, so a binary operation that of its left operand and a call that of what is called.
#[cycle(tree)]
#[derive(Drop)]
pub enum Expr {
    Nil(Pos),
    Bool(Pos, bool),
    Int(Pos, i64),
    Str(Pos, Bytes),
    /// `...`
    Vararg(Pos),
    /// `function (..) .. end`
    Function(Pos, Boxed<Body>),
    /// A use of a name, with its number among the uses of the module, which are numbered from 0 in order of place.
    Name(Pos, u32, Bytes),
    /// `(e)`
    Paren(Pos, Boxed<Expr>),
    /// `e.name`
    Field(Pos, Boxed<Expr>, Name),
    /// `e[key]`
    Index(Pos, Boxed<Expr>, Boxed<Expr>),
    /// `e(..)`, `e"text"` or `e{..}`
    Call(Pos, Boxed<Expr>, List<Expr>),
    /// `e:name(..)`
    Method(Pos, Boxed<Expr>, Name, List<Expr>),
    /// `{..}`
    Table(Pos, List<Entry>),
    Unary(Pos, UnaryOperator, Boxed<Expr>),
    Binary(Pos, BinaryOperator, Boxed<Expr>, Boxed<Expr>),
    /// A crossing of this kind, passed when the expression's value is there.
    Mark(CrossKind, Boxed<Expr>),
}

/// An entry of a table constructor.
#[cycle(tree)]
#[derive(Drop)]
pub enum Entry {
    /// `[key] = e`
    Keyed(Expr, Expr),
    /// `name = e`
    Named(Name, Expr),
    /// `e`
    Item(Expr),
}

/// What a function has between its parameters' parenthesis and its `end`.
#[cycle(tree)]
#[derive(Drop)]
pub struct Body {
    /// The parameters as they are written; a method's `self` isn't among them.
    pub params: List<Typed>,
    /// `...`, where it is the last parameter
    pub rest: Option<Rest>,
    pub results: Option<TypeResults>,
    pub block: Block,
}

/// `...` as the last parameter, with the type of its values.
#[derive(Drop)]
pub struct Rest {
    pub pos: Pos,
    pub ty: Option<TypeExpr>,
}

/// A statement, with the place of its first token.
#[cycle(tree)]
#[derive(Drop)]
pub enum Stat {
    /// `;`
    Empty(Pos),
    /// `a, .. = e, ..`, where each target is a name, a field or an index
    Assign(Pos, List<Expr>, List<Expr>),
    /// A call or a method call that stands alone.
    Call(Pos, Expr),
    Break(Pos),
    /// `do .. end`
    Do(Pos, Block),
    /// `while e do .. end`
    While(Pos, Expr, Block),
    /// `repeat .. until e`
    Repeat(Pos, Block, Expr),
    /// `if e then .. elseif e then .. else .. end`, each condition with its block
    If(Pos, List<Clause>, Option<Block>),
    /// `for name = first, limit, step do .. end`
    NumericFor(Pos, Name, Expr, Expr, Option<Expr>, Block),
    /// `for name, .. in e, .. do .. end`
    GenericFor(Pos, List<Name>, List<Expr>, Block),
    /// `function a.b(..) .. end`: the target, a name or a field, and the function, an expression at the statement's place.
    Function(Pos, Expr, Expr),
    /// `function a.b:name(..) .. end`: the object, a name or a field, the method's name, and the function, whose first parameter `self` isn't written.
    Method(Pos, Expr, Name, Expr),
    /// `local function name(..) .. end`, with the function, an expression at the statement's place
    LocalFunction(Pos, Name, Expr),
    /// `local name: type, .. = e, ..`; no expression where there is no `=`
    Local(Pos, List<Typed>, List<Expr>),
    /// `interface Name .. end`
    Interface(Pos, Name, List<TypeField>),
    /// `typealias Name = type`
    Alias(Pos, Name, TypeExpr),
}

/// A condition, and the block that runs where it holds.
#[cycle(tree)]
#[derive(Drop)]
pub struct Clause {
    pub condition: Expr,
    pub block: Block,
}

/// Statements, and the `return` that ends them.
#[cycle(tree)]
#[derive(Drop)]
pub struct Block {
    pub stats: List<Stat>,
    pub result: Option<Return>,
}

/// `return e, ..`, with its place.
#[cycle(tree)]
#[derive(Drop)]
pub struct Return {
    pub pos: Pos,
    pub values: List<Expr>,
}

/// A module: its number on the command line, whether it is typed, and its outermost block.
#[derive(Drop)]
pub struct Chunk {
    pub module: u32,
    pub kind: ModuleKind,
    pub body: Block,
}
