use tl_base::{Boxed, Bytes, List, Pos};

/// A name where it stands alone: a field's, a method's, a local's or a type's.
#[derive(Drop)]
pub struct Name {
    pub pos: Pos,
    pub text: Bytes,
}

/// A name that a `local` or a parameter declares, with the type that is written behind it.
#[derive(Drop)]
pub struct Typed {
    pub name: Name,
    pub ty: Option<TypeExpr>,
}

/// A type as it is written, with the place of its first token.
#[cycle(types)]
#[derive(Drop)]
pub enum TypeExpr {
    Nil(Pos),
    Bool(Pos, bool),
    /// An integer, with its sign.
    Int(Pos, i64),
    Str(Pos, Bytes),
    /// `a.b.Name`: the parts of the module's name, none where the name is the module's own, and the type's name
    Named(Pos, List<Bytes>, Bytes),
    /// `(type)`
    Paren(Pos, Boxed<TypeExpr>),
    /// `{type}`
    Array(Pos, Boxed<TypeExpr>),
    /// `{[key]: type}`
    Map(Pos, Boxed<TypeExpr>, Boxed<TypeExpr>),
    /// `{name: type, ..}`, and `{}`, which has no field
    Record(Pos, List<TypeField>),
    /// `type?`
    Optional(Pos, Boxed<TypeExpr>),
    /// `(..) -> results`
    Function(Pos, TypeTuple, TypeResults),
    /// `a | b`, with two members or more
    Union(Pos, List<TypeExpr>),
}

/// A field of a record or of an interface, with the place of its first token, which is `const` or the name.
#[cycle(types)]
#[derive(Drop)]
pub struct TypeField {
    pub pos: Pos,
    pub is_const: bool,
    pub name: Name,
    pub ty: TypeExpr,
}

/// Types in a row, and the type of all that follow, which is written with `*`.
#[cycle(types)]
#[derive(Drop)]
pub struct TypeTuple {
    pub items: List<TypeExpr>,
    pub tail: Option<Boxed<TypeExpr>>,
}

/// The results of a function: one tuple or more. A type without parentheses is one tuple of one type.
#[cycle(types)]
#[derive(Drop)]
pub struct TypeResults {
    pub pos: Pos,
    pub tuples: List<TypeTuple>,
}
