ghost use Rattle.std.specs.Prelude.{◌≡◌};
ghost use Rattle.tl_types.specs.declared.types.TyError.TheVariants as ty_error;

use crate::{NoMemory, Text};
use std::alloc::{AllocError, AllocFailed};
use tl_base::{Boxed, List};

/// A field over any type of types, so that `Ty` alone leads back to itself.
#[derive(Debug, Drop)]
pub struct FieldOf<T> {
    pub name: Text,
    /// whether it is never assigned after the record is made
    pub is_const: bool,
    pub ty: T,
}

/// A list of types and a tail, over any type of types.
#[derive(Debug, Drop)]
pub struct TupleOf<T> {
    pub items: List<T>,
    /// the type of each position past the list that has a value
    pub tail: Boxed<T>,
}

/// What a function may return, over any type of types: one of these tuples. Without a tuple it never returns.
#[derive(Debug, Drop)]
pub struct ResultsOf<T> {
    pub tuples: List<TupleOf<T>>,
}

/// A function, over any type of types.
#[derive(Debug, Drop)]
pub struct FuncOf<T> {
    pub params: TupleOf<T>,
    pub results: ResultsOf<T>,
}

/// A type. An interface stands as its number, so that each type is a finite tree.
#[derive(Debug, Drop)]
pub enum Ty {
    Nil,
    True,
    False,
    Int,
    /// one integer alone
    IntLit(i64),
    Str,
    /// one string alone
    StrLit(Text),
    /// every value, of which nothing is known
    Value,
    /// every value, trusted to be what its use asks for
    Any,
    /// the values of all members; without a member it is `never`, and `boolean` is the union of `true` and `false`
    Union(List<Ty>),
    Func(Boxed<FuncOf<Ty>>),
    /// the tables with these fields; `{}` has none
    Rec(List<FieldOf<Ty>>),
    /// the tables with keys and values of these types; `{V}` has integer keys
    Map(Boxed<Ty>, Boxed<Ty>),
    /// the interface of this number
    Iface(u32),
}

/// A field of a record.
pub type Field = FieldOf<Ty>;

/// Types in a row, and the type of all that follow.
pub type Tuple = TupleOf<Ty>;

/// The tuples of values that a function may give; without one it never returns.
pub type Results = ResultsOf<Ty>;

/// A function's parameters and results.
pub type Func = FuncOf<Ty>;

/// The record that each interface stands for, by its number.
#[derive(Debug, Drop)]
pub struct Interfaces {
    pub bodies: List<List<Field>>,
}

/// Why there is no type.
#[derive(Clone, Copy, Debug, PartialEq, Eq)]
pub enum TyError {
    /// it would have more than 65536 nodes or a depth above 100
    TooLarge,
    NoMemory,
}

impl From<NoMemory> for TyError {
    ghost from_gives = { λ _ error. error ≡ ty_error.NoMemory };

    fn from(_error: NoMemory) -> TyError {
        TyError::NoMemory
    }
}

impl From<AllocError> for TyError {
    ghost from_gives = { λ _ error. error ≡ ty_error.NoMemory };

    fn from(_error: AllocError) -> TyError {
        TyError::NoMemory
    }
}

impl<T: Drop> From<AllocFailed<T>> for TyError {
    ghost from_gives = { λ _ error. error ≡ ty_error.NoMemory };

    fn from(_error: AllocFailed<T>) -> TyError {
        TyError::NoMemory
    }
}
