/// What the name that begins a statement may be, where another name follows.
#[derive(Clone, Copy, Debug)]
pub(crate) enum Declares {
    Nothing,
    AnInterface,
    AnAlias,
}

/// Whose types stand in parentheses.
#[derive(Clone, Copy, Debug)]
pub(crate) enum Tuple {
    /// Those of a function type's parameters, or one type alone.
    OfMember,
    /// Those of the results of a function type with parameters of this height.
    OfResults(u32),
    /// Those of a body's results.
    OfBody,
}

/// What a counting of depth over tokens still expects, each sign without the trees that it stands for. A number is the height of the highest
/// expression or type so far in what the sign ends, unless something else is said.
#[derive(Clone, Copy, Debug)]
pub(crate) enum Sign {
    /// A token, whatever it is.
    Pass,
    /// No token: a construct begins with the next one.
    Begin,
    /// No token: a construct ended with the last one.
    Leave,
    /// No token: a function's body ended with the last one.
    LeaveBody,
    /// No token: what was read last, and another part of this height, stand in something that ended.
    Grow(u32),
    Up,
    Note,
    /// An expression of at least this level.
    Expr(u8),
    /// What stands behind an operand of an expression of at least this level.
    Operations(u8),
    Suffixes,
    RestOfArguments,
    SomeArguments,
    MoreExprs(u32),
    ReturnValues,
    Entries(u32),
    BehindNameIn(u32),
    ValueOfKey(u32),
    BehindEntry(u32),
    ABody,
    Params,
    Outcome,
    ABlock,
    Clauses,
    ForNames,
    Path,
    RestOfLocal,
    MoreNames,
    MaybeSemicolon,
    BehindName(Declares),
    RestOfStat,
    NextTarget,
    AType,
    /// A member of a union.
    AMember,
    /// What stands behind the first member of a union.
    Bar,
    /// What stands behind a later one.
    MoreBars(u32),
    MaybeMark,
    Dots,
    InBraces,
    MapValue,
    NamedInBraces,
    BehindField(u32),
    NextField(u32),
    RestOfField(u32),
    InterfaceFields,
    Items(Tuple, u32),
    BehindItem(Tuple, u32),
    BehindItems(Tuple, u32),
    /// What stands behind the arrow of a function type with parameters of this height.
    Results(u32),
    EndOfFunction(u32),
    /// What stands behind a bar behind results: the height of the parameters, and that of the results.
    BehindBar(u32, u32),
    BodyResults,
}
