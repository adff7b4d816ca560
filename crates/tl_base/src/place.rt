/// A place in the files of a program: the module's number on the command line, from 0, and line and column from 1,
/// columns in bytes.
#[derive(Clone, Copy, Debug, PartialEq, Eq, PartialOrd, Ord)]
pub struct Pos {
    pub module: u32,
    pub line: u32,
    pub column: u32,
}

/// Whether a module's types are checked: files that end in `.tl` are typed, files that end in `.lua` are not.
#[derive(Clone, Copy, Debug, PartialEq, Eq)]
pub enum ModuleKind {
    Typed,
    Untyped,
}
