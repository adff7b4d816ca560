use tl_base::{Bytes, List};
use tl_types::{Interfaces, Ty};

/// A type name of a module, and what it stands for.
#[derive(Drop)]
pub struct TypeName {
    pub module: Bytes,
    pub name: Bytes,
    pub ty: Ty,
}

/// The type names of modules that were read, and the records of their interfaces.
#[derive(Drop)]
pub struct TypeNames {
    pub names: List<TypeName>,
    pub interfaces: Interfaces,
}
