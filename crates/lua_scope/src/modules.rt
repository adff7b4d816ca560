ghost use Rattle.std.specs.Prelude.{◌≡◌, ℕ, None, Some, map, OnOk, OnErr, IfErr};
ghost use Rattle.lua_scope.specs.Answers.{module_named, bound_to, with_modules, first_missing};
ghost use Rattle.lua_tree.specs.Scopes.Resolved.{IsResolved};

use lua_tree::{Require, Scoped};
use tl_base::{Bytes, Refusal, RefusalCode};

/// A module of the program: its name and its number.
#[derive(Debug, Drop)]
pub struct NamedModule {
    pub name: Bytes,
    pub module: u32,
}

/// The number of the module of a name.
fn number_of(names: &[NamedModule], name: &Bytes) -> Option<u32>
    ensures { result ≡ module_named names.now name.now }
{
    for named in names {
        if named.name.as_slice() == name.as_slice() {
            return Some(named.module);
        }
    }
    None
}

/// The refusal at the first call of `require` whose module isn't among the names.
fn missing(required: &[Require], names: &[NamedModule]) -> Option<Refusal>
    ensures { result ≡ first_missing names.now required.now }
{
    for require in required {
        if number_of(names, &require.name).is_none() {
            return Some(Refusal {
                code: RefusalCode::G1,
                pos: require.pos,
            });
        }
    }
    None
}

/// Each call of `require` gets its module's number.
fn number(required: &mut [Require], names: &[NamedModule])
    ensures { required.new ≡ map (bound_to names.now) required.old }
{
    for require in required.iter_mut() {
        require.module = number_of(names, &require.name);
    }
}

/// Gives each call of `require` the number of the module of its name, the first of several modules of one name. It is refused with G1 at the first literal
/// that isn't a name of these, and then nothing is bound. It takes no memory.
pub fn bind(scoped: &mut Scoped, names: &[NamedModule]) -> Result<(), Refusal>
    ensures bound { OnOk result (scoped.new ≡ with_modules names.now scoped.old) }
    ensures all { OnOk result (first_missing names.now scoped.old.required ≡ None) }
    ensures refused { IfErr result (λ r. first_missing names.now scoped.old.required ≡ Some r) }
    ensures kept { OnErr result (scoped.new ≡ scoped.old) }
    ensures resolved { IsResolved scoped.old → IsResolved scoped.new }
{
    if let Some(refusal) = missing(scoped.required.as_slice(), names) {
        return Err(refusal);
    }
    number(scoped.required.as_mut_slice(), names);
    Ok(())
}
