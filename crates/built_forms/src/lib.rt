//! Which forms of module the program runs today. A module of another form is refused before anything runs.
#![tactic(auto)]

ghost use Rattle.std.specs.Prelude.{◌≡◌};
ghost use Rattle.std.specs.List.{list_all};
ghost use Rattle.lua_tree.specs.View.{block_of};
ghost use Rattle.built_forms.specs.Forms as forms;

mod straight;
#[cfg(test)]
mod tests;
mod untyped;

use lua_tree::{LibName, Scoped, Use};
use straight::is_straight;
use tl_base::ModuleKind;
use untyped::is_built_block;

/// Whether the program can run a module: an untyped one without tables, or a typed one without branches and functions.
pub fn is_built(scoped: &Scoped) -> bool
    ensures { result ≡ forms.is_built scoped.now.chunk.kind scoped.now.uses (block_of scoped.now.chunk.body) }
{
    let uses = scoped.uses.as_slice();
    match scoped.chunk.kind {
        ModuleKind::Untyped => are_known(uses) && is_built_block(&scoped.chunk.body),
        ModuleKind::Typed => is_straight(uses, &scoped.chunk.body),
    }
}

fn are_known(uses: &[Use]) -> bool
    ensures { result ≡ list_all forms.is_known uses.now }
{
    for meaning in uses {
        if !is_known(*meaning) {
            return false;
        }
    }
    true
}

// A use of a local, or of the library's `print`.
fn is_known(meaning: Use) -> bool
    ensures { result ≡ forms.is_known meaning }
{
    match meaning {
        Use::Local(_) => true,
        Use::Lib(name) => matches!(name, LibName::Print),
    }
}
