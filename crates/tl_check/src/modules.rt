ghost use Rattle.std.specs.Prelude.{◌≡◌, IfOk};
ghost use Rattle.lua_tree.specs.View.{block_of};
ghost use Rattle.tl_rules.specs.Orders.{plain_order, loose_order};
ghost use Rattle.tl_rules.specs.Statements as rules_of;
ghost use Rattle.tl_base.specs.declared.place.ModuleKind.TheVariants.{Typed as TypedModule};
ghost use Rattle.tl_check.specs.Answers.{Answers, module_view};

use crate::statements::block;
use lua_tree::{Chunk, Scoped};
use std::alloc::Global;
use tl_base::{Failure, ModuleKind};

/// Types a module by the rules and marks its crossings, or refuses it at the first premise that fails. An untyped module stays as it is.
pub fn check_module(alloc: Global, scoped: Scoped) -> Result<Scoped, Failure>
    ensures typed { Answers module_view (rules_of.check_module scoped.uses plain_order loose_order scoped.chunk.kind (block_of scoped.chunk.body)) result }
    ensures kept { IfOk result (λ s. s ≡ record scoped { chunk = record scoped.chunk { body = s.chunk.body } }) }
{
    match scoped.chunk.kind {
        ModuleKind::Typed => typed_module(alloc, scoped),
        ModuleKind::Untyped => Ok(scoped),
    }
}

/// Types a module whose kind is known to be typed.
fn typed_module(alloc: Global, scoped: Scoped) -> Result<Scoped, Failure>
    ensures typed { Answers module_view (rules_of.check_module scoped.uses plain_order loose_order TypedModule (block_of scoped.chunk.body)) result }
    ensures kept { IfOk result (λ s. s ≡ record scoped { chunk = record scoped.chunk { body = s.chunk.body } }) }
{
    let Scoped {
        chunk,
        uses,
        locals,
        required,
    } = scoped;
    let Chunk { module, kind, body } = chunk;
    let mut env = Vec::new(alloc);
    let body = block(alloc, uses.as_slice(), &mut env, body)?;
    Ok(Scoped {
        chunk: Chunk { module, kind, body },
        uses,
        locals,
        required,
    })
}
