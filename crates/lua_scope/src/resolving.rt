ghost use Rattle.std.specs.Prelude.{◌≡◌, Ok, IfOk, IfErr};
ghost use Rattle.lua_scope.specs.Answers.{IsRefusalOf};
ghost use Rattle.lua_scope.specs.Parts.{parts_of};
ghost use Rattle.lua_tree.specs.Scopes.Binding.{run};
ghost use Rattle.lua_tree.specs.Scopes.Trees.{block_of};
ghost use Rattle.lua_tree.specs.Scopes.Resolved.{first_state, resolution};

use crate::binding::{Binder, Parts};
use crate::words::Events;
use lua_tree::{Block, Chunk, Scoped};
use std::alloc::Global;
use tl_base::Failure;

/// What the names of a block mean.
fn parts(alloc: Global, block: &Block) -> Result<Parts, Failure>
    ensures ok { IfOk result (λ p. parts_of (run (block_of block.now) first_state) ≡ Ok p) }
    ensures refused { IfErr result (λ f. IsRefusalOf (run (block_of block.now) first_state) f) }
{
    let mut events = Events::new(alloc);
    events.block(block)?;
    let mut binder = Binder::new(alloc);
    binder.run(&events)?;
    Ok(binder.finish())
}

/// What the names of a module mean: its local for each use of a name, or a name of the library. It is refused with the first of S1 to S8 by place.
/// Uses and locals are listed in order of place, so a use stands at its number where the tree's uses are numbered so, as the parser numbers them.
/// Calls of `require` aren't bound yet. A module with 2^32 or more locals or functions is answered with want of memory.
pub fn resolve(alloc: Global, chunk: Chunk) -> Result<Scoped, Failure>
    ensures ok { IfOk result (λ s. resolution chunk ≡ Ok s) }
    ensures refused { IfErr result (λ f. IsRefusalOf (resolution chunk) f) }
{
    let Parts {
        uses,
        locals,
        required,
    } = parts(alloc, &chunk.body)?;
    Ok(Scoped {
        chunk,
        uses,
        locals,
        required,
    })
}
