ghost use Rattle.std.specs.Prelude.{◌≡◌, IfOk};
ghost use Rattle.lua_tree.specs.View.{block_of};
ghost use Rattle.tl_rules.specs.Crossings.{block_marks as marks_in, IsCrossingList};

use crate::marks::block_marks;
use lua_tree::Block;
use std::alloc::Global;
use tl_base::{Crossing, List, NoMemory};

/// The crossings of a marked block, the functions in it included: sorted, each once.
pub fn crossing_list(alloc: Global, block: &Block) -> Result<List<Crossing>, NoMemory>
    ensures { IfOk result (λ list. IsCrossingList (marks_in (block_of block.now)) list) }
{
    let mut marks = all_marks(alloc, block)?;
    marks.sort()?;
    marks.dedup();
    Ok(List::from_vec(marks))
}

// The marks of a block, each as often as it stands there.
fn all_marks(alloc: Global, block: &Block) -> Result<Vec<Crossing>, NoMemory>
    ensures { IfOk result (λ marks. marks.items ≡ marks_in (block_of block.now)) }
{
    let mut marks = Vec::new(alloc);
    block_marks(block, &mut marks)?;
    Ok(marks)
}
