ghost use Rattle.std.specs.Prelude.{◌≡◌, ◌++◌, take, OnOk, OnErr};

use crate::names::{TypeName, TypeNames};
use std::alloc::Global;
use std::mem::replace;
use tl_base::{List, NoMemory};
use tl_types::Field;

/// Puts these elements at the end. Without memory the list stays as it was.
pub fn append<T: Drop>(alloc: Global, list: &mut List<T>, added: Vec<T>) -> Result<(), NoMemory>
    ensures ok { OnOk result (list.new ≡ list.old ++ added.items) }
    ensures err { OnErr result (list.new ≡ list.old) }
{
    let mut items = replace(list, List::new(alloc)).into_vec();
    let mut added = added;
    let joined = items.append(&mut added);
    *list = List::from_vec(items);
    joined?;
    Ok(())
}

/// Takes away all but the first elements, so many of them.
fn truncate<T: Drop>(alloc: Global, list: &mut List<T>, count: usize)
    ensures { list.new ≡ take count list.old }
{
    let mut items = replace(list, List::new(alloc)).into_vec();
    items.truncate(count);
    *list = List::from_vec(items);
}

/// A module's names join those that are known. Without memory these stay as they were.
pub fn join(
    alloc: Global,
    known: &mut TypeNames,
    names: Vec<TypeName>,
    bodies: List<List<Field>>,
) -> Result<(), NoMemory>
    ensures names { OnOk result (known.new.names ≡ known.old.names ++ names.items) }
    ensures bodies { OnOk result (known.new.interfaces.bodies ≡ known.old.interfaces.bodies ++ bodies) }
    ensures err { OnErr result (known.new ≡ known.old) }
{
    let count = known.names.len();
    append(alloc, &mut known.names, names)?;
    match append(alloc, &mut known.interfaces.bodies, bodies.into_vec()) {
        Ok(()) => Ok(()),
        Err(error) => {
            truncate(alloc, &mut known.names, count);
            Err(error)
        }
    }
}
