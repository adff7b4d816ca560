ghost use Rattle.std.specs.Prelude.{◌≡◌, option_map, IfOk};
ghost use Rattle.type_reader.specs.Names.{elsewhere};

use crate::names::TypeName;
use indexmap::IndexMap;
use std::alloc::Global;
use std::marker::Model;
use tl_base::NoMemory;
use tl_types::Ty;

/// The type names of other modules, lent. One is found in constant time, however many there are.
#[derive(Drop)]
pub struct OtherNames<'a> {
    names: &'a [TypeName],
    /// the type of each name behind its module's name
    types: IndexMap<(&'a [u8], &'a [u8]), &'a Ty>,
}

impl<'a> Model for OtherNames<'a> {
    ghost use Rattle.std.specs.Prelude.{List};
    ghost use Rattle.type_reader.specs.declared.names.TypeName.{TypeName as Entry};

    ghost Value = { List Entry };

    ghost use Rattle.std.specs.Coded.{codes};
    ghost use Rattle.tl_types.specs.contracts.types.Ty as ty;

    ghost coded = { Prim.hlevel (codes, ty.the_row.coded) };

    ghost use Rattle.type_reader.specs.Indexed.{IsIndexed};

    ghost view = { λ o. o.names.now };

    ghost invariant = { IsIndexed };
}

impl<'a> OtherNames<'a> {
    /// Those names. Where one stands twice, the first counts, so they are put in from the last.
    pub fn new(alloc: Global, names: &'a [TypeName]) -> Result<OtherNames<'a>, NoMemory>
        ensures { IfOk result (λ o. o ≡ names.now) }
    {
        let mut types = IndexMap::new(alloc);
        let mut at = names.len();
        while at > 0 {
            at -= 1;
            let entry = &names[at];
            let key = (entry.module.as_slice(), entry.name.as_slice());
            types.insert(key, &entry.ty)?;
        }
        Ok(OtherNames { names, types })
    }

    /// The type of a name of the module of this name.
    pub fn find(&self, of: &[u8], name: &[u8]) -> Option<&Ty>
        ensures { option_map (λ t. t.now) result ≡ option_map (λ k. k.ty) (elsewhere self.now of.now name.now) }
    {
        match self.types.get(&(of, name)) {
            Some(ty) => Some(*ty),
            None => None,
        }
    }
}
