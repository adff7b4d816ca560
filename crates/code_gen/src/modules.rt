ghost use Rattle.std.specs.Prelude.{◌≡◌, ◌+◌, ◌<◌, ◌++◌, length, map, IfOk, OnOk};
ghost use Rattle.lua_meaning.specs.Programs.{module_of};
ghost use Rattle.lua_code.specs.Generated.{block_protos, module_scope, main_protos, inner_protos, program};
ghost use Rattle.lua_code.specs.Faithful.{IsFaithful};
ghost use Rattle.lua_code.specs.Shapes.{IsWellFormed};
ghost use Rattle.code_gen.specs.Modules.{module_proto};

use crate::functions::{Header, proto};
use crate::scope::Scope;
use crate::slots::block_slots;
use crate::writer::Writer;
use lua_code::{Code, Proto, code_has_the_meaning, code_is_well_formed};
use lua_tree::Scoped;
use std::alloc::Global;
use tl_base::{List, NoMemory, Pos};

/// The function of a module's block. The functions inside it go behind those that are finished.
#[tactic(auto, using(crate::proofs::Forms::Functions::body_code_written, crate::proofs::Forms::Functions::body_protos_written))]
fn module_block(
    alloc: Global,
    first: u64,
    inner: &mut List<Proto>,
    number: u32,
    scoped: &Scoped,
) -> Result<Proto, NoMemory>
    ensures block { IfOk result (λ p. p ≡ module_proto number (module_of scoped.now) (first + length inner.old)) }
    ensures inner { OnOk result (inner.new ≡ inner.old ++ block_protos (module_of scoped.now).body (module_scope (module_of scoped.now).names) (first + length inner.old)) }
{
    let pos = Pos {
        module: number,
        line: 1,
        column: 1,
    };
    let slots = block_slots(&scoped.chunk.body)?;
    let mut writer = Writer {
        alloc,
        first,
        protos: std::mem::replace(inner, List::new(alloc)),
        code: List::new(alloc),
        scope: Scope::new(alloc, scoped),
    };
    writer.body(0, pos, &scoped.chunk.body)?;
    *inner = std::mem::replace(&mut writer.protos, List::new(alloc));
    let code = std::mem::replace(&mut writer.code, List::new(alloc));
    let header = Header {
        params: 0,
        vararg: false,
        slots,
        captures: List::new(alloc),
    };
    let block = proto(alloc, header, code)?;
    Ok(block)
}

/// The functions of the modules' blocks. The functions inside them go behind those that are finished.
fn blocks(
    alloc: Global,
    first: u64,
    inner: &mut List<Proto>,
    modules: &[Scoped],
) -> Result<List<Proto>, NoMemory>
    ensures blocks { IfOk result (λ bs. bs ≡ main_protos (map module_of modules.now) 0 (first + length inner.old)) }
    ensures inner { OnOk result (inner.new ≡ inner.old ++ inner_protos (map module_of modules.now) (first + length inner.old)) }
{
    let mut blocks = List::new(alloc);
    let mut number: u32 = 0;
    for scoped in modules {
        let block = module_block(alloc, first, inner, number, scoped)?;
        blocks.push(block)?;
        if number == u32::MAX {
            return Err(NoMemory);
        }
        number += 1;
    }
    Ok(blocks)
}

/// The code of a program, from its modules in their order: a function for each module's block, and then those of the bodies. A size past 2^64, and
/// more than 2^32 modules, are want of memory.
pub fn generate(alloc: Global, modules: &[Scoped]) -> Result<Code, NoMemory>
    ensures code { IfOk result (λ c. c ≡ program (map module_of modules.now)) }
    ensures formed { 0 < length modules.now → IfOk result (λ c. IsWellFormed c (length modules.now)) }
    ensures faithful { 0 < length modules.now → IfOk result (IsFaithful (map module_of modules.now)) }
{
    code_is_well_formed();
    code_has_the_meaning();
    written(alloc, modules)
}

/// The functions of a program.
fn written(alloc: Global, modules: &[Scoped]) -> Result<Code, NoMemory>
    ensures { IfOk result (λ c. c ≡ program (map module_of modules.now)) }
{
    let mut inner = List::new(alloc);
    let blocks = blocks(alloc, modules.len() as u64, &mut inner, modules)?;
    let mut functions = blocks.into_vec();
    let mut rest = inner.into_vec();
    functions.append(&mut rest)?;
    Ok(Code {
        functions: List::from_vec(functions),
    })
}
