ghost use Rattle.std.specs.Prelude.{◌≡◌, ℕ, IsTrue, IsFalse, ◌↔◌, Ok, Err, OnOk, OnErr, if◌then◌else◌};
ghost use Rattle.lua_tree.specs.Scopes.Library.{is_library_table};
ghost use Rattle.lua_tree.specs.Scopes.Binding.{told, told_of, assign_library};
ghost use Rattle.lua_scope.specs.Failures.{IsFailure};
ghost use Rattle.tl_base.specs.declared.refusal.Failure.TheVariants as failure;

use crate::captures::Captures;
use crate::scopes::{Scopes, Standing};
use crate::visible::{Binding, Local};
use crate::words::{Event, Events, Word};
use lua_tree::{LibName, LocalInfo, Require, Use, lib_named};
use std::alloc::Global;
use tl_base::{Bytes, Failure, List, Pos, Refusal, RefusalCode};

/// How many locals of one function may be alive at once.
const MOST: u32 = 200;

/// What was found of a module's names up to a place.
#[derive(Drop)]
pub struct Binder<'a> {
    alloc: Global,
    scopes: Scopes<'a>,
    /// the locals that are declared and not visible yet
    declared: Vec<Binding<'a>>,
    /// how many functions have begun, the module's block among them
    functions: u32,
    captures: Captures,
    uses: List<Use>,
    locals: Vec<LocalInfo>,
    required: List<Require>,
}

/// The lists that are found of a module's names.
#[derive(Drop)]
pub struct Parts {
    pub uses: List<Use>,
    pub locals: List<LocalInfo>,
    pub required: List<Require>,
}

fn refused(code: RefusalCode, pos: Pos) -> Failure
    ensures { result ≡ failure.Refused (record { code = code; pos = pos }) }
{
    Failure::Refused(Refusal { code, pos })
}

/// A use tells of its local whether it is captured and assigned.
fn tell(locals: &mut [LocalInfo], at: usize, assigns: bool, inner: bool)
    ensures { locals.new ≡ told_of at (told assigns inner) locals.old }
{
    if at < locals.len() {
        let info = locals[at];
        locals[at] = LocalInfo {
            function: info.function,
            captured: info.captured || inner,
            assigned: info.assigned || assigns,
            assigned_in_closure: info.assigned_in_closure || (assigns && inner),
        };
    }
}

/// Whether a name is that of a table of the library.
fn is_table(name: &[u8]) -> bool
    ensures { result ≡ is_library_table name.now }
{
    name == b"string".as_slice()
        || name == b"table".as_slice()
        || name == b"math".as_slice()
        || name == b"io".as_slice()
}

/// Why a name that is no local can't be assigned.
fn assign_library(name: Word<'_>) -> Failure
    ensures { IsFailure (assign_library name.entry.pos name.entry.text.now) result }
{
    if is_table(name.text) {
        return refused(RefusalCode::S3, name.pos);
    }
    match lib_named(b"", name.text) {
        Some(_) => refused(RefusalCode::S2, name.pos),
        None => refused(RefusalCode::S1, name.pos),
    }
}

impl<'a> Binder<'a> {
    ghost use Rattle.lua_scope.specs.Shown.{local_of};
    ghost use Rattle.lua_scope.specs.Seen.{event_of};
    ghost use Rattle.lua_scope.specs.Steps.{state_of, Answers};
    ghost use Rattle.lua_scope.specs.Parts.{parts_in};
    ghost use Rattle.lua_tree.specs.Scopes.Resolved.{first_state};
    ghost use Rattle.lua_tree.specs.Scopes.Binding.{run, step, begin, begin_loop, begin_function, back_to, declared_at, appeared, use_local, use_library, use_library_field, with_library, assign_library_field, call_library};

    /// Nothing is found yet. The place is the module's outermost block. It takes no memory.
    pub fn new(alloc: Global) -> Binder<'a>
        ensures { state_of result ≡ first_state }
    {
        Binder {
            alloc,
            scopes: Scopes::new(alloc, Standing::outermost()),
            declared: Vec::new(alloc),
            functions: 1,
            captures: Captures::new(alloc),
            uses: List::new(alloc),
            locals: Vec::new(alloc),
            required: List::new(alloc),
        }
    }

    /// A use of a local, which may assign it.
    fn use_local(&mut self, assigns: bool, pos: Pos, local: Local) -> Result<(), Failure>
        ensures { Answers (use_local assigns pos (state_of self.old) (local_of local)) result (state_of self.new) }
    {
        if !self.scopes.capture(local, &mut self.captures)? {
            return Err(refused(RefusalCode::S6, pos));
        }
        self.uses.push(Use::Local(local.number))?;
        let inner = local.function != self.scopes.here().function;
        tell(&mut self.locals, local.number as usize, assigns, inner);
        Ok(())
    }

    /// A block begins.
    fn begin_block(&mut self) -> Result<(), Failure>
        ensures { Answers (Ok (begin (state_of self.old).place (state_of self.old))) result (state_of self.new) }
    {
        let here = self.scopes.here();
        self.scopes.begin(here)?;
        Ok(())
    }

    /// A loop begins.
    fn begin_loop(&mut self) -> Result<(), Failure>
        ensures { Answers (Ok (begin_loop (state_of self.old))) result (state_of self.new) }
    {
        let here = self.scopes.here();
        self.scopes.begin(Standing {
            alive: here.alive,
            function: here.function,
            in_loop: true,
            has_rest: here.has_rest,
        })?;
        Ok(())
    }

    /// A function begins.
    fn begin_function(&mut self, has_rest: bool) -> Result<(), Failure>
        ensures { Answers (Ok (begin_function has_rest (state_of self.old))) result (state_of self.new) }
    {
        if self.functions == u32::MAX {
            return Err(Failure::NoMemory);
        }
        self.scopes.begin(Standing {
            alive: 0,
            function: self.functions,
            in_loop: false,
            has_rest,
        })?;
        self.functions += 1;
        Ok(())
    }

    /// A local is declared.
    fn declare(&mut self, name: Word<'a>) -> Result<(), Failure>
        ensures { Answers (declared_at name.entry.pos name.entry.text.now (state_of self.old)) result (state_of self.new) }
    {
        let mut here = self.scopes.here();
        if here.alive >= MOST {
            return Err(refused(RefusalCode::S5, name.pos));
        }
        let Ok(number) = u32::try_from(self.locals.len()) else {
            return Err(Failure::NoMemory);
        };
        self.declared
            .push(Binding {
                name: name.text,
                local: Local {
                    number,
                    function: here.function,
                },
            })
            .map_err(|_| Failure::NoMemory)?;
        self.locals
            .push(LocalInfo {
                function: here.function,
                captured: false,
                assigned: false,
                assigned_in_closure: false,
            })
            .map_err(|_| Failure::NoMemory)?;
        here.alive += 1;
        self.scopes.set(here);
        Ok(())
    }

    /// The locals that were declared last become visible, so many of them.
    fn appear(&mut self, count: usize) -> Result<(), Failure>
        ensures { Answers (Ok (appeared count (state_of self.old))) result (state_of self.new) }
    {
        let first = self.declared.len().saturating_sub(count);
        self.scopes.enter_all(&self.declared[first..])?;
        self.declared.truncate(first);
        Ok(())
    }

    /// A name of the library is used.
    fn use_name(&mut self, name: LibName) -> Result<(), Failure>
        ensures { Answers (Ok (with_library (state_of self.old) name)) result (state_of self.new) }
    {
        self.uses.push(Use::Lib(name))?;
        Ok(())
    }

    /// A name that is no local is used.
    fn use_library(&mut self, name: Word<'a>) -> Result<(), Failure>
        ensures { Answers (use_library name.entry.pos name.entry.text.now (state_of self.old)) result (state_of self.new) }
    {
        if is_table(name.text) {
            return Err(refused(RefusalCode::S3, name.pos));
        }
        if name.text == b"require".as_slice() {
            return Err(refused(RefusalCode::S4, name.pos));
        }
        match lib_named(b"", name.text) {
            Some(found) => self.use_name(found),
            None => Err(refused(RefusalCode::S1, name.pos)),
        }
    }

    /// `name.key`, where the name is no local.
    fn use_library_field(&mut self, name: Word<'a>, key: Word<'a>) -> Result<(), Failure>
        ensures { Answers (use_library_field name.entry.pos name.entry.text.now key.entry.pos key.entry.text.now (state_of self.old)) result (state_of self.new) }
    {
        if !is_table(name.text) {
            return self.use_library(name);
        }
        match lib_named(name.text, key.text) {
            Some(found) => self.use_name(found),
            None => Err(refused(RefusalCode::S1, key.pos)),
        }
    }

    /// `name.key` is assigned, where the name is no local.
    fn assign_library_field(&mut self, name: Word<'a>, key: Word<'a>) -> Result<(), Failure>
        ensures { Answers (assign_library_field name.entry.pos name.entry.text.now key.entry.pos key.entry.text.now (state_of self.old)) result (state_of self.new) }
    {
        if !is_table(name.text) {
            return self.use_library(name);
        }
        match lib_named(name.text, key.text) {
            Some(_) => Err(refused(RefusalCode::S2, name.pos)),
            None => Err(refused(RefusalCode::S1, key.pos)),
        }
    }

    /// A name that is no local is called with one literal string.
    fn call_library(&mut self, name: Word<'a>, text: Word<'a>) -> Result<(), Failure>
        ensures { Answers (call_library name.entry.pos name.entry.text.now text.entry.pos text.entry.text.now (state_of self.old)) result (state_of self.new) }
    {
        if name.text != b"require".as_slice() {
            return self.use_library(name);
        }
        let asked = Bytes::from_slice(self.alloc, text.text)?;
        self.required.push(Require {
            pos: text.pos,
            name: asked,
            module: None,
        })?;
        self.use_name(LibName::Require)
    }

    /// What is said at one place.
    fn step(&mut self, event: Event<'a>) -> Result<(), Failure>
        ensures { Answers (step (event_of event.entry) (state_of self.old)) result (state_of self.new) }
    {
        match event {
            Event::Block => self.begin_block(),
            Event::Loop => self.begin_loop(),
            Event::Function(has_rest) => self.begin_function(has_rest),
            Event::Finish => {
                self.scopes.finish();
                Ok(())
            }
            Event::Declare(name) => self.declare(name),
            Event::Appear(count) => self.appear(count),
            Event::UseName(name) => match self.scopes.find(name.text) {
                Some(local) => self.use_local(false, name.pos, local),
                None => self.use_library(name),
            },
            Event::AssignName(name) => match self.scopes.find(name.text) {
                Some(local) => self.use_local(true, name.pos, local),
                None => Err(assign_library(name)),
            },
            Event::UseField(name, key) => match self.scopes.find(name.text) {
                Some(local) => self.use_local(false, name.pos, local),
                None => self.use_library_field(name, key),
            },
            Event::AssignField(name, key) => match self.scopes.find(name.text) {
                Some(local) => self.use_local(false, name.pos, local),
                None => self.assign_library_field(name, key),
            },
            Event::CallText(name, text) => match self.scopes.find(name.text) {
                Some(local) => self.use_local(false, name.pos, local),
                None => self.call_library(name, text),
            },
            Event::Leave(pos) => {
                if self.scopes.here().in_loop {
                    Ok(())
                } else {
                    Err(refused(RefusalCode::S7, pos))
                }
            }
            Event::Vararg(pos) => {
                if self.scopes.here().has_rest {
                    Ok(())
                } else {
                    Err(refused(RefusalCode::S8, pos))
                }
            }
        }
    }

    /// All that is said, up to the first refusal.
    pub fn run(&mut self, events: &Events<'a>) -> Result<(), Failure>
        ensures { Answers (run events.now (state_of self.old)) result (state_of self.new) }
    {
        for event in events.as_slice() {
            self.step(*event)?;
        }
        Ok(())
    }

    /// The lists that were found.
    pub fn finish(self) -> Parts
        ensures { result ≡ parts_in (state_of self.entry) }
    {
        Parts {
            uses: self.uses,
            locals: List::from_vec(self.locals),
            required: self.required,
        }
    }
}
