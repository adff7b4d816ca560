ghost use Rattle.std.specs.Prelude.{◌≡◌, ℕ, List, [], ◌∷◌, ◌++◌, length, slice_index_or, Some, None, MatchOption, IfOk, OnOk, OnErr, IsTrue};
ghost use Rattle.lua_meaning.specs.World.{read_cell, write_cell, with_cell, pass as passed, recorded, kind_at, error_text};
ghost use Rattle.lua_meaning.specs.Programs.{start};
ghost use Rattle.lua_machine.specs.World.{kind_error_of, takes_turn};

use crate::lists::again;
use itoa::Buffer;
use lua_values::Value;
use std::alloc::Global;
use std::marker::Model;
use tl_base::{Bytes, Crossing, List, ModuleKind, NoMemory, Pos};

/// What a run keeps, which contracts see as the world of the code's run without its output and its input.
#[derive(Drop)]
pub struct Store {
    cells: Vec<Value>,
    words: List<Bytes>,
    kinds: List<ModuleKind>,
    turns: u64,
    mark: Option<Crossing>,
    error: Option<(Pos, Option<Crossing>)>,
}

impl Model for Store {
    ghost use Rattle.lua_meaning.specs.World.{World};
    ghost use Rattle.lua_machine.specs.World.{bare_world};

    ghost Value = { World };

    ghost view = { λ s. bare_world s.cells.items s.words s.kinds s.turns s.mark s.error };
}

impl Store {
    /// Nothing is stored and nothing recorded.
    pub fn new(alloc: Global, words: List<Bytes>, kinds: List<ModuleKind>, turns: u64) -> Store
        ensures { result ≡ start kinds words [] turns }
    {
        Store {
            cells: Vec::new(alloc),
            words,
            kinds,
            turns,
            mark: None,
            error: None,
        }
    }

    /// The outside is none of a store's affairs: nothing is written in it, and nothing is to be read.
    #[inline(always)]
    pub fn is_bare(&self)
        ensures output { self.now.output ≡ [] }
        ensures input { self.now.input ≡ [] }
    {
        let _ = &self.cells;
    }

    /// How many turns are left.
    #[inline(always)]
    pub fn turns(&self) -> u64
        ensures { result ≡ self.now.turns }
    {
        self.turns
    }

    /// The first crossing passed.
    pub fn mark(&self) -> Option<Crossing>
        ensures { result ≡ self.now.mark }
    {
        self.mark
    }

    /// The first error of kinds at a place of a typed module, with the first crossing passed before it.
    pub fn error(&self) -> Option<(Pos, Option<Crossing>)>
        ensures { kind_error_of result ≡ self.now.error }
    {
        self.error
    }

    /// Sets the turns and both records back to what they were.
    pub fn set_back(
        &mut self,
        turns: u64,
        mark: Option<Crossing>,
        error: Option<(Pos, Option<Crossing>)>,
    )
        ensures { self.new ≡ record self.old { turns = turns; mark = mark; error = kind_error_of error } }
    {
        self.turns = turns;
        self.mark = mark;
        self.error = error;
    }

    /// Takes a turn, if one is left.
    #[inline(always)]
    pub fn take_turn(&mut self) -> bool
        ensures { takes_turn result self.old self.new }
    {
        if self.turns == 0 {
            return false;
        }
        self.turns -= 1;
        true
    }

    /// The value in a cell, or nil where there is no such cell.
    #[inline(always)]
    pub fn read(&self, cell: u64) -> Result<Value, NoMemory>
        ensures { IfOk result (λ value. value ≡ read_cell (Some cell) self.now) }
    {
        match self.cells.get(cell as usize) {
            Some(value) => Ok(again(value)?),
            None => Ok(Value::Nil),
        }
    }

    /// Puts a value into a cell, if there is such a cell.
    #[inline(always)]
    pub fn write(&mut self, cell: u64, value: Value)
        ensures { self.new ≡ write_cell (Some cell) value self.old }
    {
        if let Some(place) = self.cells.get_mut(cell as usize) {
            *place = value;
        }
    }

    /// Puts a value into a new cell, and answers its number.
    #[inline(always)]
    pub fn add(&mut self, value: Value) -> Result<u64, NoMemory>
        ensures { IfOk result (λ cell. (cell ≡ length self.old.cells) × (self.new ≡ with_cell value self.old)) }
    {
        let cell = self.cells.len() as u64;
        self.cells.push(value)?;
        Ok(cell)
    }

    /// Passes a crossing: the first one is recorded.
    #[inline(always)]
    pub fn pass(&mut self, crossing: Crossing)
        ensures { self.new ≡ passed crossing self.old }
    {
        if self.mark.is_none() {
            self.mark = Some(crossing);
        }
    }

    /// The kind of the module of a place.
    fn kind(&self, place: Pos) -> ModuleKind
        ensures { result ≡ kind_at self.now place }
    {
        match self.kinds.get(place.module as usize) {
            Some(kind) => *kind,
            None => ModuleKind::Untyped,
        }
    }

    /// Records an error of kinds at a place: the first one at a place of a typed module.
    pub fn record(&mut self, place: Pos)
        ensures { self.new ≡ recorded (kind_at self.old place) place self.old }
    {
        match self.kind(place) {
            ModuleKind::Typed => {
                if self.error.is_none() {
                    self.error = Some((place, self.mark));
                }
            }
            ModuleKind::Untyped => {}
        }
    }

    /// The file word of the module of a place.
    fn word(&self, place: Pos) -> &[u8]
        ensures { result.now ≡ slice_index_or self.now.words place.module [] }
    {
        match self.words.get(place.module as usize) {
            Some(word) => word.as_slice(),
            None => &[],
        }
    }

    /// The text of an error at a place.
    #[inline(never)]
    pub fn error_text(&self, alloc: Global, place: Pos, what: &[u8]) -> Result<Bytes, NoMemory>
        ensures { IfOk result (λ text. text ≡ error_text place what.now self.now) }
    {
        let mut buffer = Buffer::new();
        let mut text = Bytes::from_slice(alloc, self.word(place))?;
        text.extend(b":")?;
        text.extend(buffer.format(place.line).as_bytes())?;
        text.extend(b":")?;
        text.extend(buffer.format(place.column).as_bytes())?;
        text.extend(b": ")?;
        text.extend(what)?;
        Ok(text)
    }
}
