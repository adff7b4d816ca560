ghost use Rattle.std.specs.Prelude.{◌≡◌, ℕ, ◌<◌, ◌≤◌, [], length, IfOk, IfErr};
ghost use Rattle.lua_tree.specs.declared.syntax.Block.{Block};
ghost use Rattle.lua_parser.specs.Words.{words_of};
ghost use Rattle.lua_parser.specs.Grammar.Syntax.{SpellsChunk};
ghost use Rattle.lua_parser.specs.Parsing.{IsModule, IsShallow, IsRefused, IsFailure, IsTree, IsRefusal};
ghost use Rattle.lua_parser.specs.Parts.{parts_of, AreNumbered};
ghost use Rattle.lua_lexer.specs.Tokens.{Lexed};
ghost use Rattle.tl_base.specs.declared.refusal.Refusal.{Refusal};
ghost use Rattle.lua_parser.specs.Machine.Run.{module_plan};
ghost use Rattle.lua_parser.specs.Stacks.{Goes, Steps, Reaches, plan, weight};
ghost use Rattle.lua_parser.specs.declared.reader.Mode.TheVariants as mode;

use crate::blocks::block;
use crate::cursor::{Cursor, Stop};
use crate::reader::{Mode, Reader};
use crate::refusals::{read_too_far, refusal, whole};
use crate::stack::Stack;
use lua_lexer::Token;
use lua_tree::{Block, Chunk, Return};
use std::alloc::Global;
use tl_base::{Failure, List, ModuleKind};

/// What one step of the reading gives.
#[derive(Drop)]
pub(crate) enum Step {
    Next(Mode),
    /// The module's outermost block.
    Done(Block),
}

impl<'a> Reader<'a> {
    /// A reader at the beginning of a module.
    pub(crate) fn new(
        alloc: Global,
        kind: ModuleKind,
        source: &'a [u8],
        tokens: &'a [Token],
    ) -> Reader<'a>
        ensures kind { result.kind ≡ kind }
        ensures words { result.cursor ≡ words_of source.now tokens.now }
        ensures plan { plan result mode.Block ≡ module_plan }
    {
        Reader {
            alloc,
            kind,
            cursor: Cursor::new(source, tokens),
            uses: 0,
            takes_call: false,
            stats: Stack::new(alloc),
            frames: Stack::new(alloc),
            outer: Stack::new(alloc),
        }
    }

    /// Reads on by one step.
    fn step(&mut self, mode: Mode) -> Result<Step, Stop>
        requires { 0 < length self.old.cursor }
        ensures { Steps self.old mode result self.new }
    {
        match mode {
            Mode::Ended(last) => self.leave(last),
            other => self.go_on(other),
        }
    }

    /// Reads the end of a block.
    fn leave(&mut self, last: Option<Return>) -> Result<Step, Stop>
        requires { 0 < length self.old.cursor }
        ensures { Steps self.old (mode.Ended last) result self.new }
    {
        if self.outer.is_empty() {
            return self.finish(last);
        }
        let next = self.ended(last)?;
        Ok(Step::Next(next))
    }

    /// Reads on.
    fn go_on(&mut self, mode: Mode) -> Result<Step, Stop>
        requires { 0 < length self.old.cursor }
        ensures { Steps self.old mode result self.new }
    {
        let next = self.next(mode)?;
        Ok(Step::Next(next))
    }

    /// What is read next.
    fn next(&mut self, mode: Mode) -> Result<Mode, Stop>
        requires { 0 < length self.old.cursor }
        ensures { Goes self.old mode result self.new }
    {
        match mode {
            Mode::Block => self.block(),
            Mode::Operand(least) => self.operand(least),
            Mode::Operation(least, most, left) => self.operation(least, most, left),
            Mode::Prefix(within, form, expr) => self.prefix(within, form, expr),
            Mode::Value(expr) => self.value(expr),
            Mode::Entries(table) => self.entries(table),
            Mode::BehindEntry(table) => self.behind_entry(table),
            Mode::Locals(pos, names) => self.locals(pos, names),
            Mode::Names(pos, names, depth) => self.names(pos, names, depth),
            Mode::Path(pos, target) => self.path(pos, target),
            Mode::Params(header, may_end) => self.params(header, may_end),
            Mode::Statement(stat) => self.statement(stat),
            Mode::Ended(last) => self.ended(last),
        }
    }

    /// Reads the end of the module.
    fn finish(&mut self, last: Option<Return>) -> Result<Step, Stop>
        requires { self.old.outer ≡ [] }
        ensures { Steps self.old (mode.Ended last) result self.new }
    {
        self.cursor.need_end()?;
        if !self.cursor.is_over() {
            return Err(Stop::Unexpected);
        }
        let stats = self.stats.take(self.alloc);
        Ok(Step::Done(block(stats.into_list(), last)))
    }

    /// Reads all that is left.
    pub(crate) fn read(&mut self, first: Mode) -> Result<Block, Stop>
        ensures { Reaches (plan self.old first) self.old result self.new }
    {
        let mut mode = first;
        loop {
            if self.cursor.is_over() {
                return Err(Stop::Unexpected);
            }
            match self.step(mode)? {
                Step::Next(next) => mode = next,
                Step::Done(block) => return Ok(block),
            }
        }
    }
}

/// The tree of a module's tokens, which are those of `source`, or the refusal at one of them: P4 at the first that is inside more than 200 constructs or ends
/// an expression or a type of a height above 1000, where no fault stands before it; else the first with which no spelling goes on, with P2 for `/` and
/// `^`, P3 for `goto` and `::`, P5 for a token that would go on in a typed module, else P1. `module` is the file's number, which the tokens' places bear.
/// Tokens whose last isn't `End` are answered as want of memory, and so is a module whose first fault stands right behind an expression or a type
/// that is more than 1000 high if it ends there. The uses of names are numbered from 0 on in order of place. It takes time linear in the tokens.
pub fn parse(
    alloc: Global,
    module: u32,
    kind: ModuleKind,
    source: &[u8],
    tokens: &List<Token>,
) -> Result<Chunk, Failure>
    ensures tree { IfOk result (λ c. IsModule «module» kind (words_of source.now tokens.now) c) }
    ensures refused { IfErr result (λ e. IsFailure kind (words_of source.now tokens.now) e) }
    ensures only_tree { (b : Block) → SpellsChunk kind b (words_of source.now tokens.now) → IsShallow kind (words_of source.now tokens.now) → IsTree b result }
    ensures only_refusal { (r : Refusal) → IsRefused kind (words_of source.now tokens.now) r → IsRefusal r result }
    ensures numbered { IfOk result (λ c. AreNumbered 0 (parts_of c.body)) }
    ensures fewer { IfOk result (λ c. length (parts_of c.body) < length tokens.now) }
    ensures few { (m : ℕ) → Lexed m source.now tokens.now → IfOk result (λ c. length (parts_of c.body) ≤ length source.now) }
{
    let mut reader = Reader::new(alloc, kind, source, tokens.as_slice());
    match reader.read(Mode::Block) {
        Ok(body) => whole(
            alloc,
            source,
            tokens.as_slice(),
            Chunk { module, kind, body },
        ),
        Err(Stop::Unexpected) => Err(refusal(
            alloc,
            kind,
            source,
            tokens.as_slice(),
            &reader.cursor,
        )),
        Err(Stop::Deep) => Err(read_too_far(
            alloc,
            kind,
            source,
            tokens.as_slice(),
            reader.cursor.len(),
        )),
        Err(_) => Err(Failure::NoMemory),
    }
}
