ghost use Rattle.std.specs.Prelude.{◌≡◌, ◌+◌, ◌<◌, [], ◌∷◌, false, length};
ghost use Rattle.lua_parser.specs.Machine.Plan.{Item, read};
ghost use Rattle.lua_parser.specs.Stacks.{Goes, GoesBy, Ends, onto, opened, closed, bodied, function_of, on_stat, on_return, on_expr, weight};
ghost use Rattle.lua_parser.specs.Grammar.Syntax.{block};
ghost use Rattle.lua_parser.specs.declared.reader.Mode.TheVariants as mode;
ghost use Rattle.lua_tree.specs.declared.syntax.Stat.TheVariants as stat;

use crate::cursor::Stop;
use crate::expressions::UNARY_LEVEL;
use crate::reader::{BlockOf, BodyOf, Frame, Mode, Outer, Reader, Signature};
use crate::stack::Stack;
use lua_lexer::{Keyword, Symbol};
use lua_tree::{Block, Body, Clause, Expr, Return, Stat};
use tl_base::{Boxed, List, Pos};

impl<'a> Reader<'a> {
    /// Begins a block that is for this.
    pub(crate) fn enter(&mut self, of: BlockOf, depth: u32) -> Result<Mode, Stop>
        ensures { GoesBy (opened of self.old.uses (on_stat self.old) (on_expr self.old)) (weight self.old (mode.Operand 0) + 2) self.old result self.new }
    {
        let alloc = self.alloc;
        let stats = self.stats.take(alloc);
        let frames = self.frames.take(alloc);
        self.outer.push(Outer {
            of,
            stats,
            frames,
            depth,
        })?;
        self.takes_call = false;
        Ok(Mode::Block)
    }

    /// Reads what stands behind a `return` and its values.
    pub(crate) fn end_return(&mut self, pos: Pos, values: List<Expr>) -> Result<Mode, Stop>
        requires { 0 < length self.old.cursor }
        ensures { GoesBy (on_return self.old pos (values, self.old.uses)) (weight self.old (mode.Operand 0) + 1) self.old result self.new }
    {
        self.cursor.take(Symbol::Semicolon)?;
        Ok(Mode::Ended(Some(Return { pos, values })))
    }

    /// What a whole block becomes that stands in another.
    pub(crate) fn ended(&mut self, last: Option<Return>) -> Result<Mode, Stop>
        requires { 0 < length self.old.cursor }
        ensures { Goes self.old (mode.Ended last) result self.new }
    {
        let Some(outer) = self.outer.pop() else {
            return Err(Stop::NoMemory);
        };
        let Outer {
            of,
            stats,
            frames,
            depth,
        } = outer;
        let alloc = self.alloc;
        let inner = self.stats.take(alloc).into_list();
        self.stats = stats;
        self.frames = frames;
        self.end_block(of, inner, last, depth)
    }

    /// What a whole block becomes that is for this.
    fn end_block(
        &mut self,
        of: BlockOf,
        stats: List<Stat>,
        last: Option<Return>,
        depth: u32,
    ) -> Result<Mode, Stop>
        requires { 0 < length self.old.cursor }
        ensures { GoesBy (closed of (stats, last, self.old.uses) (on_stat self.old) (on_expr self.old)) (weight self.old (mode.Operand 0)) self.old result self.new }
    {
        match of {
            BlockOf::Do(pos) => {
                self.end(depth)?;
                Ok(Mode::Statement(Stat::Do(pos, block(stats, last))))
            }
            BlockOf::While(pos, condition) => {
                self.end(depth)?;
                Ok(Mode::Statement(Stat::While(pos, condition, block(stats, last))))
            }
            BlockOf::Repeat(pos) => {
                self.cursor.need_word(Keyword::Until)?;
                self.push(Frame::Until(pos, block(stats, last)), 0, depth)?;
                Ok(Mode::Operand(1))
            }
            BlockOf::Then(pos, clauses, condition) => {
                let clause = Clause {
                    condition,
                    block: block(stats, last),
                };
                self.end_clause(pos, clauses, clause, depth)
            }
            BlockOf::Else(pos, clauses) => {
                self.end(depth)?;
                Ok(Mode::Statement(Stat::If(pos, clauses.into_list(), Some(block(stats, last)))))
            }
            BlockOf::Numeric(range, step) => {
                self.end(depth)?;
                Ok(Mode::Statement(Stat::NumericFor(
                    range.pos,
                    range.name,
                    range.first,
                    range.limit,
                    step,
                    block(stats, last),
                )))
            }
            BlockOf::Generic(pos, names, values) => {
                self.end(depth)?;
                Ok(Mode::Statement(Stat::GenericFor(pos, names, values, block(stats, last))))
            }
            BlockOf::Body(of, signature) => {
                self.end(depth)?;
                let body = body(signature, block(stats, last));
                self.end_body(of, body)
            }
        }
    }

    /// Reads the `end` of a block.
    fn end(&mut self, depth: u32) -> Result<(), Stop>
        ensures { Ends self.old result self.new }
    {
        self.cursor.need_word(Keyword::End)?;
        self.cursor.close(depth);
        self.takes_call = false;
        Ok(())
    }

    /// Reads what stands behind a clause of an `if`.
    fn end_clause(
        &mut self,
        pos: Pos,
        clauses: Stack<Clause>,
        clause: Clause,
        depth: u32,
    ) -> Result<Mode, Stop>
        requires { 0 < length self.old.cursor }
        ensures { GoesBy (read (Item.more_clauses self.old.uses) (λ r. on_stat self.old (stat.If pos (onto clauses (clause ∷ r.0)) r.1, r.2, false))) (weight self.old (mode.Operand 0)) self.old result self.new }
    {
        let mut all = clauses;
        all.push(clause)?;
        if self.cursor.take_word(Keyword::Elseif)? {
            self.push(Frame::Condition(pos, all), 0, depth)?;
            return Ok(Mode::Operand(1));
        }
        if self.cursor.take_word(Keyword::Else)? {
            return self.enter(BlockOf::Else(pos, all), depth);
        }
        self.end(depth)?;
        Ok(Mode::Statement(Stat::If(pos, all.into_list(), None)))
    }

    /// What a whole body becomes.
    fn end_body(&mut self, of: BodyOf, body: Body) -> Result<Mode, Stop>
        requires { self.old.takes_call ≡ false }
        ensures { GoesBy (bodied of (on_stat self.old) (on_expr self.old) (body, self.old.uses)) (weight self.old (mode.Operand 0) + 5) self.old result self.new }
    {
        let inner = Boxed::new(self.alloc, body)?;
        match of {
            BodyOf::Operand(least, pos) => {
                self.cursor.leaf();
                Ok(Mode::Operation(least, UNARY_LEVEL, Expr::Function(pos, inner)))
            }
            BodyOf::Function(pos, target) => Ok(Mode::Statement(Stat::Function(
                pos,
                target,
                Expr::Function(pos, inner),
            ))),
            BodyOf::Method(pos, object, name) => Ok(Mode::Statement(Stat::Method(
                pos,
                object,
                name,
                Expr::Function(pos, inner),
            ))),
            BodyOf::Local(pos, name) => Ok(Mode::Statement(Stat::LocalFunction(
                pos,
                name,
                Expr::Function(pos, inner),
            ))),
        }
    }
}

/// The block of these statements.
pub(crate) fn block(stats: List<Stat>, last: Option<Return>) -> Block
    ensures { result ≡ block stats last }
{
    Block {
        stats,
        result: last,
    }
}

/// The body of a function.
fn body(signature: Signature, block: Block) -> Body
    ensures { result ≡ function_of signature block }
{
    Body {
        params: signature.params,
        rest: signature.rest,
        results: signature.results,
        block,
    }
}
