ghost use Rattle.std.specs.Prelude.{◌≡◌, ◌+◌, ◌<◌, ◌∷◌, [], length, IfOk};
ghost use Rattle.lua_parser.specs.Machine.Plan.{Item, read};
ghost use Rattle.lua_parser.specs.Stacks.{Goes, GoesBy, onto, listed, framed, behind_entry, on_stat, on_return, on_expr, weight};
ghost use Rattle.lua_parser.specs.declared.reader.Frame.TheVariants as frame;
ghost use Rattle.lua_parser.specs.declared.reader.Mode.TheVariants as mode;

use crate::cursor::Stop;
use crate::expressions::{UNARY_LEVEL, binary};
use crate::operators::level;
use crate::prefixes::call_of;
use crate::reader::{
    BlockOf, Form, Frame, Held, ListOf, Mode, Range, Reader, Table, Within, first_place, place,
};
use crate::stack::Stack;
use lua_lexer::{Keyword, Symbol};
use lua_tree::{BinaryOperator, Clause, Entry, Expr, Name, Stat, UnaryOperator};
use tl_base::{Boxed, List, Pos};

impl<'a> Reader<'a> {
    /// What a whole expression becomes.
    pub(crate) fn value(&mut self, expr: Expr) -> Result<Mode, Stop>
        requires { 0 < length self.old.cursor }
        ensures { Goes self.old (mode.Value expr) result self.new }
    {
        match self.frames.pop() {
            Some(held) => {
                let Held {
                    frame,
                    height,
                    depth,
                } = held;
                self.framed(frame, height, depth, expr)
            }
            None => {
                let pos = place(&expr);
                Ok(Mode::Statement(Stat::Empty(pos)))
            }
        }
    }

    /// What a whole expression becomes that is for this.
    fn framed(&mut self, frame: Frame, height: u32, depth: u32, expr: Expr) -> Result<Mode, Stop>
        requires { 0 < length self.old.cursor }
        ensures { GoesBy (framed frame (on_stat self.old) (on_return self.old) (on_expr self.old) (expr, self.old.uses, self.old.takes_call)) (weight self.old (mode.Operand 0) + 5) self.old result self.new }
    {
        match frame {
            Frame::Unary(least, pos, operator) => {
                self.end_unary(least, pos, operator, depth, expr)
            }
            Frame::Right(least, operator, left) => {
                self.end_binary(least, operator, left, height, depth, expr)
            }
            Frame::Paren(within, pos) => self.end_paren(within, pos, depth, expr),
            Frame::Index(within, prefix) => self.end_index(within, prefix, height, depth, expr),
            Frame::Listed(of, values) => self.listed(of, values, height, depth, expr),
            Frame::Key(table) => self.end_key(table, depth, expr),
            Frame::Keyed(table, key) => self.entry(table, Entry::Keyed(key, expr)),
            Frame::Named(table, name) => self.entry(table, Entry::Named(name, expr)),
            Frame::Item(table) => self.entry(table, Entry::Item(expr)),
            Frame::While(pos) => {
                self.cursor.need_word(Keyword::Do)?;
                self.enter(BlockOf::While(pos, expr), depth)
            }
            Frame::Until(pos, block) => {
                self.cursor.close(depth);
                Ok(Mode::Statement(Stat::Repeat(pos, block, expr)))
            }
            Frame::Condition(pos, clauses) => {
                self.cursor.need_word(Keyword::Then)?;
                self.enter(BlockOf::Then(pos, clauses, expr), depth)
            }
            Frame::First(pos, name) => {
                self.cursor.need(Symbol::Comma)?;
                self.push(Frame::Limit(pos, name, expr), 0, depth)?;
                Ok(Mode::Operand(1))
            }
            Frame::Limit(pos, name, first) => self.end_limit(pos, name, first, depth, expr),
            Frame::Step(range) => {
                self.cursor.need_word(Keyword::Do)?;
                self.enter(BlockOf::Numeric(range, Some(expr)), depth)
            }
        }
    }

    /// The operation of one operand.
    fn end_unary(
        &mut self,
        least: u8,
        pos: Pos,
        operator: UnaryOperator,
        depth: u32,
        expr: Expr,
    ) -> Result<Mode, Stop>
        ensures { GoesBy (framed (frame.Unary least pos operator) (on_stat self.old) (on_return self.old) (on_expr self.old) (expr, self.old.uses, self.old.takes_call)) (weight self.old (mode.Operand 0) + 5) self.old result self.new }
    {
        self.cursor.close(depth);
        self.cursor.grow(0)?;
        let inner = Boxed::new(self.alloc, expr)?;
        Ok(Mode::Operation(least, UNARY_LEVEL, Expr::Unary(pos, operator, inner)))
    }

    /// The operation of two operands.
    fn end_binary(
        &mut self,
        least: u8,
        operator: BinaryOperator,
        left: Expr,
        height: u32,
        depth: u32,
        expr: Expr,
    ) -> Result<Mode, Stop>
        ensures { GoesBy (framed (frame.Right least operator left) (on_stat self.old) (on_return self.old) (on_expr self.old) (expr, self.old.uses, self.old.takes_call)) (weight self.old (mode.Operand 0) + 5) self.old result self.new }
    {
        self.cursor.close(depth);
        self.cursor.grow(height)?;
        let whole = binary(self.alloc, operator, left, expr)?;
        Ok(Mode::Operation(least, level(operator), whole))
    }

    /// Reads the end of an expression in parentheses.
    fn end_paren(&mut self, within: Within, pos: Pos, depth: u32, expr: Expr) -> Result<Mode, Stop>
        ensures { GoesBy (framed (frame.Paren within pos) (on_stat self.old) (on_return self.old) (on_expr self.old) (expr, self.old.uses, self.old.takes_call)) (weight self.old (mode.Operand 0) + 5) self.old result self.new }
    {
        self.cursor.need(Symbol::CloseParen)?;
        self.cursor.close(depth);
        self.cursor.grow(0)?;
        let inner = Boxed::new(self.alloc, expr)?;
        Ok(Mode::Prefix(within, Form::Enclosed, Expr::Paren(pos, inner)))
    }

    /// Reads the end of an index.
    fn end_index(
        &mut self,
        within: Within,
        prefix: Expr,
        height: u32,
        depth: u32,
        expr: Expr,
    ) -> Result<Mode, Stop>
        ensures { GoesBy (framed (frame.Index within prefix) (on_stat self.old) (on_return self.old) (on_expr self.old) (expr, self.old.uses, self.old.takes_call)) (weight self.old (mode.Operand 0) + 5) self.old result self.new }
    {
        self.cursor.need(Symbol::CloseBracket)?;
        self.cursor.close(depth);
        self.cursor.grow(height)?;
        let pos = place(&prefix);
        let alloc = self.alloc;
        let object = Boxed::new(alloc, prefix)?;
        let key = Boxed::new(alloc, expr)?;
        Ok(Mode::Prefix(within, Form::Target, Expr::Index(pos, object, key)))
    }

    /// Reads what stands behind an expression of a list.
    fn listed(
        &mut self,
        of: ListOf,
        values: Stack<Expr>,
        height: u32,
        depth: u32,
        expr: Expr,
    ) -> Result<Mode, Stop>
        requires { 0 < length self.old.cursor }
        ensures { GoesBy (framed (frame.Listed of values) (on_stat self.old) (on_return self.old) (on_expr self.old) (expr, self.old.uses, self.old.takes_call)) (weight self.old (mode.Operand 0) + 5) self.old result self.new }
    {
        let mut all = values;
        all.push(expr)?;
        let highest = self.cursor.highest(height);
        if self.cursor.take(Symbol::Comma)? {
            self.push(Frame::Listed(of, all), highest, depth)?;
            return Ok(Mode::Operand(1));
        }
        self.end_list(of, all.into_list(), highest, depth)
    }

    /// What a whole list becomes.
    fn end_list(
        &mut self,
        of: ListOf,
        values: List<Expr>,
        height: u32,
        depth: u32,
    ) -> Result<Mode, Stop>
        requires { 0 < length self.old.cursor }
        ensures { GoesBy (listed of (on_stat self.old) (on_return self.old) (on_expr self.old) (values, self.old.uses, self.old.takes_call)) (weight self.old (mode.Operand 0) + 5) self.old result self.new }
    {
        let alloc = self.alloc;
        match of {
            ListOf::Arguments(called) => {
                self.cursor.need(Symbol::CloseParen)?;
                self.cursor.close(depth);
                self.cursor.grow(height)?;
                Ok(call_of(alloc, called, values)?)
            }
            ListOf::Assigned(targets) => {
                let all = targets.into_list();
                let pos = first_place(&all);
                Ok(Mode::Statement(Stat::Assign(pos, all, values)))
            }
            ListOf::Locals(pos, names) => Ok(Mode::Statement(Stat::Local(
                pos,
                names.into_list(),
                values,
            ))),
            ListOf::Returned(pos) => self.end_return(pos, values),
            ListOf::Iterated(pos, names) => {
                self.cursor.need_word(Keyword::Do)?;
                self.enter(BlockOf::Generic(pos, names.into_list(), values), depth)
            }
        }
    }

    /// Reads what stands behind the limit of a numeric `for`.
    fn end_limit(
        &mut self,
        pos: Pos,
        name: Name,
        first: Expr,
        depth: u32,
        expr: Expr,
    ) -> Result<Mode, Stop>
        requires { 0 < length self.old.cursor }
        ensures { GoesBy (framed (frame.Limit pos name first) (on_stat self.old) (on_return self.old) (on_expr self.old) (expr, self.old.uses, self.old.takes_call)) (weight self.old (mode.Operand 0) + 5) self.old result self.new }
    {
        let range = Range {
            pos,
            name,
            first,
            limit: expr,
        };
        if self.cursor.take(Symbol::Comma)? {
            self.push(Frame::Step(range), 0, depth)?;
            return Ok(Mode::Operand(1));
        }
        self.cursor.need_word(Keyword::Do)?;
        self.enter(BlockOf::Numeric(range, None), depth)
    }

    /// Reads the end of an entry's key.
    fn end_key(&mut self, table: Table, depth: u32, expr: Expr) -> Result<Mode, Stop>
        ensures { GoesBy (framed (frame.Key table) (on_stat self.old) (on_return self.old) (on_expr self.old) (expr, self.old.uses, self.old.takes_call)) (weight self.old (mode.Operand 0) + 5) self.old result self.new }
    {
        self.cursor.need(Symbol::CloseBracket)?;
        self.cursor.close(depth);
        self.cursor.need(Symbol::Assign)?;
        let mut held = table;
        held.height = self.cursor.highest(held.height);
        self.push(Frame::Keyed(held, expr), 0, 0)?;
        Ok(Mode::Operand(1))
    }

    /// Adds an entry to a table.
    fn entry(&mut self, table: Table, entry: Entry) -> Result<Mode, Stop>
        ensures { GoesBy (behind_entry table (on_stat self.old) (on_expr self.old) entry self.old.uses) (weight self.old (mode.Operand 0) + 5) self.old result self.new }
    {
        let mut whole = table;
        whole.height = self.cursor.highest(whole.height);
        whole.entries.push(entry)?;
        Ok(Mode::BehindEntry(whole))
    }
}
