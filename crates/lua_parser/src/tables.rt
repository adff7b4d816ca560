ghost use Rattle.std.specs.Prelude.{◌≡◌, ◌+◌, ◌<◌, [], length};
ghost use Rattle.lua_parser.specs.Machine.Plan.{Item, read};
ghost use Rattle.lua_parser.specs.Stacks.{Goes, GoesBy, tabled, behind_entry, on_stat, on_expr, weight};
ghost use Rattle.lua_parser.specs.declared.reader.Mode.TheVariants as mode;

use crate::cursor::Stop;
use crate::expressions::UNARY_LEVEL;
use crate::prefixes::call_of;
use crate::reader::{Form, Frame, Mode, Reader, Table, TableOf, Within};
use lua_lexer::Symbol;
use lua_tree::{Expr, Name};
use tl_base::List;

impl<'a> Reader<'a> {
    /// Reads what an entry begins with, or the end of the table.
    pub(crate) fn entries(&mut self, table: Table) -> Result<Mode, Stop>
        ensures { Goes self.old (mode.Entries table) result self.new }
    {
        let depth = self.cursor.depth();
        let height = table.height;
        if self.cursor.take(Symbol::CloseBrace)? {
            return self.end_table(table);
        }
        if self.cursor.take(Symbol::OpenBracket)? {
            self.cursor.open();
            self.push(Frame::Key(table), height, depth)?;
            return Ok(Mode::Operand(1));
        }
        if self.cursor.is_name() {
            let alloc = self.alloc;
            let name = self.cursor.need_name(alloc)?;
            return self.named_entry(table, name);
        }
        self.push(Frame::Item(table), height, depth)?;
        Ok(Mode::Operand(1))
    }

    /// Reads what stands behind a name that an entry begins with.
    fn named_entry(&mut self, table: Table, name: Name) -> Result<Mode, Stop>
        ensures { GoesBy (read (Item.named_or_item name self.old.uses) (λ d. behind_entry table (on_stat self.old) (on_expr self.old) d.0 d.1)) (weight self.old (mode.Operand 0) + 8) self.old result self.new }
    {
        let depth = self.cursor.depth();
        let height = table.height;
        if self.cursor.take(Symbol::Assign)? {
            self.push(Frame::Named(table, name), height, depth)?;
            return Ok(Mode::Operand(1));
        }
        let number = self.number()?;
        self.cursor.leaf();
        self.push(Frame::Item(table), height, depth)?;
        Ok(Mode::Prefix(
            Within::Expression(1),
            Form::Target,
            Expr::Name(name.pos, number, name.text),
        ))
    }

    /// Reads what stands behind an entry.
    pub(crate) fn behind_entry(&mut self, table: Table) -> Result<Mode, Stop>
        ensures { Goes self.old (mode.BehindEntry table) result self.new }
    {
        if self.cursor.take(Symbol::CloseBrace)? {
            return self.end_table(table);
        }
        if self.cursor.take(Symbol::Comma)? {
            return Ok(Mode::Entries(table));
        }
        if self.cursor.take(Symbol::Semicolon)? {
            return Ok(Mode::Entries(table));
        }
        Err(Stop::Unexpected)
    }

    /// What a whole table becomes.
    fn end_table(&mut self, table: Table) -> Result<Mode, Stop>
        ensures { GoesBy (tabled table (on_stat self.old) (on_expr self.old) ([], self.old.uses)) (weight self.old (mode.Operand 0) + 8) self.old result self.new }
    {
        let Table {
            of,
            pos,
            entries,
            height,
            depth,
        } = table;
        let alloc = self.alloc;
        self.cursor.close(depth);
        let whole = Expr::Table(pos, entries.into_list());
        match of {
            TableOf::Operand(least) => {
                self.cursor.leaf();
                self.cursor.grow(height)?;
                self.takes_call = false;
                Ok(Mode::Operation(least, UNARY_LEVEL, whole))
            }
            TableOf::Argument(called) => {
                self.cursor.leaf();
                self.cursor.grow(height)?;
                self.cursor.grow(called.height)?;
                let mut values = List::new(alloc);
                values.push(whole)?;
                Ok(call_of(alloc, called, values)?)
            }
        }
    }
}
