ghost use Rattle.std.specs.Prelude.{◌≡◌, ◌+◌, ◌<◌, [], ◌∷◌, true, false, length};
ghost use Rattle.lua_parser.specs.Machine.Plan.{Item, want, read};
ghost use Rattle.lua_parser.specs.Stacks.{Goes, GoesBy, begun_stat, is_outermost, is_type_stat, on_stat, on_return, on_expr, weight};
ghost use Rattle.lua_parser.specs.Outcomes.{head_opener};
ghost use Rattle.lua_lexer.specs.declared.token.Symbol.TheVariants as s;
ghost use Rattle.lua_parser.specs.Words.{sign};
ghost use Rattle.lua_tree.specs.declared.syntax.Stat.TheVariants as stat;
ghost use Rattle.lua_parser.specs.declared.starters.Opener.TheVariants as openers;
ghost use Rattle.lua_parser.specs.declared.reader.Mode.TheVariants as mode;

use crate::annotations::{a_type, fields_of_interface};
use crate::cursor::Stop;
use crate::reader::{BlockOf, Form, Frame, ListOf, Mode, Reader, Within};
use crate::stack::Stack;
use crate::starters::{Opener, Start};
use lua_lexer::Symbol;
use lua_tree::{Expr, Name, Stat};
use tl_base::{List, ModuleKind, Pos};

impl<'a> Reader<'a> {
    /// Reads what a statement begins with, or ends the block.
    pub(crate) fn block(&mut self) -> Result<Mode, Stop>
        requires { 0 < length self.old.cursor }
        ensures { Goes self.old mode.Block result self.new }
    {
        match self.cursor.opener() {
            Opener::Plain(start) => self.plain(start),
            Opener::Return => self.result(),
            Opener::OpenParen => self.enclosed(),
            Opener::Name => self.name_stat(),
            Opener::Other => Ok(Mode::Ended(None)),
        }
    }

    /// Takes the first token of a statement that is no name and no parenthesis.
    fn plain(&mut self, start: Start) -> Result<Mode, Stop>
        requires { head_opener self.old.cursor ≡ openers.Plain start }
        ensures { Goes self.old mode.Block result self.new }
    {
        let pos = self.cursor.pos();
        let depth = self.cursor.depth();
        self.cursor.pass()?;
        self.started(start, pos, depth)
    }

    /// Reads on behind the first token of a statement.
    fn started(&mut self, start: Start, pos: Pos, depth: u32) -> Result<Mode, Stop>
        ensures { GoesBy (begun_stat self.old start pos) (weight self.old (mode.Operand 0) + 8) self.old result self.new }
    {
        match start {
            Start::Semicolon => {
                self.takes_call = false;
                Ok(Mode::Statement(Stat::Empty(pos)))
            }
            Start::Break => {
                self.takes_call = false;
                Ok(Mode::Statement(Stat::Break(pos)))
            }
            Start::Do => {
                self.cursor.open();
                self.enter(BlockOf::Do(pos), depth)
            }
            Start::While => {
                self.cursor.open();
                self.push(Frame::While(pos), 0, depth)?;
                Ok(Mode::Operand(1))
            }
            Start::Repeat => {
                self.cursor.open();
                self.enter(BlockOf::Repeat(pos), depth)
            }
            Start::If => {
                self.cursor.open();
                let none = Stack::new(self.alloc);
                self.push(Frame::Condition(pos, none), 0, depth)?;
                Ok(Mode::Operand(1))
            }
            Start::For => {
                self.cursor.open();
                self.for_loop(pos, depth)
            }
            Start::Function => self.function_stat(pos),
            Start::Local => self.local(pos),
        }
    }

    /// Reads the `return` of a block.
    fn result(&mut self) -> Result<Mode, Stop>
        requires { head_opener self.old.cursor ≡ openers.Return }
        ensures { Goes self.old mode.Block result self.new }
    {
        let pos = self.cursor.pos();
        self.cursor.pass()?;
        self.values(pos)
    }

    /// Reads what stands behind `return`.
    fn values(&mut self, pos: Pos) -> Result<Mode, Stop>
        ensures { GoesBy (read (Item.return_values self.old.uses) (on_return self.old pos)) (weight self.old (mode.Operand 0) + 3) self.old result self.new }
    {
        if self.cursor.starts_expr() {
            return self.list(ListOf::Returned(pos));
        }
        if self.cursor.is_over() {
            return Err(Stop::Unexpected);
        }
        let none = List::new(self.alloc);
        self.end_return(pos, none)
    }

    /// Reads the parenthesis that a statement begins with.
    fn enclosed(&mut self) -> Result<Mode, Stop>
        requires { head_opener self.old.cursor ≡ openers.OpenParen }
        ensures { Goes self.old mode.Block result self.new }
    {
        if self.takes_call {
            return Err(Stop::Unexpected);
        }
        let pos = self.cursor.pos();
        let depth = self.cursor.depth();
        self.cursor.pass()?;
        self.cursor.open();
        self.push(Frame::Paren(Within::Statement, pos), 0, depth)?;
        Ok(Mode::Operand(1))
    }

    /// Reads the name that a statement begins with.
    fn name_stat(&mut self) -> Result<Mode, Stop>
        requires { head_opener self.old.cursor ≡ openers.Name }
        ensures { Goes self.old mode.Block result self.new }
    {
        let alloc = self.alloc;
        let name = self.cursor.need_name(alloc)?;
        self.behind_name(name)
    }

    /// Reads what stands behind a name that a statement begins with.
    fn behind_name(&mut self, name: Name) -> Result<Mode, Stop>
        ensures { GoesBy (read (Item.behind_name (is_outermost self.old.outer) name self.old.uses) (on_stat self.old)) (weight self.old (mode.Operand 0) + 8) self.old result self.new }
    {
        if self.at_type_stat() {
            return self.type_stat(name);
        }
        if self.cursor.is_over() {
            return Err(Stop::Unexpected);
        }
        let number = self.number()?;
        self.cursor.leaf();
        Ok(Mode::Prefix(
            Within::Statement,
            Form::Target,
            Expr::Name(name.pos, number, name.text),
        ))
    }

    /// Whether a name stands where the name of a type would, behind a statement's first word.
    fn at_type_stat(&self) -> bool
        ensures { result ≡ is_type_stat self.now }
    {
        self.outer.is_empty() && self.kind == ModuleKind::Typed && self.cursor.is_name()
    }

    /// Reads a statement that declares a type, behind its first word.
    fn type_stat(&mut self, first: Name) -> Result<Mode, Stop>
        requires { is_type_stat self.old ≡ true }
        ensures { GoesBy (read (Item.behind_name (is_outermost self.old.outer) first self.old.uses) (on_stat self.old)) (weight self.old (mode.Operand 0) + 8) self.old result self.new }
    {
        let alloc = self.alloc;
        if first.text.as_slice() == b"interface".as_slice() {
            let name = self.cursor.need_name(alloc)?;
            return self.interface(first.pos, name);
        }
        if first.text.as_slice() == b"typealias".as_slice() {
            let name = self.cursor.need_name(alloc)?;
            return self.alias(first.pos, name);
        }
        Err(Stop::Unexpected)
    }

    /// Reads an interface behind its name.
    fn interface(&mut self, pos: Pos, name: Name) -> Result<Mode, Stop>
        ensures { GoesBy (read Item.fields_of_interface (λ fs. on_stat self.old (stat.Interface pos name fs, self.old.uses, true))) (weight self.old (mode.Operand 0) + 8) self.old result self.new }
    {
        let depth = self.cursor.depth();
        let fields = fields_of_interface(self.alloc, depth, &mut self.cursor)?;
        self.takes_call = true;
        Ok(Mode::Statement(Stat::Interface(pos, name, fields)))
    }

    /// Reads an alias behind its name.
    fn alias(&mut self, pos: Pos, name: Name) -> Result<Mode, Stop>
        ensures { GoesBy (want (sign s.Assign) (λ _. read Item.a_type (λ a. on_stat self.old (stat.Alias pos name a, self.old.uses, true)))) (weight self.old (mode.Operand 0) + 8) self.old result self.new }
    {
        self.cursor.need(Symbol::Assign)?;
        let depth = self.cursor.depth();
        let ty = a_type(self.alloc, depth, &mut self.cursor)?;
        self.takes_call = true;
        Ok(Mode::Statement(Stat::Alias(pos, name, ty)))
    }

    /// Adds a whole statement to its block.
    pub(crate) fn statement(&mut self, stat: Stat) -> Result<Mode, Stop>
        ensures { Goes self.old (mode.Statement stat) result self.new }
    {
        self.stats.push(stat)?;
        Ok(Mode::Block)
    }
}
