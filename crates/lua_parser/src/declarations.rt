ghost use Rattle.std.specs.Prelude.{◌≡◌, ◌+◌, ◌<◌, [], ◌∷◌, length};
ghost use Rattle.lua_parser.specs.Machine.Plan.{Item, want_name, read};
ghost use Rattle.lua_parser.specs.Stacks.{Goes, GoesBy, begun_stat, bodied, signed, local_of, stat_of, iterated, ReadsTyped, ReadsAnnotation, rest_plan, param_plan, more_params_plan, onto, on_stat, on_expr, weight};
ghost use Rattle.lua_parser.specs.declared.starters.Start.TheVariants as starts;
ghost use Rattle.lua_parser.specs.declared.reader.Mode.TheVariants as mode;

use crate::annotations::{annotation, outcome};
use crate::cursor::Stop;
use crate::reader::{BlockOf, BodyOf, Frame, Header, ListOf, Mode, Reader, Signature, place};
use crate::stack::Stack;
use lua_lexer::{Keyword, Symbol};
use lua_tree::{Expr, Name, Rest, Stat, TypeExpr, Typed};
use tl_base::{Boxed, List, Pos};

impl<'a> Reader<'a> {
    /// Reads on behind `for`.
    pub(crate) fn for_loop(&mut self, pos: Pos, depth: u32) -> Result<Mode, Stop>
        ensures { GoesBy (begun_stat self.old starts.For pos) (weight self.old (mode.Operand 0) + 8) self.old result self.new }
    {
        let alloc = self.alloc;
        let name = self.cursor.need_name(alloc)?;
        if self.cursor.take(Symbol::Assign)? {
            self.push(Frame::First(pos, name), 0, depth)?;
            return Ok(Mode::Operand(1));
        }
        let mut names = Stack::new(alloc);
        names.push(name)?;
        if self.cursor.take(Symbol::Comma)? {
            let next = self.cursor.need_name(alloc)?;
            names.push(next)?;
            return Ok(Mode::Names(pos, names, depth));
        }
        self.cursor.need_word(Keyword::In)?;
        self.iterated(pos, names, depth)
    }

    /// Reads what stands behind names of a `for`.
    pub(crate) fn names(&mut self, pos: Pos, names: Stack<Name>, depth: u32) -> Result<Mode, Stop>
        requires { 0 < length self.old.cursor }
        ensures { Goes self.old (mode.Names pos names depth) result self.new }
    {
        let alloc = self.alloc;
        if self.cursor.take(Symbol::Comma)? {
            let next = self.cursor.need_name(alloc)?;
            let mut all = names;
            all.push(next)?;
            return Ok(Mode::Names(pos, all, depth));
        }
        self.cursor.need_word(Keyword::In)?;
        self.iterated(pos, names, depth)
    }

    /// Begins the values of a `for` behind its `in`.
    fn iterated(&mut self, pos: Pos, names: Stack<Name>, depth: u32) -> Result<Mode, Stop>
        ensures { GoesBy (iterated pos (onto names []) self.old.uses (on_stat self.old) (on_expr self.old)) (weight self.old (mode.Operand 0) + 3) self.old result self.new }
    {
        let none = Stack::new(self.alloc);
        self.push(Frame::Listed(ListOf::Iterated(pos, names), none), 0, depth)?;
        Ok(Mode::Operand(1))
    }

    /// Reads on behind `function` where a statement begins.
    pub(crate) fn function_stat(&mut self, pos: Pos) -> Result<Mode, Stop>
        ensures { GoesBy (begun_stat self.old starts.Function pos) (weight self.old (mode.Operand 0) + 8) self.old result self.new }
    {
        let alloc = self.alloc;
        let name = self.cursor.need_name(alloc)?;
        let number = self.number()?;
        self.cursor.leaf();
        Ok(Mode::Path(pos, Expr::Name(name.pos, number, name.text)))
    }

    /// Reads what stands behind a part of what a function statement declares.
    pub(crate) fn path(&mut self, pos: Pos, target: Expr) -> Result<Mode, Stop>
        ensures { Goes self.old (mode.Path pos target) result self.new }
    {
        let alloc = self.alloc;
        if self.cursor.take(Symbol::Dot)? {
            let name = self.cursor.need_name(alloc)?;
            self.cursor.grow(0)?;
            let first = place(&target);
            let inner = Boxed::new(alloc, target)?;
            return Ok(Mode::Path(pos, Expr::Field(first, inner, name)));
        }
        if self.cursor.take(Symbol::Colon)? {
            let name = self.cursor.need_name(alloc)?;
            return self.body(BodyOf::Method(pos, target, name));
        }
        self.body(BodyOf::Function(pos, target))
    }

    /// Reads the parenthesis that a body begins with.
    pub(crate) fn body(&mut self, of: BodyOf) -> Result<Mode, Stop>
        ensures { GoesBy (read (Item.a_body self.old.uses) (bodied of (on_stat self.old) (on_expr self.old))) (weight self.old (mode.Operand 0)) self.old result self.new }
    {
        let depth = self.cursor.depth();
        let params = Stack::new(self.alloc);
        self.cursor.need(Symbol::OpenParen)?;
        self.cursor.open();
        self.cursor.open();
        Ok(Mode::Params(Header { of, params, depth }, true))
    }

    /// Reads a parameter, or the end of the parameters where that may be.
    pub(crate) fn params(&mut self, header: Header, may_end: bool) -> Result<Mode, Stop>
        ensures { Goes self.old (mode.Params header may_end) result self.new }
    {
        if may_end && self.cursor.at(Symbol::CloseParen) {
            self.cursor.need(Symbol::CloseParen)?;
            return self.signed(header, None);
        }
        let pos = self.cursor.pos();
        if self.cursor.take(Symbol::Dots)? {
            return self.rest(header, pos);
        }
        self.param(header)
    }

    /// Reads what stands behind the `...` of parameters.
    fn rest(&mut self, header: Header, pos: Pos) -> Result<Mode, Stop>
        ensures { GoesBy (rest_plan header pos self.old) (weight self.old (mode.Operand 0)) self.old result self.new }
    {
        let ty = self.annotation()?;
        self.cursor.need(Symbol::CloseParen)?;
        self.signed(header, Some(Rest { pos, ty }))
    }

    /// Reads a parameter and what stands behind it.
    fn param(&mut self, header: Header) -> Result<Mode, Stop>
        ensures { GoesBy (param_plan header self.old) (weight self.old (mode.Operand 0)) self.old result self.new }
    {
        let typed = self.typed()?;
        let mut all = header;
        all.params.push(typed)?;
        self.more_params(all)
    }

    /// Reads what stands behind a parameter.
    fn more_params(&mut self, header: Header) -> Result<Mode, Stop>
        ensures { GoesBy (more_params_plan header self.old) (weight self.old (mode.Operand 0)) self.old result self.new }
    {
        if self.cursor.take(Symbol::Comma)? {
            return Ok(Mode::Params(header, false));
        }
        self.cursor.need(Symbol::CloseParen)?;
        self.signed(header, None)
    }

    /// Begins the block of a body behind its parameters.
    fn signed(&mut self, header: Header, rest: Option<Rest>) -> Result<Mode, Stop>
        ensures { GoesBy (signed header.of self.old.uses (on_stat self.old) (on_expr self.old) (onto header.params [], rest)) (weight self.old (mode.Operand 0) + 2) self.old result self.new }
    {
        let Header { of, params, depth } = header;
        self.cursor.close(depth);
        self.cursor.open();
        let inside = self.cursor.depth();
        let results = outcome(self.alloc, self.kind, inside, &mut self.cursor)?;
        let signature = Signature {
            params: params.into_list(),
            rest,
            results,
        };
        self.enter(BlockOf::Body(of, signature), depth)
    }

    /// Reads a name and its annotation.
    fn typed(&mut self) -> Result<Typed, Stop>
        ensures { ReadsTyped self.old result self.new }
    {
        let alloc = self.alloc;
        let name = self.cursor.need_name(alloc)?;
        let ty = self.annotation()?;
        Ok(Typed { name, ty })
    }

    /// Reads an annotation, if there is one.
    fn annotation(&mut self) -> Result<Option<TypeExpr>, Stop>
        ensures { ReadsAnnotation self.old result self.new }
    {
        let depth = self.cursor.depth();
        annotation(self.alloc, self.kind, depth, &mut self.cursor)
    }

    /// Reads on behind `local`.
    pub(crate) fn local(&mut self, pos: Pos) -> Result<Mode, Stop>
        ensures { GoesBy (begun_stat self.old starts.Local pos) (weight self.old (mode.Operand 0) + 8) self.old result self.new }
    {
        let alloc = self.alloc;
        if self.cursor.take_word(Keyword::Function)? {
            let name = self.cursor.need_name(alloc)?;
            return self.body(BodyOf::Local(pos, name));
        }
        let typed = self.typed()?;
        let mut names = Stack::new(alloc);
        names.push(typed)?;
        Ok(Mode::Locals(pos, names))
    }

    /// Reads what stands behind names of a `local`.
    pub(crate) fn locals(&mut self, pos: Pos, names: Stack<Typed>) -> Result<Mode, Stop>
        requires { 0 < length self.old.cursor }
        ensures { Goes self.old (mode.Locals pos names) result self.new }
    {
        if self.cursor.take(Symbol::Comma)? {
            let typed = self.typed()?;
            let mut all = names;
            all.push(typed)?;
            return Ok(Mode::Locals(pos, all));
        }
        if self.cursor.take(Symbol::Assign)? {
            return self.list(ListOf::Locals(pos, names));
        }
        self.takes_call = false;
        Ok(Mode::Statement(Stat::Local(pos, names.into_list(), List::new(self.alloc))))
    }
}
