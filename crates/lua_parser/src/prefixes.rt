ghost use Rattle.std.specs.Prelude.{◌≡◌, ◌+◌, ◌<◌, ◌∷◌, [], true, length, IfOk};
ghost use Rattle.lua_parser.specs.Machine.Plan.{Item, read};
ghost use Rattle.lua_parser.specs.Stacks.{Goes, GoesBy, NoSuffix, onto, call_of, called, listed, assignment, prefixed, on_stat, on_return, on_expr, weight};
ghost use Rattle.lua_parser.specs.Outcomes.{head_suffix, begins_arguments};
ghost use Rattle.lua_parser.specs.declared.reader.Form as declared_form;
ghost use Rattle.lua_parser.specs.declared.reader.Form.TheVariants as form;
ghost use Rattle.lua_parser.specs.declared.reader.Within.TheVariants as within;
ghost use Rattle.lua_parser.specs.declared.reader.Mode.TheVariants as mode;
ghost use Rattle.lua_parser.specs.declared.starters.Suffix.TheVariants as suffixes;

use crate::cursor::Stop;
use crate::expressions::UNARY_LEVEL;
use crate::reader::{Called, Form, Frame, ListOf, Mode, Reader, Table, TableOf, Within, place};
use crate::stack::Stack;
use crate::starters::Suffix;
use lua_lexer::Symbol;
use lua_tree::{Expr, Name, Stat};
use std::alloc::Global;
use tl_base::{Boxed, List, NoMemory};

/// The call of what is called with these arguments.
pub(crate) fn call_of(alloc: Global, of: Called, values: List<Expr>) -> Result<Mode, NoMemory>
    ensures { IfOk result (λ m. m ≡ mode.Prefix of.within form.Called (call_of of.callee of.method values)) }
{
    let Called {
        within,
        callee,
        method,
        height: _,
    } = of;
    let expr = call(alloc, callee, method, values)?;
    Ok(Mode::Prefix(within, Form::Called, expr))
}

/// The call of a value, or of a method of it.
fn call(
    alloc: Global,
    callee: Expr,
    method: Option<Name>,
    values: List<Expr>,
) -> Result<Expr, NoMemory>
    ensures { IfOk result (λ x. x ≡ call_of callee method values) }
{
    let pos = place(&callee);
    let inner = Boxed::new(alloc, callee)?;
    match method {
        Some(name) => Ok(Expr::Method(pos, inner, name, values)),
        None => Ok(Expr::Call(pos, inner, values)),
    }
}

impl<'a> Reader<'a> {
    /// Reads the next part of a prefix, or what it becomes.
    pub(crate) fn prefix(&mut self, within: Within, form: Form, expr: Expr) -> Result<Mode, Stop>
        requires { 0 < length self.old.cursor }
        ensures { Goes self.old (mode.Prefix within form expr) result self.new }
    {
        match self.cursor.suffix() {
            Suffix::Dot => self.field(within, expr),
            Suffix::OpenBracket => self.index(within, expr),
            Suffix::Colon => self.method(within, expr),
            Suffix::OpenParen => self.call(within, expr),
            Suffix::OpenBrace => self.call(within, expr),
            Suffix::Text => self.call(within, expr),
            Suffix::Other => self.past_prefix(within, form, expr),
        }
    }

    /// Reads `.name`.
    fn field(&mut self, within: Within, expr: Expr) -> Result<Mode, Stop>
        requires { head_suffix self.old.cursor ≡ suffixes.Dot }
        ensures { (f : declared_form.Form) → Goes self.old (mode.Prefix within f expr) result self.new }
    {
        self.cursor.pass()?;
        let alloc = self.alloc;
        let name = self.cursor.need_name(alloc)?;
        self.cursor.grow(0)?;
        let pos = place(&expr);
        let inner = Boxed::new(alloc, expr)?;
        Ok(Mode::Prefix(within, Form::Target, Expr::Field(pos, inner, name)))
    }

    /// Reads the bracket of `[key]`.
    #[tactic(auto, using(crate::proofs::Goings::index_goes, crate::proofs::Goings::bracket_begins))]
    fn index(&mut self, within: Within, expr: Expr) -> Result<Mode, Stop>
        requires { head_suffix self.old.cursor ≡ suffixes.OpenBracket }
        ensures { (f : declared_form.Form) → Goes self.old (mode.Prefix within f expr) result self.new }
    {
        let depth = self.cursor.depth();
        let height = self.cursor.height();
        self.cursor.pass()?;
        self.cursor.open();
        self.push(Frame::Index(within, expr), height, depth)?;
        Ok(Mode::Operand(1))
    }

    /// Reads what begins the arguments of a call.
    #[tactic(auto, using(crate::proofs::Goings::call_goes))]
    fn call(&mut self, within: Within, expr: Expr) -> Result<Mode, Stop>
        requires { begins_arguments (head_suffix self.old.cursor) ≡ true }
        ensures { (f : declared_form.Form) → Goes self.old (mode.Prefix within f expr) result self.new }
    {
        let height = self.cursor.height();
        self.arguments(Called {
            within,
            callee: expr,
            method: None,
            height,
        })
    }

    /// Reads `:name` and what begins its arguments.
    fn method(&mut self, within: Within, expr: Expr) -> Result<Mode, Stop>
        requires { head_suffix self.old.cursor ≡ suffixes.Colon }
        ensures { (f : declared_form.Form) → Goes self.old (mode.Prefix within f expr) result self.new }
    {
        let height = self.cursor.height();
        self.cursor.pass()?;
        let alloc = self.alloc;
        let name = self.cursor.need_name(alloc)?;
        self.arguments(Called {
            within,
            callee: expr,
            method: Some(name),
            height,
        })
    }

    /// Reads what begins arguments.
    fn arguments(&mut self, of: Called) -> Result<Mode, Stop>
        ensures { GoesBy (read (Item.some_arguments self.old.uses) (λ es. called of (on_stat self.old) (on_expr self.old) es.0 es.1)) (weight self.old (mode.Operand 0)) self.old result self.new }
    {
        let depth = self.cursor.depth();
        let pos = self.cursor.pos();
        let alloc = self.alloc;
        if self.cursor.take(Symbol::OpenParen)? {
            self.cursor.open();
            return self.first_argument(of, depth);
        }
        if self.cursor.take(Symbol::OpenBrace)? {
            self.cursor.open();
            let height = of.height;
            return Ok(Mode::Entries(Table {
                of: TableOf::Argument(of),
                pos,
                entries: Stack::new(alloc),
                height,
                depth,
            }));
        }
        let Some(text) = self.cursor.take_text(alloc)? else {
            return Err(Stop::Unexpected);
        };
        self.cursor.leaf();
        self.cursor.grow(of.height)?;
        let mut values = List::new(alloc);
        values.push(Expr::Str(pos, text))?;
        Ok(call_of(alloc, of, values)?)
    }

    /// Reads the parenthesis that ends the arguments, or begins their list.
    fn first_argument(&mut self, of: Called, depth: u32) -> Result<Mode, Stop>
        ensures { GoesBy (read (Item.rest_of_arguments self.old.uses) (λ es. called of (on_stat self.old) (on_expr self.old) es.0 es.1)) (weight self.old (mode.Operand 0) + 3) self.old result self.new }
    {
        let alloc = self.alloc;
        let height = of.height;
        if self.cursor.take(Symbol::CloseParen)? {
            self.cursor.close(depth);
            self.cursor.leaf();
            self.cursor.grow(height)?;
            return Ok(call_of(alloc, of, List::new(alloc))?);
        }
        self.push(
            Frame::Listed(ListOf::Arguments(of), Stack::new(alloc)),
            height,
            depth,
        )?;
        Ok(Mode::Operand(1))
    }

    /// What a prefix becomes that is read to its end.
    fn past_prefix(&mut self, within: Within, form: Form, expr: Expr) -> Result<Mode, Stop>
        requires { NoSuffix self.old.cursor }
        ensures { Goes self.old (mode.Prefix within form expr) result self.new }
    {
        match within {
            Within::Expression(least) => {
                self.takes_call = true;
                Ok(Mode::Operation(least, UNARY_LEVEL, expr))
            }
            Within::Statement => self.past_first(form, expr),
            Within::Targets(targets) => match form {
                Form::Target => self.past_target(targets, expr),
                Form::Called | Form::Enclosed => Err(Stop::Unexpected),
            },
        }
    }

    /// What the first prefix of a statement becomes.
    fn past_first(&mut self, form: Form, expr: Expr) -> Result<Mode, Stop>
        requires { NoSuffix self.old.cursor }
        ensures { Goes self.old (mode.Prefix within.Statement form expr) result self.new }
    {
        match form {
            Form::Called => {
                self.takes_call = true;
                Ok(Mode::Statement(Stat::Call(place(&expr), expr)))
            }
            Form::Target => {
                let none = Stack::new(self.alloc);
                self.past_target(none, expr)
            }
            Form::Enclosed => Err(Stop::Unexpected),
        }
    }

    /// Reads what stands behind a target of an assignment.
    fn past_target(&mut self, targets: Stack<Expr>, expr: Expr) -> Result<Mode, Stop>
        requires { NoSuffix self.old.cursor }
        ensures { Goes self.old (mode.Prefix (within.Targets targets) form.Target expr) result self.new }
    {
        let mut all = targets;
        all.push(expr)?;
        if self.cursor.take(Symbol::Assign)? {
            return self.list(ListOf::Assigned(all));
        }
        if self.cursor.take(Symbol::Comma)? {
            return self.next_target(all);
        }
        Err(Stop::Unexpected)
    }

    /// Reads what begins the next target of an assignment.
    fn next_target(&mut self, targets: Stack<Expr>) -> Result<Mode, Stop>
        ensures { GoesBy (read (Item.next_target self.old.uses) (λ r. on_stat self.old (assignment (onto targets (r.0 ∷ r.1)) r.2, r.3, r.4))) (weight self.old (mode.Operand 0)) self.old result self.new }
    {
        let pos = self.cursor.pos();
        let depth = self.cursor.depth();
        if self.cursor.take(Symbol::OpenParen)? {
            self.cursor.open();
            self.push(Frame::Paren(Within::Targets(targets), pos), 0, depth)?;
            return Ok(Mode::Operand(1));
        }
        let alloc = self.alloc;
        let name = self.cursor.need_name(alloc)?;
        let number = self.number()?;
        self.cursor.leaf();
        Ok(Mode::Prefix(
            Within::Targets(targets),
            Form::Target,
            Expr::Name(name.pos, number, name.text),
        ))
    }

    /// Begins a list of expressions.
    pub(crate) fn list(&mut self, of: ListOf) -> Result<Mode, Stop>
        ensures { GoesBy (read (Item.exprs self.old.uses) (listed of (on_stat self.old) (on_return self.old) (on_expr self.old))) (weight self.old (mode.Operand 0) + 3) self.old result self.new }
    {
        let depth = self.cursor.depth();
        let none = Stack::new(self.alloc);
        self.push(Frame::Listed(of, none), 0, depth)?;
        Ok(Mode::Operand(1))
    }
}
