ghost use Rattle.std.specs.Prelude.{◌≡◌, ◌<◌, ◌∷◌, length, OnOk, IfOk, Some, None};
ghost use Rattle.lua_tree.specs.declared.syntax.Expr.TheVariants as e;
ghost use Rattle.lua_parser.specs.Grammar.Syntax.{place};
ghost use Rattle.lua_parser.specs.Stacks.{Goes, IsConstant, Pushes, Numbers};
ghost use Rattle.lua_parser.specs.Outcomes.{head_starter};
ghost use Rattle.lua_parser.specs.declared.reader.Mode.TheVariants as mode;
ghost use Rattle.lua_parser.specs.declared.starters.Starter.TheVariants as starts;

use crate::cursor::Stop;
use crate::operators::{left_level, level, right_level};
use crate::reader::{BodyOf, Form, Frame, Held, Mode, Reader, Table, TableOf, Within, place};
use crate::stack::Stack;
use crate::starters::Starter;
use lua_tree::{BinaryOperator, Expr, UnaryOperator};
use std::alloc::Global;
use tl_base::{Boxed, NoMemory};

/// The level of the operand of a unary operator.
pub(crate) const UNARY_LEVEL: u8 = 11;

/// The operation of two operands.
pub(crate) fn binary(
    alloc: Global,
    operator: BinaryOperator,
    left: Expr,
    right: Expr,
) -> Result<Expr, NoMemory>
    ensures { IfOk result (λ x. x ≡ e.Binary (place left) operator left right) }
{
    let pos = place(&left);
    Ok(Expr::Binary(
        pos,
        operator,
        Boxed::new(alloc, left)?,
        Boxed::new(alloc, right)?,
    ))
}

impl<'a> Reader<'a> {
    /// Reads the first part of an expression of at least this level.
    pub(crate) fn operand(&mut self, least: u8) -> Result<Mode, Stop>
        ensures { Goes self.old (mode.Operand least) result self.new }
    {
        let pos = self.cursor.pos();
        match self.cursor.starter() {
            Starter::Nil => self.constant(least, Expr::Nil(pos)),
            Starter::False => self.constant(least, Expr::Bool(pos, false)),
            Starter::True => self.constant(least, Expr::Bool(pos, true)),
            Starter::Dots => self.constant(least, Expr::Vararg(pos)),
            Starter::Int(number) => self.constant(least, Expr::Int(pos, number)),
            Starter::Text => self.quoted(least),
            Starter::Name => self.named(least),
            Starter::Function => self.function(least),
            Starter::OpenParen => self.parenthesis(least),
            Starter::OpenBrace => self.table(least),
            Starter::Unary(operator) => self.unary(least, operator),
            Starter::Other => Err(Stop::Unexpected),
        }
    }

    /// Takes the token that is this operand.
    fn constant(&mut self, least: u8, expr: Expr) -> Result<Mode, Stop>
        requires { IsConstant self.old.uses expr self.old.cursor }
        ensures { Goes self.old (mode.Operand least) result self.new }
    {
        self.cursor.pass()?;
        self.cursor.leaf();
        self.takes_call = false;
        Ok(Mode::Operation(least, UNARY_LEVEL, expr))
    }

    /// Takes the string that is the operand.
    fn quoted(&mut self, least: u8) -> Result<Mode, Stop>
        requires { head_starter self.old.cursor ≡ starts.Text }
        ensures { Goes self.old (mode.Operand least) result self.new }
    {
        let pos = self.cursor.pos();
        let alloc = self.alloc;
        let Some(text) = self.cursor.take_text(alloc)? else {
            return Err(Stop::Unexpected);
        };
        self.cursor.leaf();
        self.takes_call = false;
        Ok(Mode::Operation(least, UNARY_LEVEL, Expr::Str(pos, text)))
    }

    /// Takes the name that the operand begins with.
    fn named(&mut self, least: u8) -> Result<Mode, Stop>
        requires { head_starter self.old.cursor ≡ starts.Name }
        ensures { Goes self.old (mode.Operand least) result self.new }
    {
        let alloc = self.alloc;
        let name = self.cursor.need_name(alloc)?;
        let number = self.number()?;
        self.cursor.leaf();
        Ok(Mode::Prefix(
            Within::Expression(least),
            Form::Target,
            Expr::Name(name.pos, number, name.text),
        ))
    }

    /// Takes the operator before an operand.
    fn unary(&mut self, least: u8, operator: UnaryOperator) -> Result<Mode, Stop>
        requires { head_starter self.old.cursor ≡ starts.Unary operator }
        ensures { Goes self.old (mode.Operand least) result self.new }
    {
        let pos = self.cursor.pos();
        let depth = self.cursor.depth();
        self.cursor.pass()?;
        self.cursor.open();
        self.push(Frame::Unary(least, pos, operator), 0, depth)?;
        Ok(Mode::Operand(UNARY_LEVEL))
    }

    /// Takes the `function` that the operand begins with.
    fn function(&mut self, least: u8) -> Result<Mode, Stop>
        requires { head_starter self.old.cursor ≡ starts.Function }
        ensures { Goes self.old (mode.Operand least) result self.new }
    {
        let pos = self.cursor.pos();
        self.cursor.pass()?;
        self.body(BodyOf::Operand(least, pos))
    }

    /// Takes the parenthesis that the operand begins with.
    #[tactic(auto, using(crate::proofs::Goings::paren_goes, crate::proofs::Goings::paren_begins))]
    fn parenthesis(&mut self, least: u8) -> Result<Mode, Stop>
        requires { head_starter self.old.cursor ≡ starts.OpenParen }
        ensures { Goes self.old (mode.Operand least) result self.new }
    {
        let pos = self.cursor.pos();
        let depth = self.cursor.depth();
        self.cursor.pass()?;
        self.cursor.open();
        self.push(Frame::Paren(Within::Expression(least), pos), 0, depth)?;
        Ok(Mode::Operand(1))
    }

    /// Takes the brace that the operand begins with.
    fn table(&mut self, least: u8) -> Result<Mode, Stop>
        requires { head_starter self.old.cursor ≡ starts.OpenBrace }
        ensures { Goes self.old (mode.Operand least) result self.new }
    {
        let pos = self.cursor.pos();
        let depth = self.cursor.depth();
        self.cursor.pass()?;
        self.cursor.open();
        Ok(Mode::Entries(Table {
            of: TableOf::Operand(least),
            pos,
            entries: Stack::new(self.alloc),
            height: 0,
            depth,
        }))
    }

    /// Reads the operator behind an operand, if it binds at least so tightly.
    pub(crate) fn operation(&mut self, least: u8, most: u8, left: Expr) -> Result<Mode, Stop>
        requires { 0 < length self.old.cursor }
        ensures { Goes self.old (mode.Operation least most left) result self.new }
    {
        let Some(operator) = self.cursor.binary() else {
            return Ok(Mode::Value(left));
        };
        if level(operator) < least {
            return Ok(Mode::Value(left));
        }
        if left_level(operator) > most {
            return Err(Stop::Unexpected);
        }
        let depth = self.cursor.depth();
        let height = self.cursor.height();
        self.cursor.pass()?;
        self.cursor.begin();
        self.push(Frame::Right(least, operator, left), height, depth)?;
        Ok(Mode::Operand(right_level(operator)))
    }

    /// Gives the next use of a name its number.
    pub(crate) fn number(&mut self) -> Result<u32, Stop>
        ensures { Numbers self.old result self.new }
    {
        let number = self.uses;
        if number == u32::MAX {
            return Err(Stop::NoMemory);
        }
        self.uses = number + 1;
        Ok(number)
    }

    /// Puts away what the next expression is for.
    pub(crate) fn push(&mut self, frame: Frame, height: u32, depth: u32) -> Result<(), Stop>
        ensures { Pushes frame height depth self.old result self.new }
    {
        self.frames.push(Held {
            frame,
            height,
            depth,
        })?;
        Ok(())
    }
}
