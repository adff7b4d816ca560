ghost use Rattle.std.specs.Prelude.{◌≡◌, ◌+◌, OnOk, IfOk};
ghost use Rattle.lua_tree.specs.View.{exp_of, exps_of, function_of, block_of};
ghost use Rattle.lua_code.specs.Generated.{truth_instr as truth_instr_of, field_instr as field_instr_in, store_instr as store_instr_in};
ghost use Rattle.lua_code.specs.declared.code.Instr.TheVariants as instr;
ghost use Rattle.lua_code.specs.Sizes.{function_inner};
ghost use Rattle.code_gen.specs.Work.{is_open, with_values, with_exp, with_list, with_function, with_body, base};

use crate::functions::Header;
use crate::locals::{all_entry_locals, all_locals, exp_locals};
use crate::operators::unary_instr;
use crate::scope::Scope;
use crate::sizes::block_size;
use crate::slots::{block_slots, operator_slots};
use crate::sums::sum;
use crate::writer::Writer;
use lua_code::Instr;
use lua_tree::{Block, Body, Expr, Use};
use tl_base::{NoMemory, Pos};

/// The instruction that gives a field: one of the library, where it is one.
fn field_instr(scope: &Scope<'_>, object: &Expr) -> Instr
    ensures { result ≡ field_instr_in (exp_of object.now) scope.now }
{
    match object {
        Expr::Name(_, number, _) => match scope.use_in(*number) {
            Some(Use::Lib(name)) => Instr::Lib(name),
            Some(Use::Local(_)) | None => Instr::Nil,
        },
        Expr::Mark(_, inner) => field_instr(scope, inner.get()),
        _ => Instr::Nil,
    }
}

/// The instruction that stores into a target.
fn store_instr(scope: &Scope<'_>, target: &Expr) -> Instr
    ensures { result ≡ store_instr_in (exp_of target.now) scope.now }
{
    match target {
        Expr::Name(_, number, _) => scope.write(*number),
        Expr::Mark(_, inner) => store_instr(scope, inner.get()),
        _ => Instr::Pop,
    }
}

fn int_instr(number: &i64) -> Instr
    ensures { result ≡ instr.Int number.now }
{
    Instr::Int(*number)
}

fn truth_instr(truth: bool) -> Instr
    ensures { result ≡ truth_instr_of truth }
{
    if truth { Instr::True } else { Instr::False }
}

impl<'a> Writer<'a> {
    /// The instruction that gives a field of this object.
    fn field(&self, object: &Expr) -> Instr
        ensures { result ≡ field_instr_in (exp_of object.now) self.now.scope }
    {
        field_instr(&self.scope, object)
    }

    /// The instruction that stores into this target.
    pub fn store(&self, target: &Expr) -> Instr
        ensures { result ≡ store_instr_in (exp_of target.now) self.now.scope }
    {
        store_instr(&self.scope, target)
    }

    /// All the values of an expression, where it can give any number of them, else the one. Says which.
    #[cycle(writing)]
    pub fn values(&mut self, e: &Expr) -> Result<bool, NoMemory>
        ensures code { OnOk result (self.new ≡ with_values (exp_of e.now) self.old) }
        ensures many { IfOk result (λ many. many ≡ is_open (exp_of e.now)) }
    {
        match e {
            Expr::Nil(pos) => {
                self.put(Instr::Nil, *pos)?;
                Ok(false)
            }
            Expr::Bool(pos, truth) => {
                self.put(truth_instr(*truth), *pos)?;
                Ok(false)
            }
            Expr::Int(pos, number) => {
                self.put(int_instr(number), *pos)?;
                Ok(false)
            }
            Expr::Str(pos, text) => {
                let copy = self.copy_of(text)?;
                self.put(Instr::Str(copy), *pos)?;
                Ok(false)
            }
            Expr::Vararg(pos) => {
                self.put(Instr::Rest, *pos)?;
                Ok(true)
            }
            Expr::Function(pos, body) => {
                let number = self.function(*pos, body.get())?;
                self.put(Instr::Closure(number), *pos)?;
                Ok(false)
            }
            Expr::Name(pos, number, _) => {
                let instr = self.read(*number);
                self.put(instr, *pos)?;
                Ok(false)
            }
            Expr::Paren(_, inner) => {
                self.exp(inner.get())?;
                Ok(false)
            }
            Expr::Field(pos, object, _) => {
                let instr = self.field(object.get());
                self.skip(exp_locals(object.get())?)?;
                self.put(instr, *pos)?;
                Ok(false)
            }
            Expr::Index(pos, object, key) => {
                self.skip(sum(exp_locals(object.get())?, exp_locals(key.get())?)?)?;
                self.put(Instr::Nil, *pos)?;
                Ok(false)
            }
            Expr::Call(pos, callee, arguments) => {
                self.exp(callee.get())?;
                self.list(*pos, arguments.as_slice())?;
                self.put(Instr::Call, *pos)?;
                Ok(true)
            }
            Expr::Method(pos, object, _, arguments) => {
                let count = sum(exp_locals(object.get())?, all_locals(arguments.as_slice())?)?;
                self.skip(count)?;
                self.put(Instr::Pack(0), *pos)?;
                Ok(true)
            }
            Expr::Table(pos, entries) => {
                self.skip(all_entry_locals(entries.as_slice())?)?;
                self.put(Instr::Nil, *pos)?;
                Ok(false)
            }
            Expr::Unary(pos, operator, operand) => {
                self.exp(operand.get())?;
                self.put(unary_instr(*operator), *pos)?;
                Ok(false)
            }
            Expr::Binary(pos, operator, left, right) => {
                let slot = self.free();
                self.exp(left.get())?;
                let place = self.place();
                self.between(*operator, *pos, slot)?;
                self.set_free(sum(slot, operator_slots(*operator))?);
                self.exp(right.get())?;
                self.settle(*operator, *pos, place);
                self.set_free(slot);
                self.behind(*operator, *pos, slot)?;
                Ok(false)
            }
            Expr::Mark(kind, inner) => {
                let open = self.values(inner.get())?;
                let pos = inner.get().pos();
                self.put(Instr::Mark(*kind, pos.line, pos.column), pos)?;
                Ok(open)
            }
        }
    }

    /// One value of an expression.
    #[cycle(writing)]
    #[tactic(auto, using(crate::proofs::Forms::Expressions::values_form, crate::proofs::Forms::Expressions::value_form))]
    pub fn exp(&mut self, e: &Expr) -> Result<(), NoMemory>
        ensures { OnOk result (self.new ≡ with_exp (exp_of e.now) self.old) }
    {
        if self.values(e)? {
            self.put(Instr::First, e.pos())?;
        }
        Ok(())
    }

    /// The list of the values of expressions.
    #[cycle(writing)]
    pub fn list(&mut self, pos: Pos, values: &[Expr]) -> Result<(), NoMemory>
        ensures { OnOk result (self.new ≡ with_list (exps_of values.now) pos 0 self.old) }
    {
        let mut count = 0;
        for e in values {
            if count + 1 < values.len() {
                self.exp(e)?;
            } else if self.values(e)? {
                self.put(Instr::Cons(count as u64), pos)?;
                return Ok(());
            }
            count += 1;
        }
        self.put(Instr::Pack(count as u64), pos)?;
        Ok(())
    }

    /// A function, behind those inside it. Gives its number.
    #[cycle(writing)]
    fn function(&mut self, pos: Pos, body: &Body) -> Result<u64, NoMemory>
        ensures code { OnOk result (self.new ≡ with_function (function_of body.now) pos self.old) }
        ensures number { IfOk result (λ n. n ≡ base self.old + function_inner (function_of body.now)) }
    {
        let params = body.params.len() as u64;
        let slots = sum(params, block_slots(&body.block)?)?;
        let captures = self.captures()?;
        let inner = self.inside(params)?;
        let outer = self.begin(inner);
        self.body(params, pos, &body.block)?;
        let header = Header {
            params,
            vararg: body.rest.is_some(),
            slots,
            captures,
        };
        let number = self.finish(outer, header)?;
        Ok(number)
    }

    /// The code of a function's body: the parameters become cells, and where it ends without `return`, nothing is given.
    #[cycle(writing)]
    pub fn body(&mut self, params: u64, pos: Pos, block: &Block) -> Result<(), NoMemory>
        ensures { OnOk result (self.new ≡ with_body params (block_of block.now) pos self.old) }
    {
        let end = sum(params, block_size(block)?)?;
        self.new_cells(0, params, pos)?;
        self.block(block, end)?;
        self.put(Instr::Pack(0), pos)?;
        self.put(Instr::Return, pos)?;
        Ok(())
    }
}
