ghost use Rattle.std.specs.Prelude.{◌≡◌, ◌∷◌, ◌++◌, [], map, OnOk, option_map};
ghost use Rattle.type_reader.specs.Annotations.{expr_of, stat_of, block_of, body_of, clause_of, entry_of, all, optional, optional_type, optional_results, rest_type, typed};
ghost use Rattle.type_reader.specs.Seen.{collected};

use crate::annotations::{Annotation, Annotations};
use lua_tree::{Block, Body, Clause, Entry, Expr, Rest, Stat, TypeExpr, TypeResults, Typed};
use tl_base::{List, NoMemory};

impl<'a> Annotations<'a> {
    fn optional_type(&mut self, ty: &'a Option<TypeExpr>) -> Result<(), NoMemory>
        ensures { OnOk result (collected self.new ≡ collected self.old ++ optional_type ty.now) }
    {
        match ty {
            Some(ty) => self.push(Annotation::Type(ty)),
            None => Ok(()),
        }
    }

    fn results(&mut self, results: &'a Option<TypeResults>) -> Result<(), NoMemory>
        ensures { OnOk result (collected self.new ≡ collected self.old ++ optional_results results.now) }
    {
        match results {
            Some(results) => self.push(Annotation::Results(results)),
            None => Ok(()),
        }
    }

    fn typed(&mut self, names: &'a List<Typed>) -> Result<(), NoMemory>
        ensures { OnOk result (collected self.new ≡ collected self.old ++ typed names.now) }
    {
        for name in names.as_slice() {
            self.optional_type(&name.ty)?;
        }
        Ok(())
    }

    fn rest(&mut self, rest: &'a Option<Rest>) -> Result<(), NoMemory>
        ensures { OnOk result (collected self.new ≡ collected self.old ++ rest_type rest.now) }
    {
        match rest {
            Some(rest) => self.optional_type(&rest.ty),
            None => Ok(()),
        }
    }

    #[cycle(collecting)]
    fn expr(&mut self, e: &'a Expr) -> Result<(), NoMemory>
        ensures { OnOk result (collected self.new ≡ collected self.old ++ expr_of e.now) }
    {
        match e {
            Expr::Nil(_)
            | Expr::Bool(_, _)
            | Expr::Int(_, _)
            | Expr::Str(_, _)
            | Expr::Vararg(_)
            | Expr::Name(_, _, _) => Ok(()),
            Expr::Function(_, body) => self.body(body.get()),
            Expr::Paren(_, inner) => self.expr(inner.get()),
            Expr::Field(_, object, _) => self.expr(object.get()),
            Expr::Index(_, object, key) => {
                self.expr(object.get())?;
                self.expr(key.get())
            }
            Expr::Call(_, callee, args) => {
                self.expr(callee.get())?;
                self.exprs(args)
            }
            Expr::Method(_, object, _, args) => {
                self.expr(object.get())?;
                self.exprs(args)
            }
            Expr::Table(_, entries) => self.entries(entries),
            Expr::Unary(_, _, operand) => self.expr(operand.get()),
            Expr::Binary(_, _, left, right) => {
                self.expr(left.get())?;
                self.expr(right.get())
            }
            Expr::Mark(_, inner) => self.expr(inner.get()),
        }
    }

    #[cycle(collecting)]
    fn exprs(&mut self, exprs: &'a List<Expr>) -> Result<(), NoMemory>
        ensures { OnOk result (collected self.new ≡ collected self.old ++ all (map expr_of exprs.now)) }
    {
        for e in exprs.as_slice() {
            self.expr(e)?;
        }
        Ok(())
    }

    #[cycle(collecting)]
    fn entries(&mut self, entries: &'a List<Entry>) -> Result<(), NoMemory>
        ensures { OnOk result (collected self.new ≡ collected self.old ++ all (map entry_of entries.now)) }
    {
        for entry in entries.as_slice() {
            self.entry(entry)?;
        }
        Ok(())
    }

    #[cycle(collecting)]
    fn entry(&mut self, entry: &'a Entry) -> Result<(), NoMemory>
        ensures { OnOk result (collected self.new ≡ collected self.old ++ entry_of entry.now) }
    {
        match entry {
            Entry::Keyed(key, value) => {
                self.expr(key)?;
                self.expr(value)
            }
            Entry::Named(_, value) | Entry::Item(value) => self.expr(value),
        }
    }

    #[cycle(collecting)]
    fn body(&mut self, body: &'a Body) -> Result<(), NoMemory>
        ensures { OnOk result (collected self.new ≡ collected self.old ++ body_of body.now) }
    {
        self.typed(&body.params)?;
        self.rest(&body.rest)?;
        self.results(&body.results)?;
        self.block(&body.block)
    }

    /// The annotations of a block.
    #[cycle(collecting)]
    pub fn block(&mut self, block: &'a Block) -> Result<(), NoMemory>
        ensures { OnOk result (collected self.new ≡ collected self.old ++ block_of block.now) }
    {
        for stat in block.stats.as_slice() {
            self.stat(stat)?;
        }
        match &block.result {
            Some(result) => self.exprs(&result.values),
            None => Ok(()),
        }
    }

    #[cycle(collecting)]
    fn optional_block(&mut self, block: &'a Option<Block>) -> Result<(), NoMemory>
        ensures { OnOk result (collected self.new ≡ collected self.old ++ optional (option_map block_of block.now)) }
    {
        match block {
            Some(block) => self.block(block),
            None => Ok(()),
        }
    }

    #[cycle(collecting)]
    fn optional_expr(&mut self, e: &'a Option<Expr>) -> Result<(), NoMemory>
        ensures { OnOk result (collected self.new ≡ collected self.old ++ optional (option_map expr_of e.now)) }
    {
        match e {
            Some(e) => self.expr(e),
            None => Ok(()),
        }
    }

    #[cycle(collecting)]
    fn clauses(&mut self, clauses: &'a List<Clause>) -> Result<(), NoMemory>
        ensures { OnOk result (collected self.new ≡ collected self.old ++ all (map clause_of clauses.now)) }
    {
        for clause in clauses.as_slice() {
            self.clause(clause)?;
        }
        Ok(())
    }

    #[cycle(collecting)]
    fn clause(&mut self, clause: &'a Clause) -> Result<(), NoMemory>
        ensures { OnOk result (collected self.new ≡ collected self.old ++ clause_of clause.now) }
    {
        self.expr(&clause.condition)?;
        self.block(&clause.block)
    }

    #[cycle(collecting)]
    fn stat(&mut self, stat: &'a Stat) -> Result<(), NoMemory>
        ensures { OnOk result (collected self.new ≡ collected self.old ++ stat_of stat.now) }
    {
        match stat {
            Stat::Empty(_) | Stat::Break(_) => Ok(()),
            Stat::Assign(_, targets, values) => {
                self.exprs(targets)?;
                self.exprs(values)
            }
            Stat::Call(_, e) => self.expr(e),
            Stat::Do(_, block) => self.block(block),
            Stat::While(_, condition, block) => {
                self.expr(condition)?;
                self.block(block)
            }
            Stat::Repeat(_, block, condition) => {
                self.block(block)?;
                self.expr(condition)
            }
            Stat::If(_, clauses, otherwise) => {
                self.clauses(clauses)?;
                self.optional_block(otherwise)
            }
            Stat::NumericFor(_, _, first, limit, step, block) => {
                self.expr(first)?;
                self.expr(limit)?;
                self.optional_expr(step)?;
                self.block(block)
            }
            Stat::GenericFor(_, _, values, block) => {
                self.exprs(values)?;
                self.block(block)
            }
            Stat::Function(_, target, function) => {
                self.expr(target)?;
                self.expr(function)
            }
            Stat::Method(_, object, _, function) => {
                self.expr(object)?;
                self.expr(function)
            }
            Stat::LocalFunction(_, _, function) => self.expr(function),
            Stat::Local(_, names, values) => {
                self.typed(names)?;
                self.exprs(values)
            }
            Stat::Interface(pos, name, fields) => {
                self.push(Annotation::Interface(*pos, name, fields.as_slice()))
            }
            Stat::Alias(pos, name, ty) => self.push(Annotation::Alias(*pos, name, ty)),
        }
    }
}
