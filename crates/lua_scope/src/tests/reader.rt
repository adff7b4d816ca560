//! Modules as words that follow what they take, which the tests read into trees. A word's place is its number in the text, from 1.
//! `!x` declares a name, `x` uses one, `'x` is a string; `{` and `}` hold a block. A digit behind a word says how many it takes.

use lua_tree::{
    BinaryOperator, Block, Body, Chunk, Clause, Entry, Expr, Name, Rest, Return, Stat, Typed,
    UnaryOperator,
};
use std::alloc::Global;
use std::test::Fail;
use tl_base::{Boxed, Bytes, CrossKind, List, ModuleKind, Pos};

/// What was read of a block and waits to be taken.
#[derive(Drop)]
struct Frame {
    names: Vec<Name>,
    exprs: Vec<Expr>,
    blocks: Vec<Block>,
    stats: Vec<Stat>,
    result: Option<Return>,
}

#[derive(Drop)]
struct Reader {
    alloc: Global,
    outer: Vec<Frame>,
    here: Frame,
    pos: Pos,
    uses: u32,
}

fn new_frame(alloc: Global) -> Frame {
    Frame {
        names: Vec::new(alloc),
        exprs: Vec::new(alloc),
        blocks: Vec::new(alloc),
        stats: Vec::new(alloc),
        result: None,
    }
}

impl Reader {
    fn bytes(&self, word: &str) -> Result<Bytes, Fail> {
        Ok(Bytes::from_slice(self.alloc, word.as_bytes())?)
    }

    fn pop(&mut self) -> Result<Expr, Fail> {
        Ok(self.here.exprs.pop().ok_or("no expression")?)
    }

    fn pop_boxed(&mut self) -> Result<Boxed<Expr>, Fail> {
        let e = self.pop()?;
        Ok(Boxed::new(self.alloc, e)?)
    }

    fn pop_block(&mut self) -> Result<Block, Fail> {
        Ok(self.here.blocks.pop().ok_or("no block")?)
    }

    fn pop_name(&mut self) -> Result<Name, Fail> {
        Ok(self.here.names.pop().ok_or("no name")?)
    }

    /// The last expressions, so many of them.
    fn pop_exprs(&mut self, count: usize) -> Result<List<Expr>, Fail> {
        let first = self.here.exprs.len().saturating_sub(count);
        Ok(List::from_vec(self.here.exprs.split_off(first)?))
    }

    fn pop_names(&mut self, count: usize) -> Result<List<Name>, Fail> {
        let first = self.here.names.len().saturating_sub(count);
        Ok(List::from_vec(self.here.names.split_off(first)?))
    }

    fn pop_typed(&mut self, count: usize) -> Result<List<Typed>, Fail> {
        let names = self.pop_names(count)?;
        let mut typed = List::new(self.alloc);
        for name in names.into_vec() {
            typed.push(Typed { name, ty: None })?;
        }
        Ok(typed)
    }

    fn put(&mut self, e: Expr) -> Result<(), Fail> {
        self.here.exprs.push(e)?;
        Ok(())
    }

    fn put_stat(&mut self, stat: Stat) -> Result<(), Fail> {
        self.here.stats.push(stat)?;
        Ok(())
    }

    fn open(&mut self) -> Result<(), Fail> {
        let here = std::mem::replace(&mut self.here, new_frame(self.alloc));
        self.outer.push(here)?;
        Ok(())
    }

    fn close(&mut self) -> Result<(), Fail> {
        let outer = self.outer.pop().ok_or("no outer block")?;
        let here = std::mem::replace(&mut self.here, outer);
        let block = Block {
            stats: List::from_vec(here.stats),
            result: here.result,
        };
        self.here.blocks.push(block)?;
        Ok(())
    }

    fn field(&mut self, word: &str) -> Result<(), Fail> {
        let object = self.pop_boxed()?;
        let name = Name {
            pos: self.pos,
            text: self.bytes(word)?,
        };
        self.put(Expr::Field(self.pos, object, name))
    }

    fn index(&mut self) -> Result<(), Fail> {
        let key = self.pop_boxed()?;
        let object = self.pop_boxed()?;
        self.put(Expr::Index(self.pos, object, key))
    }

    fn add(&mut self) -> Result<(), Fail> {
        let right = self.pop_boxed()?;
        let left = self.pop_boxed()?;
        self.put(Expr::Binary(self.pos, BinaryOperator::Add, left, right))
    }

    fn paren(&mut self) -> Result<(), Fail> {
        let e = self.pop_boxed()?;
        self.put(Expr::Paren(self.pos, e))
    }

    fn not(&mut self) -> Result<(), Fail> {
        let e = self.pop_boxed()?;
        self.put(Expr::Unary(self.pos, UnaryOperator::Not, e))
    }

    fn mark(&mut self) -> Result<(), Fail> {
        let e = self.pop_boxed()?;
        self.put(Expr::Mark(CrossKind::Place, e))
    }

    fn call(&mut self, count: usize) -> Result<(), Fail> {
        let args = self.pop_exprs(count)?;
        let callee = self.pop_boxed()?;
        self.put(Expr::Call(self.pos, callee, args))
    }

    fn method_call(&mut self, count: usize) -> Result<(), Fail> {
        let args = self.pop_exprs(count)?;
        let object = self.pop_boxed()?;
        let name = Name {
            pos: self.pos,
            text: self.bytes("len")?,
        };
        self.put(Expr::Method(self.pos, object, name, args))
    }

    /// A table with an item, and a key with its value.
    fn table(&mut self) -> Result<(), Fail> {
        let value = self.pop()?;
        let key = self.pop()?;
        let item = self.pop()?;
        let mut entries = List::new(self.alloc);
        entries.push(Entry::Item(item))?;
        entries.push(Entry::Keyed(key, value))?;
        self.put(Expr::Table(self.pos, entries))
    }

    fn function(&mut self, params: usize, has_rest: bool) -> Result<(), Fail> {
        let block = self.pop_block()?;
        let params = self.pop_typed(params)?;
        let rest = if has_rest {
            Some(Rest {
                pos: self.pos,
                ty: None,
            })
        } else {
            None
        };
        let body = Body {
            params,
            rest,
            results: None,
            block,
        };
        let body = Boxed::new(self.alloc, body)?;
        self.put(Expr::Function(self.pos, body))
    }

    fn name(&mut self, word: &str) -> Result<(), Fail> {
        let name = Name {
            pos: self.pos,
            text: self.bytes(word)?,
        };
        self.here.names.push(name)?;
        Ok(())
    }

    fn use_name(&mut self, word: &str) -> Result<(), Fail> {
        let number = self.uses;
        self.uses = number.saturating_add(1);
        let text = self.bytes(word)?;
        self.put(Expr::Name(self.pos, number, text))
    }

    fn string(&mut self, word: &str) -> Result<(), Fail> {
        let text = self.bytes(word)?;
        self.put(Expr::Str(self.pos, text))
    }

    fn local(&mut self) -> Result<(), Fail> {
        let names = self.pop_typed(usize::MAX)?;
        let values = self.pop_exprs(usize::MAX)?;
        self.put_stat(Stat::Local(self.pos, names, values))
    }

    fn local_function(&mut self) -> Result<(), Fail> {
        let name = self.pop_name()?;
        let function = self.pop()?;
        self.put_stat(Stat::LocalFunction(self.pos, name, function))
    }

    fn set(&mut self, values: usize) -> Result<(), Fail> {
        let values = self.pop_exprs(values)?;
        let targets = self.pop_exprs(usize::MAX)?;
        self.put_stat(Stat::Assign(self.pos, targets, values))
    }

    fn run(&mut self) -> Result<(), Fail> {
        let e = self.pop()?;
        self.put_stat(Stat::Call(self.pos, e))
    }

    fn return_all(&mut self) -> Result<(), Fail> {
        let values = self.pop_exprs(usize::MAX)?;
        self.here.result = Some(Return {
            pos: self.pos,
            values,
        });
        Ok(())
    }

    fn scope(&mut self) -> Result<(), Fail> {
        let block = self.pop_block()?;
        self.put_stat(Stat::Do(self.pos, block))
    }

    fn while_loop(&mut self) -> Result<(), Fail> {
        let block = self.pop_block()?;
        let condition = self.pop()?;
        self.put_stat(Stat::While(self.pos, condition, block))
    }

    fn repeat(&mut self) -> Result<(), Fail> {
        let block = self.pop_block()?;
        let condition = self.pop()?;
        self.put_stat(Stat::Repeat(self.pos, block, condition))
    }

    /// Two conditions with their blocks, and the block of `else`.
    fn branches(&mut self) -> Result<(), Fail> {
        let otherwise = self.pop_block()?;
        let mut clauses = List::new(self.alloc);
        let second = Clause {
            condition: self.pop()?,
            block: self.pop_block()?,
        };
        let first = Clause {
            condition: self.pop()?,
            block: self.pop_block()?,
        };
        clauses.push(first)?;
        clauses.push(second)?;
        self.put_stat(Stat::If(self.pos, clauses, Some(otherwise)))
    }

    fn numeric_for(&mut self, has_step: bool) -> Result<(), Fail> {
        let block = self.pop_block()?;
        let step = if has_step { Some(self.pop()?) } else { None };
        let limit = self.pop()?;
        let first = self.pop()?;
        let name = self.pop_name()?;
        self.put_stat(Stat::NumericFor(self.pos, name, first, limit, step, block))
    }

    fn generic_for(&mut self) -> Result<(), Fail> {
        let block = self.pop_block()?;
        let values = self.pop_exprs(usize::MAX)?;
        let names = self.pop_names(usize::MAX)?;
        self.put_stat(Stat::GenericFor(self.pos, names, values, block))
    }

    fn define(&mut self) -> Result<(), Fail> {
        let function = self.pop()?;
        let target = self.pop()?;
        self.put_stat(Stat::Function(self.pos, target, function))
    }

    fn define_method(&mut self) -> Result<(), Fail> {
        let function = self.pop()?;
        let object = self.pop()?;
        let name = Name {
            pos: self.pos,
            text: self.bytes("m")?,
        };
        self.put_stat(Stat::Method(self.pos, object, name, function))
    }

    fn expression(&mut self, word: &str) -> Result<(), Fail> {
        match word {
            "nil" => self.put(Expr::Nil(self.pos)),
            "..." => self.put(Expr::Vararg(self.pos)),
            "[]" => self.index(),
            "+" => self.add(),
            "paren" => self.paren(),
            "not" => self.not(),
            "mark" => self.mark(),
            "call0" => self.call(0),
            "call1" => self.call(1),
            "call2" => self.call(2),
            "table" => self.table(),
            ":len" => self.method_call(0),
            "fn0" => self.function(0, false),
            "fn1" => self.function(1, false),
            "fn198" => self.function(198, false),
            "fn200" => self.function(200, false),
            "fn201" => self.function(201, false),
            "fn..." => self.function(0, true),
            _ => self.word_of(word),
        }
    }

    /// A word with a sign before it, or a use.
    fn word_of(&mut self, word: &str) -> Result<(), Fail> {
        if let Some(name) = word.strip_prefix('!') {
            return self.name(name);
        }
        if let Some(text) = word.strip_prefix('\'') {
            return self.string(text);
        }
        if let Some(key) = word.strip_prefix('.') {
            return self.field(key);
        }
        self.use_name(word)
    }

    fn word(&mut self, word: &str) -> Result<(), Fail> {
        match word {
            "{" => self.open(),
            "}" => self.close(),
            "local" => self.local(),
            "localfunction" => self.local_function(),
            "set1" => self.set(1),
            "run" => self.run(),
            "return" => self.return_all(),
            "do" => self.scope(),
            "while" => self.while_loop(),
            "repeat" => self.repeat(),
            "if" => self.branches(),
            "for" => self.numeric_for(false),
            "for-step" => self.numeric_for(true),
            "each" => self.generic_for(),
            "function" => self.define(),
            "method" => self.define_method(),
            "break" => self.put_stat(Stat::Break(self.pos)),
            _ => self.expression(word),
        }
    }
}

/// The module that a text spells.
pub fn chunk_of(alloc: Global, text: &str) -> Result<Chunk, Fail> {
    let pos = Pos {
        module: 0,
        line: 1,
        column: 0,
    };
    let mut reader = Reader {
        alloc,
        outer: Vec::new(alloc),
        here: new_frame(alloc),
        pos,
        uses: 0,
    };
    for word in text.split_whitespace() {
        reader.pos.column = reader.pos.column.saturating_add(1);
        reader.word(word)?;
    }
    let here = std::mem::replace(&mut reader.here, new_frame(alloc));
    let body = Block {
        stats: List::from_vec(here.stats),
        result: here.result,
    };
    Ok(Chunk {
        module: 0,
        kind: ModuleKind::Untyped,
        body,
    })
}
