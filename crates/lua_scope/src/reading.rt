ghost use Rattle.std.specs.Prelude.{◌≡◌, List as Seq, ◌∷◌, ◌++◌, [], map, option_map, flat_map, OnOk};
ghost use Rattle.std.specs.Option.{option_map_or};
ghost use Rattle.lua_scope.specs.Seen.{word_of, event_of};
ghost use Rattle.lua_tree.specs.Scopes.Events.{Event as Said};
ghost use Rattle.lua_tree.specs.Scopes.Events as says;
ghost use Rattle.lua_tree.specs.Scopes.Trees.{said_of, stat_of, block_of, body_of, clause_of, entry_of, values, targets, declares, names, call_value, optional, scope, hidden_self, shows};

use crate::words::{Event, Events, Word};
use lua_tree::{Block, Body, Clause, Entry, Expr, Name, Return, Stat, Typed};
use tl_base::{List, NoMemory, Pos};

/// The name, where an expression is a bare one.
fn name_of<'a>(e: &'a Expr) -> Option<Word<'a>>
    ensures { option_map word_of result ≡ (said_of e.now).name }
{
    match e {
        Expr::Name(pos, _, text) => Some(Word {
            pos: *pos,
            text: text.as_slice(),
        }),
        Expr::Mark(_, inner) => name_of(inner.get()),
        _ => None,
    }
}

/// The string, where an expression is a literal one.
fn literal_of<'a>(e: &'a Expr) -> Option<Word<'a>>
    ensures { option_map word_of result ≡ (said_of e.now).literal }
{
    match e {
        Expr::Str(pos, text) => Some(Word {
            pos: *pos,
            text: text.as_slice(),
        }),
        Expr::Mark(_, inner) => literal_of(inner.get()),
        _ => None,
    }
}

/// The name and the string, where a bare name is called with one literal string.
fn text_call<'a>(callee: &'a Expr, args: &'a List<Expr>) -> Option<(Word<'a>, Word<'a>)>
    ensures { (es : Seq Said) → call_value (said_of callee.now).name (map (λ e. e.literal) (map said_of args.now)) es ≡ option_map_or (λ c. says.call_text c.0.pos c.0.text.now c.1.pos c.1.text.now ∷ []) result es }
{
    match (name_of(callee), args.as_slice()) {
        (Some(name), [arg]) => match literal_of(arg) {
            Some(text) => Some((name, text)),
            None => None,
        },
        _ => None,
    }
}

impl<'a> Events<'a> {
    /// A name is declared. It isn't visible yet.
    fn declare(&mut self, name: &'a Name) -> Result<(), NoMemory>
        ensures { OnOk result (self.new ≡ self.old ++ declares (name.now ∷ [])) }
    {
        self.push(Event::Declare(Word {
            pos: name.pos,
            text: name.text.as_slice(),
        }))
    }

    fn declare_all(&mut self, all: &'a List<Name>) -> Result<(), NoMemory>
        ensures { OnOk result (self.new ≡ self.old ++ declares all.now) }
    {
        for name in all.as_slice() {
            self.declare(name)?;
        }
        Ok(())
    }

    fn declare_typed(&mut self, all: &'a List<Typed>) -> Result<(), NoMemory>
        ensures { OnOk result (self.new ≡ self.old ++ declares (names all.now)) }
    {
        for param in all.as_slice() {
            self.declare(&param.name)?;
        }
        Ok(())
    }

    /// The parameter `self` that isn't written, where there is one.
    fn hidden(&mut self, hidden: Option<Pos>) -> Result<(), NoMemory>
        ensures { OnOk result (self.new ≡ self.old ++ hidden_self hidden) }
    {
        match hidden {
            Some(pos) => {
                self.push(Event::Declare(Word { pos, text: b"self" }))?;
                self.push(Event::Appear(1))
            }
            None => Ok(()),
        }
    }

    /// What an expression says whose value is wanted.
    #[cycle(events)]
    fn value(&mut self, e: &'a Expr) -> Result<(), NoMemory>
        ensures { OnOk result (self.new ≡ self.old ++ (said_of e.now).value) }
    {
        match e {
            Expr::Nil(_) | Expr::Bool(_, _) | Expr::Int(_, _) | Expr::Str(_, _) => Ok(()),
            Expr::Vararg(pos) => self.push(Event::Vararg(*pos)),
            Expr::Function(_, body) => self.function(None, body.get()),
            Expr::Name(pos, _, text) => self.push(Event::UseName(Word {
                pos: *pos,
                text: text.as_slice(),
            })),
            Expr::Paren(_, inner) => self.value(inner.get()),
            Expr::Field(_, object, key) => match name_of(object.get()) {
                Some(name) => self.push(Event::UseField(
                    name,
                    Word {
                        pos: key.pos,
                        text: key.text.as_slice(),
                    },
                )),
                None => self.value(object.get()),
            },
            Expr::Index(_, object, key) => {
                self.value(object.get())?;
                self.value(key.get())
            }
            Expr::Call(_, callee, args) => match text_call(callee.get(), args) {
                Some((name, text)) => self.push(Event::CallText(name, text)),
                None => {
                    self.value(callee.get())?;
                    self.values(args)
                }
            },
            Expr::Method(_, object, _, args) => {
                self.value(object.get())?;
                self.values(args)
            }
            Expr::Table(_, entries) => self.entries(entries),
            Expr::Unary(_, _, operand) => self.value(operand.get()),
            Expr::Binary(_, _, left, right) => {
                self.value(left.get())?;
                self.value(right.get())
            }
            Expr::Mark(_, inner) => self.value(inner.get()),
        }
    }

    #[cycle(events)]
    fn values(&mut self, all: &'a List<Expr>) -> Result<(), NoMemory>
        ensures { OnOk result (self.new ≡ self.old ++ values (map said_of all.now)) }
    {
        for e in all.as_slice() {
            self.value(e)?;
        }
        Ok(())
    }

    #[cycle(events)]
    fn entries(&mut self, all: &'a List<Entry>) -> Result<(), NoMemory>
        ensures { OnOk result (self.new ≡ self.old ++ flat_map (λ e. e) (map entry_of all.now)) }
    {
        for entry in all.as_slice() {
            self.entry(entry)?;
        }
        Ok(())
    }

    #[cycle(events)]
    fn entry(&mut self, entry: &'a Entry) -> Result<(), NoMemory>
        ensures { OnOk result (self.new ≡ self.old ++ entry_of entry.now) }
    {
        match entry {
            Entry::Keyed(key, value) => {
                self.value(key)?;
                self.value(value)
            }
            Entry::Named(_, value) | Entry::Item(value) => self.value(value),
        }
    }

    /// What a function says, where the method's `self` has this place.
    #[cycle(events)]
    fn function(&mut self, hidden: Option<Pos>, body: &'a Body) -> Result<(), NoMemory>
        ensures { OnOk result (self.new ≡ self.old ++ body_of body.now (hidden_self hidden)) }
    {
        self.push(Event::Function(body.rest.is_some()))?;
        self.hidden(hidden)?;
        self.declare_typed(&body.params)?;
        self.push(Event::Appear(body.params.len()))?;
        self.block(&body.block)?;
        self.push(Event::Finish)
    }

    /// What a block says, without its scope's begin and end.
    #[cycle(events)]
    pub fn block(&mut self, block: &'a Block) -> Result<(), NoMemory>
        ensures { OnOk result (self.new ≡ self.old ++ block_of block.now) }
    {
        for stat in block.stats.as_slice() {
            self.stat(stat)?;
        }
        match &block.result {
            Some(result) => self.values(&result.values),
            None => Ok(()),
        }
    }

    /// A block in a scope of its own.
    #[cycle(events)]
    fn scope(&mut self, begins: Event<'a>, block: &'a Block) -> Result<(), NoMemory>
        ensures { OnOk result (self.new ≡ self.old ++ scope (event_of begins.entry) (block_of block.now)) }
    {
        self.push(begins)?;
        self.block(block)?;
        self.push(Event::Finish)
    }

    /// What an expression says that is the target of an assignment.
    #[cycle(events)]
    fn target(&mut self, e: &'a Expr) -> Result<(), NoMemory>
        ensures { OnOk result (self.new ≡ self.old ++ (said_of e.now).target) }
    {
        match e {
            Expr::Name(pos, _, text) => self.push(Event::AssignName(Word {
                pos: *pos,
                text: text.as_slice(),
            })),
            Expr::Field(_, object, key) => match name_of(object.get()) {
                Some(name) => self.push(Event::AssignField(
                    name,
                    Word {
                        pos: key.pos,
                        text: key.text.as_slice(),
                    },
                )),
                None => self.value(object.get()),
            },
            Expr::Mark(_, inner) => self.target(inner.get()),
            _ => self.value(e),
        }
    }

    #[cycle(events)]
    fn targets(&mut self, all: &'a List<Expr>) -> Result<(), NoMemory>
        ensures { OnOk result (self.new ≡ self.old ++ targets (map said_of all.now)) }
    {
        for e in all.as_slice() {
            self.target(e)?;
        }
        Ok(())
    }

    /// What the function of a method statement says, which has a parameter `self`.
    #[cycle(events)]
    fn method(&mut self, e: &'a Expr) -> Result<(), NoMemory>
        ensures { OnOk result (self.new ≡ self.old ++ (said_of e.now).method) }
    {
        match e {
            Expr::Function(pos, body) => self.function(Some(*pos), body.get()),
            Expr::Mark(_, inner) => self.method(inner.get()),
            _ => self.value(e),
        }
    }

    #[cycle(events)]
    fn clauses(&mut self, all: &'a List<Clause>) -> Result<(), NoMemory>
        ensures { OnOk result (self.new ≡ self.old ++ flat_map (λ c. c) (map clause_of all.now)) }
    {
        for clause in all.as_slice() {
            self.value(&clause.condition)?;
            self.scope(Event::Block, &clause.block)?;
        }
        Ok(())
    }

    #[cycle(events)]
    fn optional(&mut self, e: &'a Option<Expr>) -> Result<(), NoMemory>
        ensures { OnOk result (self.new ≡ self.old ++ optional (option_map said_of e.now)) }
    {
        match e {
            Some(e) => self.value(e),
            None => Ok(()),
        }
    }

    #[cycle(events)]
    fn stat(&mut self, stat: &'a Stat) -> Result<(), NoMemory>
        ensures { OnOk result (self.new ≡ self.old ++ stat_of stat.now) }
    {
        match stat {
            Stat::Empty(_) | Stat::Interface(_, _, _) | Stat::Alias(_, _, _) => Ok(()),
            Stat::Assign(_, targets, values) => {
                self.targets(targets)?;
                self.values(values)
            }
            Stat::Call(_, e) => self.value(e),
            Stat::Break(pos) => self.push(Event::Leave(*pos)),
            Stat::Do(_, block) => self.scope(Event::Block, block),
            Stat::While(_, condition, block) => {
                self.value(condition)?;
                self.scope(Event::Loop, block)
            }
            Stat::Repeat(_, block, until) => {
                self.push(Event::Loop)?;
                self.block(block)?;
                self.value(until)?;
                self.push(Event::Finish)
            }
            Stat::If(_, clauses, otherwise) => {
                self.clauses(clauses)?;
                match otherwise {
                    Some(block) => self.scope(Event::Block, block),
                    None => Ok(()),
                }
            }
            Stat::NumericFor(_, name, first, limit, step, block) => {
                self.push(Event::Loop)?;
                self.declare(name)?;
                self.value(first)?;
                self.value(limit)?;
                self.optional(step)?;
                self.push(Event::Appear(1))?;
                self.block(block)?;
                self.push(Event::Finish)
            }
            Stat::GenericFor(_, names, values, block) => {
                self.push(Event::Loop)?;
                self.declare_all(names)?;
                self.values(values)?;
                self.push(Event::Appear(names.len()))?;
                self.block(block)?;
                self.push(Event::Finish)
            }
            Stat::Function(_, target, function) => {
                self.target(target)?;
                self.value(function)
            }
            Stat::Method(_, object, _, function) => {
                self.value(object)?;
                self.method(function)
            }
            Stat::LocalFunction(_, name, function) => {
                self.declare(name)?;
                self.push(Event::Appear(1))?;
                self.value(function)
            }
            Stat::Local(_, names, values) => {
                self.declare_typed(names)?;
                self.values(values)?;
                self.push(Event::Appear(names.len()))
            }
        }
    }
}
