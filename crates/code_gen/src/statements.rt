ghost use Rattle.std.specs.Prelude.{◌≡◌, ◌+◌, ◌-◌, length, true, OnOk, IfOk};
ghost use Rattle.lua_tree.specs.View.{exp_of, exps_of, stat_of, block_of, clauses_of, targets_of};
ghost use Rattle.std.specs.Option.{option_map};
ghost use Rattle.lua_tree.specs.View.{step_from, else_from};
ghost use Rattle.lua_meaning.specs.Trees.{first_place as first_place_of};
ghost use Rattle.lua_code.specs.Generated.{stores as stores_of, iterate_code, step_place};
ghost use Rattle.lua_meaning.specs.Locals.{exp_locals as exp_locals_of};
ghost use Rattle.lua_code.specs.Sizes.{block_size as block_size_of, exp_size as exp_size_of};
ghost use Rattle.code_gen.specs.Work.{is_loop, skip, put_all, put as put_one, free_from, with_scoped, with_block, with_step, with_else, with_stat, with_clauses, with_count_begun, with_each_begun, all_patched, last_jumps};
ghost use Rattle.lua_code.specs.declared.code.Instr.TheVariants as instr;

use crate::locals::{exp_locals, targets_locals};
use crate::sizes::{block_size, exp_size};
use crate::sums::sum;
use crate::writer::Writer;
use lua_code::Instr;
use lua_tree::{Block, Clause, Expr, Stat};
use tl_base::{NoMemory, Pos};

/// The place of the first of the expressions, or the statement's.
fn first_place(pos: Pos, values: &[Expr]) -> Pos
    ensures { result ≡ first_place_of pos (exps_of values.now) }
{
    match values {
        [] => pos,
        [first, ..] => first.pos(),
    }
}

impl<'a> Writer<'a> {
    /// Values on the stack are stored into the targets, the last one first.
    #[tactic(auto, using(crate::proofs::Cells::stores_step, crate::proofs::Put::put_none))]
    fn stores(&mut self, targets: &[Expr], pos: Pos) -> Result<(), NoMemory>
        ensures { OnOk result (self.new ≡ put_all (stores_of (targets_of targets.now) pos self.old.scope) self.old) }
    {
        for i in 0..targets.len() {
            let target = &targets[targets.len() - 1 - i];
            let instr = self.store(target);
            self.put(instr, pos)?;
        }
        Ok(())
    }

    /// A bound of a numeric `for`, which has to be an integer, goes into a slot.
    fn end_bound(&mut self, bound: Pos, slot: u64, pos: Pos) -> Result<(), NoMemory>
        ensures { OnOk result (self.new ≡ free_from (slot + 1) (put_one (instr.SetSlot slot) pos (put_one instr.Bound bound self.old))) }
    {
        self.put(Instr::Bound, bound)?;
        self.put(Instr::SetSlot(slot), pos)?;
        self.set_free(sum(slot, 1)?);
        Ok(())
    }

    /// A `while` begins: to its condition, and to a turn. Gives the place behind the loop.
    fn begin_while(&mut self, condition: &Expr, block: &Block, pos: Pos) -> Result<u64, NoMemory>
        ensures code { OnOk result (self.new ≡ skip (exp_locals_of (exp_of condition.now)) (put_one instr.Turn pos (put_one (instr.Jump (length self.old.code + 2 + block_size_of (block_of block.now))) pos self.old))) }
        ensures exit { IfOk result (λ n. n ≡ length self.old.code + 2 + block_size_of (block_of block.now) + exp_size_of (exp_of condition.now) + 1) }
    {
        let test = sum(sum(self.place(), 2)?, block_size(block)?)?;
        let behind = sum(sum(test, exp_size(condition)?)?, 1)?;
        let count = exp_locals(condition)?;
        self.put(Instr::Jump(test), pos)?;
        self.put(Instr::Turn, pos)?;
        self.skip(count)?;
        Ok(behind)
    }

    /// A `repeat` begins. Gives the place behind the loop.
    fn begin_repeat(&mut self, block: &Block, condition: &Expr, pos: Pos) -> Result<u64, NoMemory>
        ensures code { OnOk result (self.new ≡ put_one instr.Turn pos self.old) }
        ensures exit { IfOk result (λ n. n ≡ length self.old.code + 1 + block_size_of (block_of block.now) + exp_size_of (exp_of condition.now) + 1) }
    {
        let test = sum(sum(self.place(), 1)?, block_size(block)?)?;
        let behind = sum(sum(test, exp_size(condition)?)?, 1)?;
        self.put(Instr::Turn, pos)?;
        Ok(behind)
    }

    /// The turns of a numeric `for` begin, whose variable is this local. A step of 0 is found at the place of the step. Gives the place behind the loop.
    fn begin_count(
        &mut self,
        slot: u64,
        local: u64,
        step: Pos,
        block: &Block,
        pos: Pos,
    ) -> Result<u64, NoMemory>
        ensures code { OnOk result (self.new ≡ with_count_begun slot local (length self.old.code + 2 + 4 + block_size_of (block_of block.now) + 1) step pos (put_one (instr.SetSlot (slot + 2)) pos self.old)) }
        ensures exit { IfOk result (λ n. n ≡ length self.old.code + 2 + 4 + block_size_of (block_of block.now) + 1) }
    {
        let variable = sum(slot, 3)?;
        let inner = sum(sum(self.place(), 2)?, 4)?;
        let behind = sum(sum(inner, block_size(block)?)?, 1)?;
        self.put(Instr::SetSlot(sum(slot, 2)?), pos)?;
        self.put(Instr::ForPrep(slot, behind), step)?;
        self.put(Instr::Turn, pos)?;
        self.put(Instr::GetSlot(slot), pos)?;
        self.put(Instr::SetSlot(variable), pos)?;
        self.put(Instr::NewCell(variable), pos)?;
        self.set_free(variable);
        self.declare(1, local)?;
        Ok(behind)
    }

    /// The turns of a generic `for` begin, whose variables are so many locals from one on. Gives the place where the iterator is called.
    fn begin_each(
        &mut self,
        slot: u64,
        count: u64,
        local: u64,
        block: &Block,
        pos: Pos,
    ) -> Result<u64, NoMemory>
        ensures code { OnOk result (self.new ≡ with_each_begun slot count local (length self.old.code + 5 + 2 + count + count + block_size_of (block_of block.now)) pos self.old) }
        ensures test { IfOk result (λ n. n ≡ length self.old.code + 5 + 2 + count + count + block_size_of (block_of block.now)) }
    {
        let variables = sum(slot, 3)?;
        let inner = sum(sum(sum(sum(self.place(), 5)?, 2)?, count)?, count)?;
        let test = sum(inner, block_size(block)?)?;
        self.put(Instr::Spread(3), pos)?;
        self.put(Instr::SetSlot(sum(slot, 2)?), pos)?;
        self.put(Instr::SetSlot(sum(slot, 1)?), pos)?;
        self.put(Instr::SetSlot(slot), pos)?;
        self.put(Instr::Jump(test), pos)?;
        self.put(Instr::Turn, pos)?;
        self.put(Instr::Spread(count), pos)?;
        self.begin_locals(variables, count, pos)?;
        self.set_free(variables);
        self.declare(count, local)?;
        Ok(test)
    }

    /// Jumps at some places lead to where the writing stands.
    fn settle_jumps(&mut self, places: &[u64], pos: Pos)
        ensures { self.new ≡ all_patched places.now (instr.Jump (length self.old.code)) pos self.old }
    {
        let end = self.place();
        for place in places {
            self.patch(*place, Instr::Jump(end), pos);
        }
    }

    /// The iterator of a generic `for` is called, at a place of its own, and the loop goes back to its turn unless the first result is nil.
    #[tactic(auto, using(crate::proofs::Put::put_more))]
    fn iterate(&mut self, slot: u64, turn: u64, pos: Pos, call: Pos) -> Result<(), NoMemory>
        ensures { OnOk result (self.new ≡ put_all (iterate_code slot turn pos call) self.old) }
    {
        let state = sum(slot, 1)?;
        let control = sum(slot, 2)?;
        self.put(Instr::GetSlot(slot), pos)?;
        self.put(Instr::GetSlot(state), pos)?;
        self.put(Instr::GetSlot(control), pos)?;
        self.put(Instr::Pack(2), pos)?;
        self.put(Instr::Call, call)?;
        self.put(Instr::Dup, pos)?;
        self.put(Instr::First, pos)?;
        self.put(Instr::Dup, pos)?;
        self.put(Instr::SetSlot(control), pos)?;
        self.put(Instr::Nil, pos)?;
        self.put(Instr::Eq, pos)?;
        self.put(Instr::JumpIfNot(turn), pos)?;
        self.put(Instr::Pop, pos)
    }

    /// A block whose locals end with it. `break` goes to the exit.
    #[cycle(writing)]
    fn scoped(&mut self, block: &Block, exit: u64) -> Result<(), NoMemory>
        ensures { OnOk result (self.new ≡ with_scoped (block_of block.now) exit self.old) }
    {
        let count = self.count();
        let free = self.free();
        self.block(block, exit)?;
        self.leave(count, free);
        Ok(())
    }

    /// A block whose locals stay in scope. `break` goes to the exit.
    #[cycle(writing)]
    pub fn block(&mut self, block: &Block, exit: u64) -> Result<(), NoMemory>
        ensures { OnOk result (self.new ≡ with_block (block_of block.now) exit self.old) }
    {
        for stat in block.stats.as_slice() {
            self.stat(stat, exit)?;
        }
        match &block.result {
            Some(result) => {
                self.list(result.pos, result.values.as_slice())?;
                self.put(Instr::Return, result.pos)?;
                Ok(())
            }
            None => Ok(()),
        }
    }

    /// What an `if` does where no condition holds.
    #[cycle(writing)]
    fn otherwise(&mut self, block: &Option<Block>, exit: u64) -> Result<(), NoMemory>
        ensures { OnOk result (self.new ≡ with_else (else_from (option_map block_of block.now)) exit self.old) }
    {
        match block {
            Some(block) => {
                self.scoped(block, exit)?;
                Ok(())
            }
            None => Ok(()),
        }
    }

    /// The step of a numeric `for`. Gives the place at which it is found to be 0.
    #[cycle(writing)]
    fn step(&mut self, step: &Option<Expr>, pos: Pos) -> Result<Pos, NoMemory>
        ensures code { OnOk result (self.new ≡ with_step (step_from (option_map exp_of step.now)) pos self.old) }
        ensures place { IfOk result (λ place. place ≡ step_place (step_from (option_map exp_of step.now)) pos) }
    {
        match step {
            Some(e) => {
                self.exp(e)?;
                self.put(Instr::Bound, e.pos())?;
                Ok(e.pos())
            }
            None => {
                self.put(Instr::Int(1), pos)?;
                Ok(pos)
            }
        }
    }

    /// The clauses of an `if`. Gives the places of their last jumps, which lead nowhere yet.
    #[cycle(writing)]
    fn clauses(&mut self, all: &[Clause], pos: Pos, exit: u64) -> Result<Vec<u64>, NoMemory>
        ensures code { OnOk result (self.new ≡ with_clauses (clauses_of all.now) pos 0 exit self.old) }
        ensures jumps { IfOk result (λ jumps. jumps.items ≡ last_jumps (clauses_of all.now) (length self.old.code)) }
    {
        let mut jumps = Vec::new(self.alloc);
        for clause in all {
            self.exp(&clause.condition)?;
            let test = self.place();
            self.put(Instr::JumpIfNot(0), pos)?;
            self.scoped(&clause.block, exit)?;
            let last = self.place();
            jumps.push(last)?;
            self.put(Instr::Jump(0), pos)?;
            let next = self.place();
            self.patch(test, Instr::JumpIfNot(next), pos);
        }
        Ok(jumps)
    }

    /// A statement. `break` goes to the exit.
    #[cycle(writing)]
    fn stat(&mut self, stat: &Stat, exit: u64) -> Result<(), NoMemory>
        ensures { OnOk result (self.new ≡ with_stat (stat_of stat.now) exit self.old) }
    {
        match stat {
            Stat::Empty(_) => Ok(()),
            Stat::Interface(_, _, _) => Ok(()),
            Stat::Alias(_, _, _) => Ok(()),
            Stat::Assign(pos, targets, values) => {
                self.skip(targets_locals(targets.as_slice())?)?;
                self.list(*pos, values.as_slice())?;
                self.put(Instr::Spread(targets.len() as u64), *pos)?;
                self.stores(targets.as_slice(), *pos)?;
                Ok(())
            }
            Stat::Call(pos, call) => {
                self.exp(call)?;
                self.put(Instr::Pop, *pos)?;
                Ok(())
            }
            Stat::Break(pos) => {
                self.put(Instr::Jump(exit), *pos)?;
                Ok(())
            }
            Stat::Do(_, block) => {
                self.scoped(block, exit)?;
                Ok(())
            }
            Stat::If(pos, clauses, otherwise) => {
                let jumps = self.clauses(clauses.as_slice(), *pos, exit)?;
                self.otherwise(otherwise, exit)?;
                self.settle_jumps(jumps.as_slice(), *pos);
                Ok(())
            }
            Stat::While(..) | Stat::Repeat(..) | Stat::NumericFor(..) | Stat::GenericFor(..) => {
                self.repetition(stat, exit)?;
                Ok(())
            }
            Stat::Function(pos, target, function) => {
                let instr = self.store(target);
                self.skip(exp_locals(target)?)?;
                self.exp(function)?;
                self.put(instr, *pos)?;
                Ok(())
            }
            Stat::Method(_, object, _, function) => {
                let before = sum(exp_locals(object)?, 1)?;
                self.skip(sum(before, exp_locals(function)?)?)?;
                Ok(())
            }
            Stat::LocalFunction(pos, _, function) => {
                let slot = self.free();
                let local = self.next();
                self.put(Instr::Nil, *pos)?;
                self.put(Instr::SetSlot(slot), *pos)?;
                self.put(Instr::NewCell(slot), *pos)?;
                self.declare(1, local)?;
                self.skip(1)?;
                self.exp(function)?;
                self.put(Instr::SetCell(slot), *pos)?;
                Ok(())
            }
            Stat::Local(pos, names, values) => {
                let slot = self.free();
                let local = self.next();
                let count = names.len() as u64;
                self.skip(count)?;
                self.list(*pos, values.as_slice())?;
                self.put(Instr::Spread(count), *pos)?;
                self.begin_locals(slot, count, *pos)?;
                self.declare(count, local)?;
                Ok(())
            }
        }
    }

    /// A loop. Other statements are passed over.
    #[cycle(writing)]
    fn repetition(&mut self, stat: &Stat, exit: u64) -> Result<(), NoMemory>
        ensures { OnOk result (is_loop (stat_of stat.now) ≡ true → self.new ≡ with_stat (stat_of stat.now) exit self.old) }
    {
        match stat {
            Stat::While(pos, condition, block) => {
                let next = self.next();
                let turn = sum(self.place(), 1)?;
                let behind = self.begin_while(condition, block, *pos)?;
                self.scoped(block, behind)?;
                let passed = self.next();
                self.set_next(next);
                self.exp(condition)?;
                self.put(Instr::JumpIf(turn), *pos)?;
                self.set_next(passed);
                Ok(())
            }
            Stat::Repeat(pos, block, condition) => {
                let start = self.place();
                let count = self.count();
                let free = self.free();
                let behind = self.begin_repeat(block, condition, *pos)?;
                self.block(block, behind)?;
                self.exp(condition)?;
                self.put(Instr::JumpIfNot(start), *pos)?;
                self.leave(count, free);
                Ok(())
            }
            Stat::NumericFor(pos, _, first, limit, step, block) => {
                let slot = self.free();
                let count = self.count();
                let local = self.next();
                let second = sum(slot, 1)?;
                self.skip(1)?;
                self.exp(first)?;
                self.end_bound(first.pos(), slot, *pos)?;
                self.exp(limit)?;
                self.end_bound(limit.pos(), second, *pos)?;
                let place = self.step(step, *pos)?;
                let turn = sum(self.place(), 2)?;
                let behind = self.begin_count(slot, local, place, block, *pos)?;
                self.scoped(block, behind)?;
                self.put(Instr::ForStep(slot, turn), *pos)?;
                self.leave(count, slot);
                Ok(())
            }
            Stat::GenericFor(pos, names, values, block) => {
                let slot = self.free();
                let count = self.count();
                let local = self.next();
                let variables = names.len() as u64;
                self.skip(variables)?;
                self.list(*pos, values.as_slice())?;
                let turn = sum(self.place(), 5)?;
                let test = self.begin_each(slot, variables, local, block, *pos)?;
                let behind = sum(test, 13)?;
                self.scoped(block, behind)?;
                self.iterate(slot, turn, *pos, first_place(*pos, values.as_slice()))?;
                self.leave(count, slot);
                Ok(())
            }
            Stat::Empty(_)
            | Stat::Assign(..)
            | Stat::Call(..)
            | Stat::Break(_)
            | Stat::Do(..)
            | Stat::If(..)
            | Stat::Function(..)
            | Stat::Method(..)
            | Stat::LocalFunction(..)
            | Stat::Local(..)
            | Stat::Interface(..)
            | Stat::Alias(..) => Ok(()),
        }
    }
}
