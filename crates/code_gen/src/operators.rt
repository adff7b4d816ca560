ghost use Rattle.std.specs.Prelude.{◌≡◌, OnOk};
ghost use Rattle.lua_code.specs.Generated.{unary_instr as unary_instr_of};
ghost use Rattle.code_gen.specs.Work.{put_all};
ghost use Rattle.code_gen.specs.Pieces.{between as between_them, settled, behind as behind_both};

use crate::writer::Writer;
use lua_code::Instr;
use lua_tree::{BinaryOperator, UnaryOperator};
use tl_base::{NoMemory, Pos};

/// The instruction of an operator before its operand.
pub fn unary_instr(operator: UnaryOperator) -> Instr
    ensures { result ≡ unary_instr_of operator }
{
    match operator {
        UnaryOperator::Not => Instr::Not,
        UnaryOperator::Length => Instr::Len,
        UnaryOperator::Negate => Instr::Neg,
        UnaryOperator::BitNot => Instr::BNot,
    }
}

impl<'a> Writer<'a> {
    /// What stands between the operands of an operation. A jump among it leads nowhere yet.
    #[tactic(auto, using(crate::proofs::Put::put_none), unfolding(crate::specs::Work::put_all))]
    pub fn between(&mut self, operator: BinaryOperator, pos: Pos, slot: u64) -> Result<(), NoMemory>
        ensures { OnOk result (self.new ≡ put_all (between_them operator pos slot 0) self.old) }
    {
        match operator {
            BinaryOperator::Or => self.put(Instr::KeepIf(0), pos),
            BinaryOperator::And => self.put(Instr::KeepIfNot(0), pos),
            BinaryOperator::Greater | BinaryOperator::GreaterEqual => {
                self.put(Instr::SetSlot(slot), pos)
            }
            BinaryOperator::Less
            | BinaryOperator::LessEqual
            | BinaryOperator::NotEqual
            | BinaryOperator::Equal
            | BinaryOperator::BitOr
            | BinaryOperator::BitXor
            | BinaryOperator::BitAnd
            | BinaryOperator::ShiftLeft
            | BinaryOperator::ShiftRight
            | BinaryOperator::Concat
            | BinaryOperator::Add
            | BinaryOperator::Subtract
            | BinaryOperator::Multiply
            | BinaryOperator::Divide
            | BinaryOperator::Modulo => Ok(()),
        }
    }

    /// Both operands of an operation are written. The jump between them, at a place, leads to where the writing stands.
    pub fn settle(&mut self, operator: BinaryOperator, pos: Pos, place: u64)
        ensures { self.new ≡ settled operator pos place self.old }
    {
        let end = self.place();
        match operator {
            BinaryOperator::Or => self.patch(place, Instr::KeepIf(end), pos),
            BinaryOperator::And => self.patch(place, Instr::KeepIfNot(end), pos),
            BinaryOperator::Less
            | BinaryOperator::Greater
            | BinaryOperator::LessEqual
            | BinaryOperator::GreaterEqual
            | BinaryOperator::NotEqual
            | BinaryOperator::Equal
            | BinaryOperator::BitOr
            | BinaryOperator::BitXor
            | BinaryOperator::BitAnd
            | BinaryOperator::ShiftLeft
            | BinaryOperator::ShiftRight
            | BinaryOperator::Concat
            | BinaryOperator::Add
            | BinaryOperator::Subtract
            | BinaryOperator::Multiply
            | BinaryOperator::Divide
            | BinaryOperator::Modulo => {}
        }
    }

    /// What stands behind both operands of an operation.
    #[tactic(auto, unfolding(crate::specs::Work::put_all))]
    pub fn behind(&mut self, operator: BinaryOperator, pos: Pos, slot: u64) -> Result<(), NoMemory>
        ensures { OnOk result (self.new ≡ put_all (behind_both operator pos slot) self.old) }
    {
        match operator {
            BinaryOperator::Or | BinaryOperator::And => Ok(()),
            BinaryOperator::Less => self.put(Instr::Lt, pos),
            BinaryOperator::Greater => {
                self.put(Instr::GetSlot(slot), pos)?;
                self.put(Instr::Lt, pos)
            }
            BinaryOperator::LessEqual => self.put(Instr::Le, pos),
            BinaryOperator::GreaterEqual => {
                self.put(Instr::GetSlot(slot), pos)?;
                self.put(Instr::Le, pos)
            }
            BinaryOperator::NotEqual => {
                self.put(Instr::Eq, pos)?;
                self.put(Instr::Not, pos)
            }
            BinaryOperator::Equal => self.put(Instr::Eq, pos),
            BinaryOperator::BitOr => self.put(Instr::BOr, pos),
            BinaryOperator::BitXor => self.put(Instr::BXor, pos),
            BinaryOperator::BitAnd => self.put(Instr::BAnd, pos),
            BinaryOperator::ShiftLeft => self.put(Instr::Shl, pos),
            BinaryOperator::ShiftRight => self.put(Instr::Shr, pos),
            BinaryOperator::Concat => self.put(Instr::Concat, pos),
            BinaryOperator::Add => self.put(Instr::Add, pos),
            BinaryOperator::Subtract => self.put(Instr::Sub, pos),
            BinaryOperator::Multiply => self.put(Instr::Mul, pos),
            BinaryOperator::Divide => self.put(Instr::IDiv, pos),
            BinaryOperator::Modulo => self.put(Instr::Mod, pos),
        }
    }
}
