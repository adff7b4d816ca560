ghost use Rattle.std.specs.Prelude.{◌≡◌, ◌≤◌};
ghost use Rattle.lua_parser.specs.Grammar.Levels.{level, left_level, right_level};

use lua_tree::BinaryOperator;

/// How tightly an operator binds, from 1 for `or` to 10 for `*`.
pub(crate) fn level(operator: BinaryOperator) -> u8
    ensures value { result ≡ level operator }
    ensures most { result ≤ 10 }
{
    match operator {
        BinaryOperator::Or => 1,
        BinaryOperator::And => 2,
        BinaryOperator::Less
        | BinaryOperator::Greater
        | BinaryOperator::LessEqual
        | BinaryOperator::GreaterEqual
        | BinaryOperator::NotEqual
        | BinaryOperator::Equal => 3,
        BinaryOperator::BitOr => 4,
        BinaryOperator::BitXor => 5,
        BinaryOperator::BitAnd => 6,
        BinaryOperator::ShiftLeft | BinaryOperator::ShiftRight => 7,
        BinaryOperator::Concat => 8,
        BinaryOperator::Add | BinaryOperator::Subtract => 9,
        BinaryOperator::Multiply | BinaryOperator::Divide | BinaryOperator::Modulo => 10,
    }
}

/// The least level of a right operand: `..` is right associative, the others left.
pub(crate) fn right_level(operator: BinaryOperator) -> u8
    ensures { result ≡ right_level operator }
{
    match operator {
        BinaryOperator::Concat => 8,
        BinaryOperator::Or
        | BinaryOperator::And
        | BinaryOperator::Less
        | BinaryOperator::Greater
        | BinaryOperator::LessEqual
        | BinaryOperator::GreaterEqual
        | BinaryOperator::NotEqual
        | BinaryOperator::Equal
        | BinaryOperator::BitOr
        | BinaryOperator::BitXor
        | BinaryOperator::BitAnd
        | BinaryOperator::ShiftLeft
        | BinaryOperator::ShiftRight
        | BinaryOperator::Add
        | BinaryOperator::Subtract
        | BinaryOperator::Multiply
        | BinaryOperator::Divide
        | BinaryOperator::Modulo => level(operator) + 1,
    }
}

/// The least level of a left operand.
pub(crate) fn left_level(operator: BinaryOperator) -> u8
    ensures { result ≡ left_level operator }
{
    match operator {
        BinaryOperator::Concat => 9,
        BinaryOperator::Or
        | BinaryOperator::And
        | BinaryOperator::Less
        | BinaryOperator::Greater
        | BinaryOperator::LessEqual
        | BinaryOperator::GreaterEqual
        | BinaryOperator::NotEqual
        | BinaryOperator::Equal
        | BinaryOperator::BitOr
        | BinaryOperator::BitXor
        | BinaryOperator::BitAnd
        | BinaryOperator::ShiftLeft
        | BinaryOperator::ShiftRight
        | BinaryOperator::Add
        | BinaryOperator::Subtract
        | BinaryOperator::Multiply
        | BinaryOperator::Divide
        | BinaryOperator::Modulo => level(operator),
    }
}
