//! The operators.

ghost use Rattle.std.specs.Prelude.{◌≡◌};
ghost use Rattle.ntx_parse.specs.Grammar as grammar;
ghost use Rattle.ntx_parse.specs.inner.Reading as reading;

use crate::precedence::Precedence;
use ntx_syntax::{BinaryOp, Terminal, UnaryOp};

/// The operator between two operands that this is, if it is one.
pub fn binary_of(terminal: Terminal) -> Option<BinaryOp>
    ensures { result ≡ reading.binary_of terminal }
{
    match terminal {
        Terminal::Or => Some(BinaryOp::Or),
        Terminal::And => Some(BinaryOp::And),
        Terminal::Less => Some(BinaryOp::Less),
        Terminal::Greater => Some(BinaryOp::Greater),
        Terminal::LessEqual => Some(BinaryOp::LessEqual),
        Terminal::GreaterEqual => Some(BinaryOp::GreaterEqual),
        Terminal::NotEqual => Some(BinaryOp::NotEqual),
        Terminal::Equal => Some(BinaryOp::Equal),
        Terminal::Bar => Some(BinaryOp::BitOr),
        Terminal::Tilde => Some(BinaryOp::BitXor),
        Terminal::Ampersand => Some(BinaryOp::BitAnd),
        Terminal::ShiftLeft => Some(BinaryOp::ShiftLeft),
        Terminal::ShiftRight => Some(BinaryOp::ShiftRight),
        Terminal::DoubleDot => Some(BinaryOp::Concat),
        Terminal::Plus => Some(BinaryOp::Add),
        Terminal::Minus => Some(BinaryOp::Subtract),
        Terminal::Star => Some(BinaryOp::Multiply),
        Terminal::DoubleSlash => Some(BinaryOp::FloorDivide),
        Terminal::Percent => Some(BinaryOp::Modulo),
        _ => None,
    }
}

/// The precedence of an operator between two operands.
pub fn precedence_of(operator: BinaryOp) -> Precedence
    ensures { result ≡ grammar.binary_precedence operator }
{
    match operator {
        BinaryOp::Or => Precedence::Or,
        BinaryOp::And => Precedence::And,
        BinaryOp::Less
        | BinaryOp::Greater
        | BinaryOp::LessEqual
        | BinaryOp::GreaterEqual
        | BinaryOp::NotEqual
        | BinaryOp::Equal => Precedence::Comparison,
        BinaryOp::BitOr => Precedence::BitOr,
        BinaryOp::BitXor => Precedence::BitXor,
        BinaryOp::BitAnd => Precedence::BitAnd,
        BinaryOp::ShiftLeft | BinaryOp::ShiftRight => Precedence::Shift,
        BinaryOp::Concat => Precedence::Concat,
        BinaryOp::Add | BinaryOp::Subtract => Precedence::Additive,
        BinaryOp::Multiply | BinaryOp::FloorDivide | BinaryOp::Modulo => {
            Precedence::Multiplicative
        }
    }
}

/// The operator before an operand that this is, if it is one.
pub fn unary_of(terminal: Terminal) -> Option<UnaryOp>
    ensures { result ≡ reading.unary_of terminal }
{
    match terminal {
        Terminal::Not => Some(UnaryOp::Not),
        Terminal::Hash => Some(UnaryOp::Length),
        Terminal::Minus => Some(UnaryOp::Minus),
        Terminal::Tilde => Some(UnaryOp::BitNot),
        _ => None,
    }
}
