//! Operators as texts.

use ntx_syntax::{BinaryOp, UnaryOp};

/// An operator between operands as it is shown.
pub fn binary_text(operator: BinaryOp) -> &'static [u8] {
    match operator {
        BinaryOp::Or => b" or ",
        BinaryOp::And => b" and ",
        BinaryOp::Less => b"<",
        BinaryOp::Greater => b">",
        BinaryOp::LessEqual => b"<=",
        BinaryOp::GreaterEqual => b">=",
        BinaryOp::NotEqual => b"~=",
        BinaryOp::Equal => b"==",
        BinaryOp::BitOr => b"|",
        BinaryOp::BitXor => b"~",
        BinaryOp::BitAnd => b"&",
        BinaryOp::ShiftLeft => b"<<",
        BinaryOp::ShiftRight => b">>",
        BinaryOp::Concat => b"..",
        BinaryOp::Add => b"+",
        BinaryOp::Subtract => b"-",
        BinaryOp::Multiply => b"*",
        BinaryOp::FloorDivide => b"//",
        BinaryOp::Modulo => b"%",
    }
}

/// An operator before an operand as it is shown.
pub fn unary_text(operator: UnaryOp) -> &'static [u8] {
    match operator {
        UnaryOp::Not => b"not ",
        UnaryOp::Length => b"#",
        UnaryOp::Minus => b"-",
        UnaryOp::BitNot => b"~",
    }
}
