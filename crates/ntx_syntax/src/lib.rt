//! The syntax of scripts: tokens, faults, and the tree of a script.
//!
//! Scripts are written in a profile of Lua 5.3 (Lua 5.3 Reference Manual, sections 3.1 and 9). Unlike Lua it has integers
//! alone, and no decimal one above 2^63-1; texts on one line, without the escapes `\z` and `\u`; no long texts; fewer
//! symbols; space, tab, CR and LF as the only blanks, and LF alone to end a line; and no letter, `_` or `.` directly after
//! a numeral.
//!
//! The crate cuts a script into its tokens, and has the types of the tree that a parser makes of them. It stands on
//! `ntx_num` for answers and on `sqlite_items` for the lists and boxes by which a tree holds its parts.
#![tactic(auto)]

mod bytes;
mod comment;
mod fault;
mod laws;
mod lex;
mod numeral;
mod piece;
mod symbol;
mod terminal;
mod text;
mod token;
mod tree;
mod word;

pub use fault::{SyntaxFault, SyntaxWhy};
pub use laws::{
    cut_is_one, is_refused_as_computed, keywords_are_listed, lexes_as_computed, lexes_once,
    numerals_have_values, symbols_are_listed, texts_have_values, tokens_stand_in_order,
};
pub use lex::{line_ends, tokens};
pub use numeral::numeral_value;
pub use piece::Piece;
pub use terminal::{Terminal, terminal_of};
pub use text::text_value;
pub use token::{Sort, Token};
pub use tree::{
    BinaryOp, Block, Call, Chunk, Exp, Field, FunctionBody, Head, IfArm, LocalName, Name,
    Operation, Prefix, Return, Stat, StatKind, Suffix, UnaryOp, Var,
};

#[cfg(test)]
mod tests;
