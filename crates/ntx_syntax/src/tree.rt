//! The tree of a script (Lua 5.3 Reference Manual, section 9).
//!
//! Operators of one precedence that associate to the left and stand one after the other, the suffixes of a name or of a
//! parenthesized expression, and the arms of an `if` are lists: a long flat script has a flat tree.
//!
//! The wide parts of statements, expressions and fields are boxed, so that lists of these are narrow: a statement takes 72
//! bytes and an expression 64.

use sqlite_items::{Boxed, Items};

/// The bytes of a name.
pub type Name = Items<u8>;

/// A name that is declared local, a parameter among them, and the line of its token, from 1.
#[derive(Drop)]
pub struct LocalName {
    /// The name.
    pub name: Name,
    /// The line of its token, from 1.
    pub line: u64,
}

/// A whole script.
#[derive(Drop)]
pub struct Chunk {
    /// What it does.
    pub block: Block,
}

/// Statements, and `return` where the block ends in one.
#[cycle(tree)]
#[derive(Drop)]
pub struct Block {
    /// The statements before `return`.
    pub stats: Items<Stat>,
    /// The last statement, if it is `return`.
    pub last: Option<Return>,
}

/// `return` and its values.
#[cycle(tree)]
#[derive(Drop)]
pub struct Return {
    /// The line of `return`, from 1.
    pub line: u64,
    /// The values.
    pub values: Items<Exp>,
}

/// A statement.
#[cycle(tree)]
#[derive(Drop)]
pub struct Stat {
    /// The line of its first token, from 1.
    pub line: u64,
    /// What it is.
    pub kind: StatKind,
}

/// What a statement is.
#[cycle(tree)]
#[derive(Drop)]
pub enum StatKind {
    /// `;`
    Empty,
    /// `varlist = explist`
    Assign(Items<Var>, Items<Exp>),
    /// `call`
    Call(Boxed<Call>),
    /// `break`
    Break,
    /// `do block end`
    Do(Boxed<Block>),
    /// `while exp do block end`
    While(Boxed<Exp>, Boxed<Block>),
    /// `repeat block until exp`
    Repeat(Boxed<Block>, Boxed<Exp>),
    /// `if exp then block {elseif exp then block} [else block] end`: the arm of `if` and those of each `elseif`, and
    /// the block of `else`.
    If(Items<IfArm>, Option<Boxed<Block>>),
    /// `for Name = exp , exp [, exp] do block end`: the name, the first value, the limit, the step and the body.
    NumericFor(Boxed<LocalName>, Boxed<Exp>, Boxed<Exp>, Option<Boxed<Exp>>, Boxed<Block>),
    /// `for namelist in explist do block end`
    GenericFor(Items<LocalName>, Items<Exp>, Boxed<Block>),
    /// `function Name {. Name} body`: the first name, those after each `.`, and the body.
    Function(Name, Items<Name>, Boxed<FunctionBody>),
    /// `local function Name body`
    LocalFunction(LocalName, Boxed<FunctionBody>),
    /// `local namelist [= explist]`
    Local(Items<LocalName>, Items<Exp>),
}

/// `exp then block`, after `if` or `elseif`.
#[cycle(tree)]
#[derive(Drop)]
pub struct IfArm {
    /// The condition.
    pub condition: Exp,
    /// What is done where it holds.
    pub block: Block,
}

/// `( [namelist] ) block end`
#[cycle(tree)]
#[derive(Drop)]
pub struct FunctionBody {
    /// The parameters.
    pub parameters: Items<LocalName>,
    /// What the function does.
    pub block: Block,
}

/// What can be assigned to.
#[cycle(tree)]
#[derive(Drop)]
pub enum Var {
    /// `Name`
    Name(Name),
    /// `prefix [ exp ]`
    Index(Boxed<Prefix>, Boxed<Exp>),
    /// `prefix . Name`
    Field(Boxed<Prefix>, Name),
}

/// `prefix ( [explist] )`
#[cycle(tree)]
#[derive(Drop)]
pub struct Call {
    /// What is called.
    pub function: Prefix,
    /// The arguments.
    pub arguments: Items<Exp>,
}

/// A variable, a call or a parenthesized expression: its head, and what stands after it from the left.
#[cycle(tree)]
#[derive(Drop)]
pub struct Prefix {
    /// What it begins with.
    pub head: Head,
    /// What stands after, each applied to all before it.
    pub suffixes: Items<Suffix>,
}

/// What a prefix begins with.
#[cycle(tree)]
#[derive(Drop)]
pub enum Head {
    /// `Name`
    Name(Name),
    /// `( exp )`
    Parenthesized(Boxed<Exp>),
}

/// What stands after a prefix.
#[cycle(tree)]
#[derive(Drop)]
pub enum Suffix {
    /// `[ exp ]`
    Index(Boxed<Exp>),
    /// `. Name`
    Field(Name),
    /// `( [explist] )`
    Call(Items<Exp>),
}

/// An expression.
#[cycle(tree)]
#[derive(Drop)]
pub enum Exp {
    /// `nil`
    Nil,
    /// `false`
    False,
    /// `true`
    True,
    /// A numeral, as the integer that it represents.
    Numeral(i64),
    /// A text, as the bytes that it represents.
    Text(Items<u8>),
    /// `function body`
    Function(Boxed<FunctionBody>),
    /// `prefix`
    Prefix(Prefix),
    /// `{ [field {(,|;) field} [,|;]] }`
    Table(Items<Field>),
    /// `exp binop exp`: the first operand, and each operator of one precedence with the operand after it. Operators
    /// that associate to the right stand alone in their list.
    Binary(Boxed<Exp>, Items<Operation>),
    /// `unop exp`
    Unary(UnaryOp, Boxed<Exp>),
}

/// An operator and the operand after it.
#[cycle(tree)]
#[derive(Drop)]
pub struct Operation {
    /// The operator.
    pub operator: BinaryOp,
    /// The operand to its right.
    pub operand: Exp,
}

/// A field of a table.
#[cycle(tree)]
#[derive(Drop)]
pub enum Field {
    /// `[ exp ] = exp`
    Keyed(Boxed<Exp>, Boxed<Exp>),
    /// `Name = exp`
    Named(Name, Boxed<Exp>),
    /// `exp`
    Positional(Exp),
}

/// An operator between two operands.
#[derive(Clone, Copy, Debug, PartialEq, Eq)]
pub enum BinaryOp {
    /// `or`
    Or,
    /// `and`
    And,
    /// `<`
    Less,
    /// `>`
    Greater,
    /// `<=`
    LessEqual,
    /// `>=`
    GreaterEqual,
    /// `~=`
    NotEqual,
    /// `==`
    Equal,
    /// `|`
    BitOr,
    /// `~`
    BitXor,
    /// `&`
    BitAnd,
    /// `<<`
    ShiftLeft,
    /// `>>`
    ShiftRight,
    /// `..`
    Concat,
    /// `+`
    Add,
    /// `-`
    Subtract,
    /// `*`
    Multiply,
    /// `//`
    FloorDivide,
    /// `%`
    Modulo,
}

/// An operator before its operand.
#[derive(Clone, Copy, Debug, PartialEq, Eq)]
pub enum UnaryOp {
    /// `not`
    Not,
    /// `#`
    Length,
    /// `-`
    Minus,
    /// `~`
    BitNot,
}
