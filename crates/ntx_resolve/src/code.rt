//! The code of a script: its tree, in which each use of a name says which variable it is.
//!
//! The bodies of functions are numbers into a list of the code, so that expressions do not lead back to blocks.
//! What else stands in the tree stands here too, names and lines among it.

use ntx_syntax::{BinaryOp, LocalName, Name, UnaryOp};
use sqlite_items::{Boxed, Items};

/// The variable that a name is where it is used (Lua 5.3 Reference Manual, section 3.5).
#[derive(Clone, Copy, Debug, PartialEq, Eq)]
pub enum Variable {
    /// A local variable of the function in which the name stands: how many older ones of this function are in scope.
    Local(u64),
    /// A local variable of an enclosing function: how many older ones, of all enclosing functions, are in scope
    /// where the function in which the name stands is made.
    Upvalue(u64),
    /// No local variable: an entry of the table of globals.
    Global,
}

/// The code of a whole script.
#[derive(Drop)]
pub struct Code {
    /// Functions by number: the code of a body stands at the number that the code has in its place. Nothing else in the list is
    /// ever used.
    pub functions: Items<Function>,
    /// What the script does.
    pub block: Block,
}

/// A function: `( [namelist] ) block end`
#[derive(Drop)]
pub struct Function {
    /// The parameters, which are its first local variables.
    pub parameters: Items<LocalName>,
    /// What the function does.
    pub block: Block,
}

/// Statements, and `return` where the block ends in one.
#[cycle(code)]
#[derive(Drop)]
pub struct Block {
    /// The statements before `return`.
    pub stats: Items<Stat>,
    /// The last statement, if it is `return`.
    pub last: Option<Return>,
}

/// `return` and its values.
#[derive(Drop)]
pub struct Return {
    /// The line of `return`, from 1.
    pub line: u64,
    /// The values.
    pub values: Items<Exp>,
}

/// A statement.
#[cycle(code)]
#[derive(Drop)]
pub struct Stat {
    /// The line of its first token, from 1.
    pub line: u64,
    /// What it is.
    pub kind: StatKind,
}

/// What a statement is.
#[cycle(code)]
#[derive(Drop)]
pub enum StatKind {
    /// `;`
    Empty,
    /// `varlist = explist`
    Assign(Items<Var>, Items<Exp>),
    /// `call`
    Call(Boxed<Call>),
    /// `break`
    Break,
    /// `do block end`
    Do(Boxed<Block>),
    /// `while exp do block end`
    While(Boxed<Exp>, Boxed<Block>),
    /// `repeat block until exp`
    Repeat(Boxed<Block>, Boxed<Exp>),
    /// `if exp then block {elseif exp then block} [else block] end`: the arm of `if` and those of each `elseif`, and
    /// the block of `else`.
    If(Items<IfArm>, Option<Boxed<Block>>),
    /// `for Name = exp , exp [, exp] do block end`: the name, the first value, the limit, the step and the body.
    NumericFor(Boxed<LocalName>, Boxed<Exp>, Boxed<Exp>, Option<Boxed<Exp>>, Boxed<Block>),
    /// `for namelist in explist do block end`
    GenericFor(Items<LocalName>, Items<Exp>, Boxed<Block>),
    /// `function Name {. Name} body`: the first name and its variable, the names after each `.`, and the number of the
    /// function.
    Function(Name, Variable, Items<Name>, u64),
    /// `local function Name body`: the name and the number of the function.
    LocalFunction(LocalName, u64),
    /// `local namelist [= explist]`
    Local(Items<LocalName>, Items<Exp>),
}

/// `exp then block`, after `if` or `elseif`.
#[cycle(code)]
#[derive(Drop)]
pub struct IfArm {
    /// The condition.
    pub condition: Exp,
    /// What is done if it holds.
    pub block: Block,
}

/// What can be assigned to.
#[derive(Drop)]
pub enum Var {
    /// `Name`, and its variable.
    Name(Name, Variable),
    /// `prefix [ exp ]`
    Index(Boxed<Prefix>, Boxed<Exp>),
    /// `prefix . Name`
    Field(Boxed<Prefix>, Name),
}

/// `prefix ( [explist] )`
#[derive(Drop)]
pub struct Call {
    /// What is called.
    pub function: Prefix,
    /// The arguments.
    pub arguments: Items<Exp>,
}

/// A variable, a call or a parenthesized expression: its head, and what stands after it from the left.
#[cycle(parts)]
#[derive(Drop)]
pub struct Prefix {
    /// What it begins with.
    pub head: Head,
    /// What stands after it, each applied to all before it.
    pub suffixes: Items<Suffix>,
}

/// What a prefix begins with.
#[cycle(parts)]
#[derive(Drop)]
pub enum Head {
    /// `Name`, and its variable.
    Name(Name, Variable),
    /// `( exp )`
    Parenthesized(Boxed<Exp>),
}

/// What stands after a prefix.
#[cycle(parts)]
#[derive(Drop)]
pub enum Suffix {
    /// `[ exp ]`
    Index(Boxed<Exp>),
    /// `. Name`
    Field(Name),
    /// `( [explist] )`
    Call(Items<Exp>),
}

/// An expression.
#[cycle(parts)]
#[derive(Drop)]
pub enum Exp {
    /// `nil`
    Nil,
    /// `false`
    False,
    /// `true`
    True,
    /// A numeral, as the integer that it writes.
    Numeral(i64),
    /// A text, as the bytes that it writes.
    Text(Items<u8>),
    /// `function body`, as the number of the function.
    Function(u64),
    /// `prefix`
    Prefix(Prefix),
    /// `{ [field {(,|;) field} [,|;]] }`
    Table(Items<Field>),
    /// `exp binop exp`: the first operand, and each operator of one precedence with the operand after it.
    Binary(Boxed<Exp>, Items<Operation>),
    /// `unop exp`
    Unary(UnaryOp, Boxed<Exp>),
}

/// An operator and the operand after it.
#[cycle(parts)]
#[derive(Drop)]
pub struct Operation {
    /// The operator.
    pub operator: BinaryOp,
    /// The operand to its right.
    pub operand: Exp,
}

/// A field of a table.
#[cycle(parts)]
#[derive(Drop)]
pub enum Field {
    /// `[ exp ] = exp`
    Keyed(Boxed<Exp>, Boxed<Exp>),
    /// `Name = exp`
    Named(Name, Boxed<Exp>),
    /// `exp`
    Positional(Exp),
}
