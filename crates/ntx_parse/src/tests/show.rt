//! A tree as a text: operators and their operands in parentheses, and each line before an at sign.

use super::operators::{binary_text, unary_text};
use ntx_syntax::{
    Block, Chunk, Exp, Field, FunctionBody, Head, IfArm, LocalName, Name, Operation, Prefix, Stat,
    StatKind, Suffix, Var,
};
use std::alloc::{AllocError, Global};

/// A part of a tree that is still to be shown.
#[derive(Clone, Copy)]
enum Part<'a> {
    Bytes(&'a [u8]),
    Integer(i64),
    Line(u64),
    Block(&'a Block),
    Stats(&'a [Stat]),
    Exp(&'a Exp),
    Exps(&'a [Exp]),
    Operations(&'a [Operation]),
    Prefix(&'a Prefix),
    Suffixes(&'a [Suffix]),
    Fields(&'a [Field]),
    Vars(&'a [Var]),
    Local(&'a LocalName),
    Locals(&'a [LocalName]),
    Path(&'a [Name]),
    Body(&'a FunctionBody),
    Arms(&'a [IfArm]),
}

/// What is still to be shown, the next part last.
#[derive(Drop)]
struct Parts<'a> {
    alloc: Global,
    parts: Vec<Part<'a>>,
}

impl<'a> Parts<'a> {
    /// Shows these parts next, in this order.
    fn show(&mut self, parts: &[Part<'a>]) -> Result<(), AllocError> {
        for part in parts.iter().rev() {
            self.parts.push(*part)?;
        }
        Ok(())
    }

    fn block(&mut self, block: &'a Block) -> Result<(), AllocError> {
        if let Some(last) = &block.last {
            self.show(&[
                Part::Line(last.line),
                Part::Bytes(b"return "),
                Part::Exps(last.values.as_slice()),
                Part::Bytes(b";"),
            ])?;
        }
        self.show(&[Part::Stats(block.stats.as_slice())])
    }

    fn stats(&mut self, stats: &'a [Stat]) -> Result<(), AllocError> {
        match stats {
            [] => Ok(()),
            [stat, rest @ ..] => {
                self.show(&[Part::Stats(rest)])?;
                self.show(&[Part::Bytes(b";")])?;
                self.kind(&stat.kind)?;
                self.show(&[Part::Line(stat.line)])
            }
        }
    }

    fn kind(&mut self, kind: &'a StatKind) -> Result<(), AllocError> {
        match kind {
            StatKind::Empty => self.show(&[Part::Bytes(b"empty")]),
            StatKind::Assign(vars, values) => self.show(&[
                Part::Vars(vars.as_slice()),
                Part::Bytes(b"="),
                Part::Exps(values.as_slice()),
            ]),
            StatKind::Call(call) => self.show(&[
                Part::Bytes(b"call "),
                Part::Prefix(&call.get().function),
                Part::Bytes(b"("),
                Part::Exps(call.get().arguments.as_slice()),
                Part::Bytes(b")"),
            ]),
            StatKind::Break => self.show(&[Part::Bytes(b"break")]),
            StatKind::Do(body) => {
                self.show(&[Part::Bytes(b"do "), Part::Block(body.get()), END])
            },
            StatKind::If(arms, other) => {
                self.show(&[END])?;
                if let Some(block) = other {
                    self.show(&[Part::Bytes(b"else "), Part::Block(block.get())])?;
                }
                self.show(&[Part::Arms(arms.as_slice())])
            }
            _ => self.loop_kind(kind),
        }
    }

    fn loop_kind(&mut self, kind: &'a StatKind) -> Result<(), AllocError> {
        match kind {
            StatKind::While(condition, body) => self.show(&[
                Part::Bytes(b"while "),
                Part::Exp(condition.get()),
                Part::Bytes(b" do "),
                Part::Block(body.get()),
                END,
            ]),
            StatKind::Repeat(body, condition) => self.show(&[
                Part::Bytes(b"repeat "),
                Part::Block(body.get()),
                Part::Bytes(b"until "),
                Part::Exp(condition.get()),
            ]),
            StatKind::NumericFor(name, first, limit, step, body) => {
                self.show(&[Part::Bytes(b" do "), Part::Block(body.get()), END])?;
                if let Some(step) = step {
                    self.show(&[COMMA, Part::Exp(step.get())])?;
                }
                self.show(&[
                    Part::Bytes(b"for "),
                    Part::Local(name.get()),
                    Part::Bytes(b"="),
                    Part::Exp(first.get()),
                    COMMA,
                    Part::Exp(limit.get()),
                ])
            }
            StatKind::GenericFor(names, values, body) => self.show(&[
                Part::Bytes(b"for "),
                Part::Locals(names.as_slice()),
                Part::Bytes(b" in "),
                Part::Exps(values.as_slice()),
                Part::Bytes(b" do "),
                Part::Block(body.get()),
                END,
            ]),
            _ => self.binding_kind(kind),
        }
    }

    fn binding_kind(&mut self, kind: &'a StatKind) -> Result<(), AllocError> {
        match kind {
            StatKind::Function(name, path, body) => self.show(&[
                Part::Bytes(b"function "),
                Part::Bytes(name.as_slice()),
                Part::Path(path.as_slice()),
                Part::Body(body.get()),
            ]),
            StatKind::LocalFunction(name, body) => self.show(&[
                Part::Bytes(b"local function "),
                Part::Local(name),
                Part::Body(body.get()),
            ]),
            StatKind::Local(names, values) => self.show(&[
                Part::Bytes(b"local "),
                Part::Locals(names.as_slice()),
                Part::Bytes(b"="),
                Part::Exps(values.as_slice()),
            ]),
            _ => Ok(()),
        }
    }

    fn arms(&mut self, arms: &'a [IfArm]) -> Result<(), AllocError> {
        match arms {
            [] => Ok(()),
            [arm, rest @ ..] => self.show(&[
                Part::Bytes(b"if "),
                Part::Exp(&arm.condition),
                Part::Bytes(b" then "),
                Part::Block(&arm.block),
                Part::Arms(rest),
            ]),
        }
    }

    fn exp(&mut self, exp: &'a Exp) -> Result<(), AllocError> {
        match exp {
            Exp::Nil => self.show(&[Part::Bytes(b"nil")]),
            Exp::False => self.show(&[Part::Bytes(b"false")]),
            Exp::True => self.show(&[Part::Bytes(b"true")]),
            Exp::Numeral(value) => self.show(&[Part::Integer(*value)]),
            Exp::Text(bytes) => self.show(&[QUOTE, Part::Bytes(bytes.as_slice()), QUOTE]),
            Exp::Function(body) => {
                self.show(&[Part::Bytes(b"function"), Part::Body(body.get())])
            }
            Exp::Prefix(prefix) => self.show(&[Part::Prefix(prefix)]),
            Exp::Table(fields) => self.show(&[
                Part::Bytes(b"{"),
                Part::Fields(fields.as_slice()),
                Part::Bytes(b"}"),
            ]),
            Exp::Binary(first, others) => self.show(&[
                Part::Bytes(b"("),
                Part::Exp(first.get()),
                Part::Operations(others.as_slice()),
                Part::Bytes(b")"),
            ]),
            Exp::Unary(operator, operand) => self.show(&[
                Part::Bytes(b"("),
                Part::Bytes(unary_text(*operator)),
                Part::Exp(operand.get()),
                Part::Bytes(b")"),
            ]),
        }
    }

    fn exps(&mut self, exps: &'a [Exp]) -> Result<(), AllocError> {
        match exps {
            [] => Ok(()),
            [exp] => self.show(&[Part::Exp(exp)]),
            [exp, rest @ ..] => self.show(&[Part::Exp(exp), COMMA, Part::Exps(rest)]),
        }
    }

    fn operations(&mut self, operations: &'a [Operation]) -> Result<(), AllocError> {
        match operations {
            [] => Ok(()),
            [operation, rest @ ..] => self.show(&[
                Part::Bytes(binary_text(operation.operator)),
                Part::Exp(&operation.operand),
                Part::Operations(rest),
            ]),
        }
    }

    fn prefix(&mut self, prefix: &'a Prefix) -> Result<(), AllocError> {
        self.show(&[Part::Suffixes(prefix.suffixes.as_slice())])?;
        match &prefix.head {
            Head::Name(name) => self.show(&[Part::Bytes(name.as_slice())]),
            Head::Parenthesized(exp) => self.show(&[
                Part::Bytes(b"<"),
                Part::Exp(exp.get()),
                Part::Bytes(b">"),
            ]),
        }
    }

    fn suffixes(&mut self, suffixes: &'a [Suffix]) -> Result<(), AllocError> {
        let [suffix, rest @ ..] = suffixes else {
            return Ok(());
        };
        self.show(&[Part::Suffixes(rest)])?;
        match suffix {
            Suffix::Index(key) => {
                self.show(&[Part::Bytes(b"["), Part::Exp(key.get()), Part::Bytes(b"]")])
            }
            Suffix::Field(name) => self.show(&[Part::Bytes(b"."), Part::Bytes(name.as_slice())]),
            Suffix::Call(arguments) => self.show(&[
                Part::Bytes(b"("),
                Part::Exps(arguments.as_slice()),
                Part::Bytes(b")"),
            ]),
        }
    }

    fn fields(&mut self, fields: &'a [Field]) -> Result<(), AllocError> {
        let [field, rest @ ..] = fields else {
            return Ok(());
        };
        self.show(&[Part::Bytes(b";"), Part::Fields(rest)])?;
        match field {
            Field::Keyed(key, value) => self.show(&[
                Part::Bytes(b"["),
                Part::Exp(key.get()),
                Part::Bytes(b"]="),
                Part::Exp(value.get()),
            ]),
            Field::Named(name, value) => self.show(&[
                Part::Bytes(name.as_slice()),
                Part::Bytes(b"="),
                Part::Exp(value.get()),
            ]),
            Field::Positional(value) => self.show(&[Part::Exp(value)]),
        }
    }

    fn vars(&mut self, vars: &'a [Var]) -> Result<(), AllocError> {
        let [var, rest @ ..] = vars else {
            return Ok(());
        };
        if !rest.is_empty() {
            self.show(&[COMMA, Part::Vars(rest)])?;
        }
        match var {
            Var::Name(name) => self.show(&[Part::Bytes(name.as_slice())]),
            Var::Index(prefix, key) => self.show(&[
                Part::Prefix(prefix.get()),
                Part::Bytes(b"["),
                Part::Exp(key.get()),
                Part::Bytes(b"]"),
            ]),
            Var::Field(prefix, name) => self.show(&[
                Part::Prefix(prefix.get()),
                Part::Bytes(b"."),
                Part::Bytes(name.as_slice()),
            ]),
        }
    }

    fn locals(&mut self, names: &'a [LocalName]) -> Result<(), AllocError> {
        match names {
            [] => Ok(()),
            [name] => self.show(&[Part::Local(name)]),
            [name, rest @ ..] => self.show(&[Part::Local(name), COMMA, Part::Locals(rest)]),
        }
    }

    fn path(&mut self, path: &'a [Name]) -> Result<(), AllocError> {
        match path {
            [] => Ok(()),
            [name, rest @ ..] => self.show(&[
                Part::Bytes(b"."),
                Part::Bytes(name.as_slice()),
                Part::Path(rest),
            ]),
        }
    }

    /// Puts what a part says itself into `out`, and its own parts before all others.
    fn step(&mut self, out: &mut Vec<u8>, part: Part<'a>) -> Result<(), AllocError> {
        match part {
            Part::Bytes(bytes) => out.extend_from_slice(bytes),
            Part::Integer(value) => {
                out.extend_from_slice(value.to_string(self.alloc)?.as_str().as_bytes())
            }
            Part::Line(line) => {
                out.extend_from_slice(line.to_string(self.alloc)?.as_str().as_bytes())?;
                out.extend_from_slice(b"@")
            }
            Part::Block(block) => self.block(block),
            Part::Stats(stats) => self.stats(stats),
            Part::Exp(exp) => self.exp(exp),
            Part::Exps(exps) => self.exps(exps),
            Part::Operations(operations) => self.operations(operations),
            Part::Prefix(prefix) => self.prefix(prefix),
            Part::Suffixes(suffixes) => self.suffixes(suffixes),
            Part::Fields(fields) => self.fields(fields),
            Part::Vars(vars) => self.vars(vars),
            Part::Local(name) => {
                self.show(&[Part::Line(name.line), Part::Bytes(name.name.as_slice())])
            }
            Part::Locals(names) => self.locals(names),
            Part::Path(path) => self.path(path),
            Part::Body(body) => self.show(&[
                Part::Bytes(b"("),
                Part::Locals(body.parameters.as_slice()),
                Part::Bytes(b") "),
                Part::Block(&body.block),
                END,
            ]),
            Part::Arms(arms) => self.arms(arms),
        }
    }
}

const END: Part<'static> = Part::Bytes(b"end");

const COMMA: Part<'static> = Part::Bytes(b",");

const QUOTE: Part<'static> = Part::Bytes(b"\"");

/// A tree as a text.
pub fn shown(alloc: Global, chunk: &Chunk) -> Result<Vec<u8>, AllocError> {
    let mut out = Vec::new(alloc);
    let mut parts = Parts {
        alloc,
        parts: Vec::new(alloc),
    };
    parts.show(&[Part::Block(&chunk.block)])?;
    for _ in 0..1_000_000 {
        match parts.parts.pop() {
            None => break,
            Some(part) => parts.step(&mut out, part)?,
        }
    }
    Ok(out)
}
