//! Expressions.

ghost use Rattle.std.specs.Prelude.{◌≡◌, ◌≢◌, ◌≤◌, ◌<◌, ◌+◌, ◌*◌, length, [], ◌∷◌, Some, IfOk, OnOk};
ghost use Rattle.ntx_syntax.specs.declared.tree.Exp.TheVariants as exp;
ghost use Rattle.ntx_syntax.specs.declared.tree.BinaryOp.TheVariants as binary;
ghost use Rattle.ntx_syntax.specs.declared.terminal.Terminal.TheVariants as terminal;
ghost use Rattle.ntx_parse.specs.declared.precedence.Precedence.TheVariants as precedences;
ghost use Rattle.ntx_parse.specs.Grammar as grammar;
ghost use Rattle.ntx_parse.specs.inner.Input.{next_of};
ghost use Rattle.ntx_parse.specs.inner.Nests.{Nests};
ghost use Rattle.ntx_parse.specs.inner.Reading as reading;
ghost use Rattle.ntx_parse.specs.inner.Reading.{readers};
ghost use Rattle.ntx_parse.specs.inner.Reads.{Reads};
ghost use Rattle.ntx_parse.specs.inner.Room.{IsShallow, IsShallowPart, HasRoom, for_operand, for_exp};
ghost use Rattle.ntx_parse.specs.inner.Steps.{behind_at};

use crate::list::push;
use crate::names::parameters;
use crate::parser::Parser;
use crate::part::joined;
use crate::place::{Place, within, within_function};
use crate::precedence::{Precedence, looser, tighter};
use crate::rules::Rules;
use ntx_num::Fail;
use ntx_syntax::{
    BinaryOp, Block, Exp, FunctionBody, Operation, SyntaxFault, SyntaxWhy, Terminal, UnaryOp,
};
use sqlite_items::{Boxed, Items};
use std::alloc::{AllocError, Global};

/// A run of operators: one operand alone is itself.
fn run_of(alloc: Global, first: Exp, others: Items<Operation>) -> Result<Exp, AllocError>
    ensures { IfOk result (λ e. e ≡ grammar.run_of first others) }
{
    if others.is_empty() {
        Ok(first)
    } else {
        Ok(Exp::Binary(Boxed::new(alloc, first)?, others))
    }
}

/// `left .. right`
fn concat_of(alloc: Global, left: Exp, right: Exp) -> Result<Exp, AllocError>
    ensures { IfOk result (λ e. e ≡ exp.Binary left (record { operator = binary.Concat; operand = right } ∷ [])) }
{
    let mut operations = Items::new(alloc);
    let operation = Operation {
        operator: BinaryOp::Concat,
        operand: right,
    };
    push(alloc, &mut operations, operation)?;
    Ok(Exp::Binary(Boxed::new(alloc, left)?, operations))
}

/// The next word, which alone is this expression.
fn constant(parser: &mut Parser<'_>, place: Place, value: Exp) -> Result<Exp, Fail<SyntaxFault>>
    ensures { Reads (λ _. reading.and_then (reading.take_word place parser.old.words) (λ _ rest. reading.read value rest)) parser.old result parser.new }
{
    parser.take_word(place)?;
    Ok(value)
}

impl<
    E: Fn(Global, &mut Parser<'_>, u64, Place, Precedence) -> Result<Exp, Fail<SyntaxFault>>,
    B: Fn(Global, &mut Parser<'_>, u64, Place) -> Result<Block, Fail<SyntaxFault>>,
> Rules<E, B> {
    /// `exp`, whose own operators bind as tight as this precedence or tighter: an operand, and after it the operators of
    /// each precedence, from the tightest.
    pub fn level(
        &self,
        parser: &mut Parser<'_>,
        place: Place,
        precedence: Precedence,
    ) -> Result<Exp, Fail<SyntaxFault>>
        requires nests { Nests self.now.depth (E.pre self.now.exp) (E.post self.now.exp) (B.pre self.now.block) (B.post self.now.block) }
        requires shallow { IsShallow place }
        requires room { HasRoom for_operand self.now.depth place }
        ensures { Reads (λ n. (readers n).exp place precedence parser.old.words) parser.old result parser.new }
    {
        let mut exp = self.operand(parser, place)?;
        let mut reached = Precedence::Unary;
        while reached != precedence {
            reached = looser(reached);
            exp = self.behind(parser, place, reached, exp)?;
        }
        Ok(exp)
    }

    /// The operators of this precedence and their operands, after this expression of tighter ones.
    fn behind(
        &self,
        parser: &mut Parser<'_>,
        place: Place,
        precedence: Precedence,
        first: Exp,
    ) -> Result<Exp, Fail<SyntaxFault>>
        requires nests { Nests self.now.depth (E.pre self.now.exp) (E.post self.now.exp) (B.pre self.now.block) (B.post self.now.block) }
        requires shallow { IsShallow place }
        requires room { HasRoom for_operand self.now.depth place }
        requires binary { precedence ≢ precedences.Unary }
        ensures { Reads (λ n. behind_at (readers n) place precedence first parser.old.words) parser.old result parser.new }
    {
        if precedence == Precedence::Concat {
            self.concat_behind(parser, place, first)
        } else {
            let others = self.operations_behind(parser, place, precedence)?;
            Ok(run_of(self.alloc, first, others)?)
        }
    }

    /// `unop exp`, or an expression without operators of its own.
    fn operand(&self, parser: &mut Parser<'_>, place: Place) -> Result<Exp, Fail<SyntaxFault>>
        requires nests { Nests self.now.depth (E.pre self.now.exp) (E.post self.now.exp) (B.pre self.now.block) (B.post self.now.block) }
        requires shallow { IsShallow place }
        requires room { HasRoom for_operand self.now.depth place }
        ensures { Reads (λ n. reading.read_operand (readers n) place (reading.sign_at parser.old.words) parser.old.words) parser.old result parser.new }
    {
        match parser.sign_at() {
            None => self.simple(parser, place),
            Some(operator) => self.unary(parser, place, operator),
        }
    }

    /// `unop exp`, with this operator.
    fn unary(
        &self,
        parser: &mut Parser<'_>,
        place: Place,
        operator: UnaryOp,
    ) -> Result<Exp, Fail<SyntaxFault>>
        requires nests { Nests self.now.depth (E.pre self.now.exp) (E.post self.now.exp) (B.pre self.now.block) (B.post self.now.block) }
        requires shallow { IsShallow place }
        requires room { HasRoom for_operand self.now.depth place }
        ensures { Reads (λ n. reading.read_operand (readers n) place (Some operator) parser.old.words) parser.old result parser.new }
    {
        parser.take_word(place)?;
        let operand = self.boxed_exp(parser, within(place), Precedence::Unary)?;
        Ok(Exp::Unary(operator, operand))
    }

    /// `[.. exp]`, after this expression.
    fn concat_behind(
        &self,
        parser: &mut Parser<'_>,
        place: Place,
        left: Exp,
    ) -> Result<Exp, Fail<SyntaxFault>>
        requires nests { Nests self.now.depth (E.pre self.now.exp) (E.post self.now.exp) (B.pre self.now.block) (B.post self.now.block) }
        requires shallow { IsShallow place }
        requires room { HasRoom for_operand self.now.depth place }
        ensures { Reads (λ n. reading.concat_behind (readers n) place left parser.old.words) parser.old result parser.new }
    {
        if !parser.begins(Terminal::DoubleDot) {
            return Ok(left);
        }
        parser.take_word(place)?;
        let right = self.exp(parser, within(place), Precedence::Concat)?;
        Ok(concat_of(self.alloc, left, right)?)
    }

    /// `{binop exp}`, with operators of this precedence.
    fn operations_behind(
        &self,
        parser: &mut Parser<'_>,
        place: Place,
        precedence: Precedence,
    ) -> Result<Items<Operation>, Fail<SyntaxFault>>
        requires nests { Nests self.now.depth (E.pre self.now.exp) (E.post self.now.exp) (B.pre self.now.block) (B.post self.now.block) }
        requires shallow { IsShallow place }
        requires room { HasRoom for_operand self.now.depth place }
        ensures { Reads (λ n. (readers n).operations place precedence [] parser.old.words) parser.old result parser.new }
    {
        let mut operations = Items::new(self.alloc);
        while let Some(operator) = parser.operator_at(precedence) {
            parser.take_word(place)?;
            let operand = self.exp(parser, within(place), tighter(precedence))?;
            push(self.alloc, &mut operations, Operation { operator, operand })?;
        }
        Ok(operations)
    }

    /// An expression without operators of its own.
    fn simple(&self, parser: &mut Parser<'_>, place: Place) -> Result<Exp, Fail<SyntaxFault>>
        requires nests { Nests self.now.depth (E.pre self.now.exp) (E.post self.now.exp) (B.pre self.now.block) (B.post self.now.block) }
        requires shallow { IsShallow place }
        requires room { HasRoom for_operand self.now.depth place }
        ensures { Reads (λ n. reading.read_simple (readers n) place parser.old.words) parser.old result parser.new }
    {
        match parser.next() {
            None => Err(parser.fault(SyntaxWhy::Expected)),
            Some(terminal) => self.simple_at(parser, place, terminal),
        }
    }

    /// The expression without operators of its own that begins with this.
    fn simple_at(
        &self,
        parser: &mut Parser<'_>,
        place: Place,
        begins: Terminal,
    ) -> Result<Exp, Fail<SyntaxFault>>
        requires nests { Nests self.now.depth (E.pre self.now.exp) (E.post self.now.exp) (B.pre self.now.block) (B.post self.now.block) }
        requires shallow { IsShallow place }
        requires room { HasRoom for_operand self.now.depth place }
        requires begins { next_of parser.old.words ≡ Some begins }
        ensures { Reads (λ n. reading.simple_at (readers n) place begins parser.old.words) parser.old result parser.new }
    {
        match begins {
            Terminal::Nil => constant(parser, place, Exp::Nil),
            Terminal::False => constant(parser, place, Exp::False),
            Terminal::True => constant(parser, place, Exp::True),
            Terminal::Numeral => parser.numeral(place),
            Terminal::Text => parser.text(self.alloc, place),
            Terminal::Function => self.function_exp(parser, place),
            Terminal::LeftBrace => self.table_exp(parser, place),
            Terminal::Name => self.prefix_exp(parser, place),
            Terminal::LeftParenthesis => self.prefix_exp(parser, place),
            _ => Err(parser.fault(SyntaxWhy::Expected)),
        }
    }

    /// `function body`
    fn function_exp(&self, parser: &mut Parser<'_>, place: Place) -> Result<Exp, Fail<SyntaxFault>>
        requires nests { Nests self.now.depth (E.pre self.now.exp) (E.post self.now.exp) (B.pre self.now.block) (B.post self.now.block) }
        requires shallow { IsShallow place }
        requires room { HasRoom for_operand self.now.depth place }
        ensures { Reads (λ n. reading.simple_at (readers n) place terminal.Function parser.old.words) parser.old result parser.new }
    {
        parser.take_word(place)?;
        let body = self.body(parser, within(place))?;
        Ok(Exp::Function(body))
    }

    /// A table.
    fn table_exp(&self, parser: &mut Parser<'_>, place: Place) -> Result<Exp, Fail<SyntaxFault>>
        requires nests { Nests self.now.depth (E.pre self.now.exp) (E.post self.now.exp) (B.pre self.now.block) (B.post self.now.block) }
        requires shallow { IsShallow place }
        requires room { HasRoom for_operand self.now.depth place }
        ensures { Reads (λ n. reading.simple_at (readers n) place terminal.LeftBrace parser.old.words) parser.old result parser.new }
    {
        let fields = self.table(parser, within(place))?;
        Ok(Exp::Table(fields))
    }

    /// A variable, a call or a parenthesized expression.
    fn prefix_exp(&self, parser: &mut Parser<'_>, place: Place) -> Result<Exp, Fail<SyntaxFault>>
        requires nests { Nests self.now.depth (E.pre self.now.exp) (E.post self.now.exp) (B.pre self.now.block) (B.post self.now.block) }
        requires shallow { IsShallow place }
        requires room { HasRoom for_operand self.now.depth place }
        ensures { Reads (λ n. reading.simple_at (readers n) place terminal.Name parser.old.words) parser.old result parser.new }
    {
        let found = self.prefix(parser, place)?;
        let prefix = joined(self.alloc, found)?;
        Ok(Exp::Prefix(prefix))
    }

    /// `exp {, exp}`
    pub fn exps(
        &self,
        parser: &mut Parser<'_>,
        place: Place,
    ) -> Result<Items<Exp>, Fail<SyntaxFault>>
        requires nests { Nests self.now.depth (E.pre self.now.exp) (E.post self.now.exp) (B.pre self.now.block) (B.post self.now.block) }
        requires shallow { IsShallow place }
        requires room { HasRoom for_exp self.now.depth place }
        ensures { Reads (λ n. reading.read_exps (readers n) place parser.old.words) parser.old result parser.new }
    {
        let first = self.exp(parser, place, Precedence::Or)?;
        self.exps_behind(parser, place, first)
    }

    /// `{, exp}`, after this expression, which is the first of the list.
    fn exps_behind(
        &self,
        parser: &mut Parser<'_>,
        place: Place,
        first: Exp,
    ) -> Result<Items<Exp>, Fail<SyntaxFault>>
        requires nests { Nests self.now.depth (E.pre self.now.exp) (E.post self.now.exp) (B.pre self.now.block) (B.post self.now.block) }
        requires shallow { IsShallow place }
        requires room { HasRoom for_exp self.now.depth place }
        ensures { Reads (λ n. (readers n).exps place (first ∷ []) parser.old.words) parser.old result parser.new }
    {
        let mut exps = Items::new(self.alloc);
        push(self.alloc, &mut exps, first)?;
        while parser.begins(Terminal::Comma) {
            parser.take_word(place)?;
            push(
                self.alloc,
                &mut exps,
                self.exp(parser, place, Precedence::Or)?,
            )?;
        }
        Ok(exps)
    }

    /// `( [namelist] ) block end`, at the place of the body, which is counted already. The part in parentheses and the block
    /// are each one deeper.
    pub fn body(
        &self,
        parser: &mut Parser<'_>,
        place: Place,
    ) -> Result<Boxed<FunctionBody>, Fail<SyntaxFault>>
        requires nests { Nests self.now.depth (E.pre self.now.exp) (E.post self.now.exp) (B.pre self.now.block) (B.post self.now.block) }
        requires shallow { IsShallowPart place }
        requires room { HasRoom for_exp self.now.depth place }
        ensures { Reads (λ n. reading.read_body (readers n) place parser.old.words) parser.old result parser.new }
    {
        let parameters = parameters(self.alloc, parser, within(place))?;
        let block = self.block(parser, within_function(place))?;
        parser.expect_word(place, Terminal::End)?;
        Ok(Boxed::new(self.alloc, FunctionBody { parameters, block })?)
    }
}
