//! Expressions.

ghost use Rattle.std.specs.Prelude.{◌≡◌, ◌<◌, ◌≤◌};
ghost use denote.Param.Weighed.{most};
ghost use Rattle.ntx_syntax.specs.declared.tree.Block.{size-Block};
ghost use Rattle.ntx_syntax.specs.declared.tree.Exp.{size-Exp};
ghost use Rattle.ntx_syntax.specs.declared.tree.Field.{size-Field};
ghost use Rattle.ntx_syntax.specs.declared.tree.Operation.{size-Operation};
ghost use Rattle.ntx_resolve.specs.HasCode as code;
ghost use Rattle.ntx_resolve.specs.Limit as limit;
ghost use Rattle.ntx_resolve.specs.inner.Blocks.{Blocks};
ghost use Rattle.ntx_resolve.specs.inner.Resolves.{Resolves};

use crate::code::{Block, Exp, Operation, Prefix};
use crate::names::{copied, numeral};
use crate::resolver::Resolver;
use crate::state::State;
use ntx_num::Fail;
use ntx_syntax as tree;
use ntx_syntax::SyntaxFault;
use sqlite_items::{Boxed, Items};
use std::alloc::Global;

impl<'a, B: Fn(Global, &mut State, &tree::Block) -> Result<Block, Fail<SyntaxFault>>> Resolver<
    'a,
    B,
> {
    /// An expression.
    #[cycle(exps)]
    pub fn exp(&self, state: &mut State, exp: &tree::Exp) -> Result<Exp, Fail<SyntaxFault>>
        requires blocks { Blocks (size-Block self.now.within.now) (B.pre self.now.block) (B.post self.now.block) }
        requires small { size-Exp exp.now < size-Block self.now.within.now }
        ensures { Resolves (limit.excess_of_exp exp.now) (λ s all c. code.IsExp all s exp.now c) state.old result state.new }
    {
        match exp {
            tree::Exp::Nil => Ok(Exp::Nil),
            tree::Exp::False => Ok(Exp::False),
            tree::Exp::True => Ok(Exp::True),
            tree::Exp::Numeral(value) => Ok(numeral(value)),
            tree::Exp::Text(bytes) => Ok(Exp::Text(copied(self.alloc, bytes)?)),
            tree::Exp::Function(body) => {
                let number = self.function(state, body.get())?;
                Ok(Exp::Function(number))
            }
            tree::Exp::Prefix(prefix) => {
                let head = self.head(state, &prefix.head)?;
                let suffixes = self.suffixes(state, prefix.suffixes.as_slice())?;
                Ok(Exp::Prefix(Prefix { head, suffixes }))
            }
            tree::Exp::Table(fields) => {
                let fields = self.fields(state, fields.as_slice())?;
                Ok(Exp::Table(fields))
            }
            tree::Exp::Binary(first, others) => {
                let first = self.boxed_exp(state, first.get())?;
                let others = self.operations(state, others.as_slice())?;
                Ok(Exp::Binary(first, others))
            }
            tree::Exp::Unary(operator, operand) => {
                let operand = self.boxed_exp(state, operand.get())?;
                Ok(Exp::Unary(*operator, operand))
            }
        }
    }

    /// An expression, in a box.
    #[cycle(exps)]
    pub fn boxed_exp(
        &self,
        state: &mut State,
        exp: &tree::Exp,
    ) -> Result<Boxed<Exp>, Fail<SyntaxFault>>
        requires blocks { Blocks (size-Block self.now.within.now) (B.pre self.now.block) (B.post self.now.block) }
        requires small { size-Exp exp.now < size-Block self.now.within.now }
        ensures { Resolves (limit.excess_of_exp exp.now) (λ s all c. code.IsExp all s exp.now c) state.old result state.new }
    {
        let code = self.exp(state, exp)?;
        Ok(Boxed::new(self.alloc, code)?)
    }

    /// Expressions.
    #[cycle(exps)]
    pub fn exps(
        &self,
        state: &mut State,
        exps: &[tree::Exp],
    ) -> Result<Items<Exp>, Fail<SyntaxFault>>
        requires blocks { Blocks (size-Block self.now.within.now) (B.pre self.now.block) (B.post self.now.block) }
        requires small { most size-Exp exps.now < size-Block self.now.within.now }
        ensures { Resolves (limit.excess_of_exps exps.now) (λ s all c. code.IsExps all s exps.now c) state.old result state.new }
    {
        let mut codes = Items::new(self.alloc);
        for exp in exps {
            codes.push(self.exp(state, exp)?)?;
        }
        Ok(codes)
    }

    /// Operators, each with the operand after it.
    #[cycle(exps)]
    fn operations(
        &self,
        state: &mut State,
        operations: &[tree::Operation],
    ) -> Result<Items<Operation>, Fail<SyntaxFault>>
        requires blocks { Blocks (size-Block self.now.within.now) (B.pre self.now.block) (B.post self.now.block) }
        requires small { most size-Operation operations.now < size-Block self.now.within.now }
        ensures { Resolves (limit.excess_of_operations operations.now) (λ s all c. code.IsOperations all s operations.now c) state.old result state.new }
    {
        let mut codes = Items::new(self.alloc);
        for operation in operations {
            let operand = self.exp(state, &operation.operand)?;
            codes.push(Operation {
                operator: operation.operator,
                operand,
            })?;
        }
        Ok(codes)
    }
}
