//! Blocks and statements.

ghost use Rattle.std.specs.Prelude.{◌≡◌, ◌<◌};
ghost use denote.Param.Weighed.{most};
ghost use Rattle.ntx_syntax.specs.declared.tree.Block.{size-Block};
ghost use Rattle.ntx_syntax.specs.declared.tree.Return.{size-Return};
ghost use Rattle.ntx_syntax.specs.declared.tree.Stat.{size-Stat};
ghost use Rattle.ntx_syntax.specs.declared.tree.StatKind.{size-StatKind};
ghost use Rattle.ntx_resolve.specs.HasCode as code;
ghost use Rattle.ntx_resolve.specs.Limit as limit;
ghost use Rattle.ntx_resolve.specs.Scopes as scopes;
ghost use Rattle.ntx_resolve.specs.inner.Blocks.{Blocks};
ghost use Rattle.ntx_resolve.specs.inner.Counted.{IsCounted, IsStat, IsReturned};
ghost use Rattle.ntx_resolve.specs.inner.Resolves.{Resolves, Leaves};

use crate::code::{Block, Return, Stat, StatKind};
use crate::resolver::Resolver;
use crate::state::State;
use ntx_num::Fail;
use ntx_syntax as tree;
use ntx_syntax::{StatKind as Kind, SyntaxFault};
use sqlite_items::Items;
use std::alloc::Global;

impl<'a, B: Fn(Global, &mut State, &tree::Block) -> Result<Block, Fail<SyntaxFault>>> Resolver<
    'a,
    B,
> {
    /// The block in which all that is resolved lies. Its names stay in scope.
    pub fn resolve(&self, state: &mut State) -> Result<Block, Fail<SyntaxFault>>
        requires blocks { Blocks (size-Block self.now.within.now) (B.pre self.now.block) (B.post self.now.block) }
        ensures { Leaves (limit.excess_of_block self.now.within.now (scopes.locals state.old.scope)) (λ s all c t. code.IsBlock all s self.now.within.now c t) state.old result state.new }
    {
        let stats = self.stats(state, self.within.stats.as_slice())?;
        match &self.within.last {
            None => Ok(Block { stats, last: None }),
            Some(returned) => {
                let last = self.returned(state, returned)?;
                Ok(Block {
                    stats,
                    last: Some(last),
                })
            }
        }
    }

    /// `return` and its values.
    fn returned(
        &self,
        state: &mut State,
        returned: &tree::Return,
    ) -> Result<Return, Fail<SyntaxFault>>
        requires blocks { Blocks (size-Block self.now.within.now) (B.pre self.now.block) (B.post self.now.block) }
        requires small { size-Return returned.now < size-Block self.now.within.now }
        ensures { Resolves (limit.excess_of_return returned.now) (λ s all c. IsReturned all s returned.now c) state.old result state.new }
    {
        let values = self.exps(state, returned.values.as_slice())?;
        Ok(Return {
            line: returned.line,
            values,
        })
    }

    /// Statements, each in the scope that the one before it leaves.
    fn stats(
        &self,
        state: &mut State,
        stats: &[tree::Stat],
    ) -> Result<Items<Stat>, Fail<SyntaxFault>>
        requires blocks { Blocks (size-Block self.now.within.now) (B.pre self.now.block) (B.post self.now.block) }
        requires small { most size-Stat stats.now < size-Block self.now.within.now }
        ensures { Leaves (limit.excess_of_stats (scopes.locals state.old.scope) stats.now) (λ s all c t. code.IsStats all s stats.now c t) state.old result state.new }
    {
        let mut codes = Items::new(self.alloc);
        for stat in stats {
            codes.push(self.stat(state, stat)?)?;
        }
        Ok(codes)
    }

    /// A statement.
    fn stat(&self, state: &mut State, stat: &tree::Stat) -> Result<Stat, Fail<SyntaxFault>>
        requires blocks { Blocks (size-Block self.now.within.now) (B.pre self.now.block) (B.post self.now.block) }
        requires small { size-Stat stat.now < size-Block self.now.within.now }
        ensures { Leaves ((limit.of_stat stat.now).excess (scopes.locals state.old.scope)) (λ s all c t. IsStat all s stat.now c t) state.old result state.new }
    {
        let kind = self.kind(state, &stat.kind)?;
        Ok(Stat {
            line: stat.line,
            kind,
        })
    }

    /// What a statement is.
    fn kind(&self, state: &mut State, kind: &Kind) -> Result<StatKind, Fail<SyntaxFault>>
        requires blocks { Blocks (size-Block self.now.within.now) (B.pre self.now.block) (B.post self.now.block) }
        requires small { size-StatKind kind.now < size-Block self.now.within.now }
        ensures { Leaves ((limit.of_kind kind.now).excess (scopes.locals state.old.scope)) (λ s all c t. IsCounted all s kind.now c t) state.old result state.new }
    {
        match kind {
            Kind::Empty => Ok(StatKind::Empty),
            Kind::Break => Ok(StatKind::Break),
            Kind::Assign(vars, values) => {
                self.assignment(state, vars.as_slice(), values.as_slice())
            }
            Kind::Call(call) => self.call(state, call.get()),
            Kind::Do(block) => self.do_block(state, block.get()),
            Kind::While(condition, block) => self.while_loop(state, condition.get(), block.get()),
            Kind::Repeat(block, condition) => self.repeat_loop(state, block.get(), condition.get()),
            Kind::If(arms, other) => {
                let arms = arms.as_slice();
                match other {
                    None => self.if_stat(state, arms),
                    Some(other) => {
                        let other = other.get();
                        self.if_else(state, arms, other)
                    }
                }
            }
            Kind::NumericFor(name, from, limit, step, block) => {
                let name = name.get();
                let from = from.get();
                let limit = limit.get();
                let block = block.get();
                match step {
                    None => self.numeric_for(state, name, from, limit, block),
                    Some(step) => {
                        let step = step.get();
                        self.stepped_for(state, name, from, limit, step, block)
                    }
                }
            }
            Kind::GenericFor(names, values, block) => {
                self.generic_for(state, names.as_slice(), values.as_slice(), block.get())
            }
            Kind::Function(name, path, body) => {
                self.function_stat(state, name, path.as_slice(), body.get())
            }
            Kind::LocalFunction(name, body) => self.local_function(state, name, body.get()),
            Kind::Local(names, values) => self.local(state, names.as_slice(), values.as_slice()),
        }
    }
}
