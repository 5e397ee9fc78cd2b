//! Loops.

ghost use Rattle.std.specs.Prelude.{◌≡◌, ◌<◌, ◌+◌, ◌∷◌, [], length, None, Some};
ghost use denote.Param.Weighed.{most};
ghost use Rattle.ntx_syntax.specs.declared.tree.Block.{size-Block};
ghost use Rattle.ntx_syntax.specs.declared.tree.Exp.{size-Exp};
ghost use Rattle.ntx_syntax.specs.declared.tree.StatKind.TheVariants as stat;
ghost use Rattle.ntx_resolve.specs.HasCode as code;
ghost use Rattle.ntx_resolve.specs.Limit as bounds;
ghost use Rattle.ntx_resolve.specs.Scopes as scopes;
ghost use Rattle.ntx_resolve.specs.inner.Blocks.{Blocks};
ghost use Rattle.ntx_resolve.specs.inner.Closed.{IsClosed};
ghost use Rattle.ntx_resolve.specs.inner.Resolves.{Resolves};

use crate::code::{Block, StatKind};
use crate::names::{copied_local, copied_locals};
use crate::resolver::Resolver;
use crate::state::State;
use ntx_num::Fail;
use ntx_syntax as tree;
use ntx_syntax::{LocalName, SyntaxFault};
use sqlite_items::Boxed;
use std::alloc::Global;
use std::slice;

impl<'a, B: Fn(Global, &mut State, &tree::Block) -> Result<Block, Fail<SyntaxFault>>> Resolver<
    'a,
    B,
> {
    /// `while exp do block end`
    pub fn while_loop(
        &self,
        state: &mut State,
        condition: &tree::Exp,
        block: &tree::Block,
    ) -> Result<StatKind, Fail<SyntaxFault>>
        requires blocks { Blocks (size-Block self.now.within.now) (B.pre self.now.block) (B.post self.now.block) }
        requires small_condition { size-Exp condition.now < size-Block self.now.within.now }
        requires small { size-Block block.now < size-Block self.now.within.now }
        ensures { Resolves (bounds.or_else (bounds.excess_of_exp condition.now) (bounds.excess_of_block block.now (scopes.locals state.old.scope))) (λ s all c. code.IsKind all s (stat.While condition.now block.now) c s) state.old result state.new }
    {
        let condition = self.boxed_exp(state, condition)?;
        let block = self.boxed_block(state, block)?;
        Ok(StatKind::While(condition, block))
    }

    /// `repeat block until exp`. The names of the block are in scope in the condition.
    pub fn repeat_loop(
        &self,
        state: &mut State,
        block: &tree::Block,
        condition: &tree::Exp,
    ) -> Result<StatKind, Fail<SyntaxFault>>
        requires blocks { Blocks (size-Block self.now.within.now) (B.pre self.now.block) (B.post self.now.block) }
        requires small { size-Block block.now < size-Block self.now.within.now }
        requires small_condition { size-Exp condition.now < size-Block self.now.within.now }
        ensures { Resolves (bounds.or_else (bounds.excess_of_block block.now (scopes.locals state.old.scope)) (bounds.excess_of_exp condition.now)) (λ s all c. code.IsKind all s (stat.Repeat block.now condition.now) c s) state.old result state.new }
    {
        let mark = state.scope.mark();
        let code = self.block(state, block)?;
        let until = self.boxed_exp(state, condition)?;
        state.scope.leave(mark);
        Ok(StatKind::Repeat(Boxed::new(self.alloc, code)?, until))
    }

    /// The block of a loop that declares these names. Their scope ends with it.
    fn loop_block(
        &self,
        state: &mut State,
        names: &[LocalName],
        block: &tree::Block,
    ) -> Result<Boxed<Block>, Fail<SyntaxFault>>
        requires blocks { Blocks (size-Block self.now.within.now) (B.pre self.now.block) (B.post self.now.block) }
        requires small { size-Block block.now < size-Block self.now.within.now }
        ensures { Resolves (bounds.excess_of_block block.now ((scopes.locals state.old.scope) + length names.now)) (λ s all c. IsClosed all (scopes.declare s names.now) block.now c) state.old result state.new }
    {
        let mark = state.scope.mark();
        state.scope.declare(self.alloc, names)?;
        let code = self.block(state, block)?;
        state.scope.leave(mark);
        Ok(Boxed::new(self.alloc, code)?)
    }

    /// The block of a loop that declares this name.
    fn counted_block(
        &self,
        state: &mut State,
        name: &LocalName,
        block: &tree::Block,
    ) -> Result<Boxed<Block>, Fail<SyntaxFault>>
        requires blocks { Blocks (size-Block self.now.within.now) (B.pre self.now.block) (B.post self.now.block) }
        requires small { size-Block block.now < size-Block self.now.within.now }
        ensures { Resolves (bounds.excess_of_block block.now ((scopes.locals state.old.scope) + 1)) (λ s all c. IsClosed all (scopes.declare s (name.now ∷ [])) block.now c) state.old result state.new }
    {
        self.loop_block(state, slice::from_ref(name), block)
    }

    /// `for Name = exp , exp do block end`
    pub fn numeric_for(
        &self,
        state: &mut State,
        name: &LocalName,
        from: &tree::Exp,
        limit: &tree::Exp,
        block: &tree::Block,
    ) -> Result<StatKind, Fail<SyntaxFault>>
        requires blocks { Blocks (size-Block self.now.within.now) (B.pre self.now.block) (B.post self.now.block) }
        requires small_from { size-Exp from.now < size-Block self.now.within.now }
        requires small_limit { size-Exp limit.now < size-Block self.now.within.now }
        requires small { size-Block block.now < size-Block self.now.within.now }
        ensures { Resolves (bounds.or_else (bounds.excess_of_names (scopes.locals state.old.scope) (name.now ∷ [])) (bounds.or_else (bounds.excess_of_exp from.now) (bounds.or_else (bounds.excess_of_exp limit.now) (bounds.excess_of_block block.now ((scopes.locals state.old.scope) + 1))))) (λ s all c. code.IsKind all s (stat.NumericFor name.now from.now limit.now None block.now) c s) state.old result state.new }
    {
        state.scope.has_room_for_one(name)?;
        let from = self.boxed_exp(state, from)?;
        let limit = self.boxed_exp(state, limit)?;
        let block = self.counted_block(state, name, block)?;
        let name = Boxed::new(self.alloc, copied_local(self.alloc, name)?)?;
        Ok(StatKind::NumericFor(name, from, limit, None, block))
    }

    /// `for Name = exp , exp , exp do block end`
    pub fn stepped_for(
        &self,
        state: &mut State,
        name: &LocalName,
        from: &tree::Exp,
        limit: &tree::Exp,
        step: &tree::Exp,
        block: &tree::Block,
    ) -> Result<StatKind, Fail<SyntaxFault>>
        requires blocks { Blocks (size-Block self.now.within.now) (B.pre self.now.block) (B.post self.now.block) }
        requires small_from { size-Exp from.now < size-Block self.now.within.now }
        requires small_limit { size-Exp limit.now < size-Block self.now.within.now }
        requires small_step { size-Exp step.now < size-Block self.now.within.now }
        requires small { size-Block block.now < size-Block self.now.within.now }
        ensures { Resolves (bounds.or_else (bounds.excess_of_names (scopes.locals state.old.scope) (name.now ∷ [])) (bounds.or_else (bounds.excess_of_exp from.now) (bounds.or_else (bounds.excess_of_exp limit.now) (bounds.or_else (bounds.excess_of_exp step.now) (bounds.excess_of_block block.now ((scopes.locals state.old.scope) + 1)))))) (λ s all c. code.IsKind all s (stat.NumericFor name.now from.now limit.now (Some step.now) block.now) c s) state.old result state.new }
    {
        state.scope.has_room_for_one(name)?;
        let from = self.boxed_exp(state, from)?;
        let limit = self.boxed_exp(state, limit)?;
        let step = self.boxed_exp(state, step)?;
        let block = self.counted_block(state, name, block)?;
        let name = Boxed::new(self.alloc, copied_local(self.alloc, name)?)?;
        Ok(StatKind::NumericFor(name, from, limit, Some(step), block))
    }

    /// `for namelist in explist do block end`
    pub fn generic_for(
        &self,
        state: &mut State,
        names: &[LocalName],
        values: &[tree::Exp],
        block: &tree::Block,
    ) -> Result<StatKind, Fail<SyntaxFault>>
        requires blocks { Blocks (size-Block self.now.within.now) (B.pre self.now.block) (B.post self.now.block) }
        requires small_values { most size-Exp values.now < size-Block self.now.within.now }
        requires small { size-Block block.now < size-Block self.now.within.now }
        ensures { Resolves (bounds.or_else (bounds.excess_of_names (scopes.locals state.old.scope) names.now) (bounds.or_else (bounds.excess_of_exps values.now) (bounds.excess_of_block block.now ((scopes.locals state.old.scope) + length names.now)))) (λ s all c. code.IsKind all s (stat.GenericFor names.now values.now block.now) c s) state.old result state.new }
    {
        state.scope.has_room_for(names)?;
        let values = self.exps(state, values)?;
        let block = self.loop_block(state, names, block)?;
        Ok(StatKind::GenericFor(copied_locals(self.alloc, names)?, values, block))
    }
}
