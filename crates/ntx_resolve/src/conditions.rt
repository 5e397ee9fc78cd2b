//! Blocks as statements, and conditions.

ghost use Rattle.std.specs.Prelude.{◌≡◌, ◌<◌, None, Some};
ghost use denote.Param.Weighed.{most};
ghost use Rattle.ntx_syntax.specs.declared.tree.Block.{size-Block};
ghost use Rattle.ntx_syntax.specs.declared.tree.IfArm.{size-IfArm};
ghost use Rattle.ntx_syntax.specs.declared.tree.StatKind.TheVariants as stat;
ghost use Rattle.ntx_resolve.specs.HasCode as code;
ghost use Rattle.ntx_resolve.specs.Limit as limit;
ghost use Rattle.ntx_resolve.specs.Scopes as scopes;
ghost use Rattle.ntx_resolve.specs.inner.Blocks.{Blocks};
ghost use Rattle.ntx_resolve.specs.inner.Closed.{IsArm};
ghost use Rattle.ntx_resolve.specs.inner.Resolves.{Resolves};

use crate::code::{Block, IfArm, StatKind};
use crate::resolver::Resolver;
use crate::state::State;
use ntx_num::Fail;
use ntx_syntax as tree;
use ntx_syntax::SyntaxFault;
use sqlite_items::Items;
use std::alloc::Global;

impl<'a, B: Fn(Global, &mut State, &tree::Block) -> Result<Block, Fail<SyntaxFault>>> Resolver<
    'a,
    B,
> {
    /// `do block end`
    pub fn do_block(
        &self,
        state: &mut State,
        block: &tree::Block,
    ) -> Result<StatKind, Fail<SyntaxFault>>
        requires blocks { Blocks (size-Block self.now.within.now) (B.pre self.now.block) (B.post self.now.block) }
        requires small { size-Block block.now < size-Block self.now.within.now }
        ensures { Resolves (limit.excess_of_block block.now (scopes.locals state.old.scope)) (λ s all c. code.IsKind all s (stat.Do block.now) c s) state.old result state.new }
    {
        let block = self.boxed_block(state, block)?;
        Ok(StatKind::Do(block))
    }

    /// `exp then block`
    fn arm(&self, state: &mut State, arm: &tree::IfArm) -> Result<IfArm, Fail<SyntaxFault>>
        requires blocks { Blocks (size-Block self.now.within.now) (B.pre self.now.block) (B.post self.now.block) }
        requires small { size-IfArm arm.now < size-Block self.now.within.now }
        ensures { Resolves (limit.excess_of_arm arm.now (scopes.locals state.old.scope)) (λ s all c. IsArm all s arm.now c) state.old result state.new }
    {
        let condition = self.exp(state, &arm.condition)?;
        let mark = state.scope.mark();
        let block = self.block(state, &arm.block)?;
        state.scope.leave(mark);
        Ok(IfArm { condition, block })
    }

    /// The arms of an `if`.
    fn arms(
        &self,
        state: &mut State,
        arms: &[tree::IfArm],
    ) -> Result<Items<IfArm>, Fail<SyntaxFault>>
        requires blocks { Blocks (size-Block self.now.within.now) (B.pre self.now.block) (B.post self.now.block) }
        requires small { most size-IfArm arms.now < size-Block self.now.within.now }
        ensures { Resolves (limit.excess_of_arms arms.now (scopes.locals state.old.scope)) (λ s all c. code.IsArms all s arms.now c) state.old result state.new }
    {
        let mut codes = Items::new(self.alloc);
        for arm in arms {
            codes.push(self.arm(state, arm)?)?;
        }
        Ok(codes)
    }

    /// `if exp then block {elseif exp then block} end`
    pub fn if_stat(
        &self,
        state: &mut State,
        arms: &[tree::IfArm],
    ) -> Result<StatKind, Fail<SyntaxFault>>
        requires blocks { Blocks (size-Block self.now.within.now) (B.pre self.now.block) (B.post self.now.block) }
        requires small { most size-IfArm arms.now < size-Block self.now.within.now }
        ensures { Resolves (limit.excess_of_arms arms.now (scopes.locals state.old.scope)) (λ s all c. code.IsKind all s (stat.If arms.now None) c s) state.old result state.new }
    {
        let arms = self.arms(state, arms)?;
        Ok(StatKind::If(arms, None))
    }

    /// `if exp then block {elseif exp then block} else block end`
    pub fn if_else(
        &self,
        state: &mut State,
        arms: &[tree::IfArm],
        other: &tree::Block,
    ) -> Result<StatKind, Fail<SyntaxFault>>
        requires blocks { Blocks (size-Block self.now.within.now) (B.pre self.now.block) (B.post self.now.block) }
        requires small_arms { most size-IfArm arms.now < size-Block self.now.within.now }
        requires small { size-Block other.now < size-Block self.now.within.now }
        ensures { Resolves (limit.or_else (limit.excess_of_arms arms.now (scopes.locals state.old.scope)) (limit.excess_of_block other.now (scopes.locals state.old.scope))) (λ s all c. code.IsKind all s (stat.If arms.now (Some other.now)) c s) state.old result state.new }
    {
        let arms = self.arms(state, arms)?;
        let other = self.boxed_block(state, other)?;
        Ok(StatKind::If(arms, Some(other)))
    }
}
