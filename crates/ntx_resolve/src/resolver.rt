//! The methods that resolve expressions and statements take the resolver of blocks as a parameter, so that each is proved by itself.

ghost use Rattle.std.specs.Prelude.{◌≡◌, ◌<◌};
ghost use Rattle.ntx_syntax.specs.declared.tree.Block.{size-Block};
ghost use Rattle.ntx_syntax.specs.declared.tree.FunctionBody.{size-FunctionBody};
ghost use Rattle.ntx_resolve.specs.HasCode as code;
ghost use Rattle.ntx_resolve.specs.Limit as limit;
ghost use Rattle.ntx_resolve.specs.Scopes as scopes;
ghost use Rattle.ntx_resolve.specs.inner.Blocks.{Blocks};
ghost use Rattle.ntx_resolve.specs.inner.Closed.{IsClosed, HasBody};
ghost use Rattle.ntx_resolve.specs.inner.Resolves.{Resolves, Leaves};

use crate::code::{Block, Function};
use crate::names::copied_locals;
use crate::state::State;
use ntx_num::Fail;
use ntx_syntax as tree;
use ntx_syntax::{FunctionBody, SyntaxFault};
use sqlite_items::Boxed;
use std::alloc::Global;

/// The resolver, over what resolves the blocks of statements and of functions.
#[derive(Clone, Copy)]
pub struct Resolver<'a, B> {
    /// The memory for code.
    pub alloc: Global,
    /// The block that is resolved: all that is resolved lies in it.
    pub within: &'a tree::Block,
    /// What resolves a block. Its names stay in scope.
    pub block: B,
}

impl<'a, B: Fn(Global, &mut State, &tree::Block) -> Result<Block, Fail<SyntaxFault>>> Resolver<
    'a,
    B,
> {
    /// A block. Its names stay in scope.
    pub fn block(&self, state: &mut State, block: &tree::Block) -> Result<Block, Fail<SyntaxFault>>
        requires blocks { Blocks (size-Block self.now.within.now) (B.pre self.now.block) (B.post self.now.block) }
        requires small { size-Block block.now < size-Block self.now.within.now }
        ensures { Leaves (limit.excess_of_block block.now (scopes.locals state.old.scope)) (λ s all c t. code.IsBlock all s block.now c t) state.old result state.new }
    {
        (self.block)(self.alloc, state, block)
    }

    /// A block, in a box. The scope of its names ends with it.
    pub fn boxed_block(
        &self,
        state: &mut State,
        block: &tree::Block,
    ) -> Result<Boxed<Block>, Fail<SyntaxFault>>
        requires blocks { Blocks (size-Block self.now.within.now) (B.pre self.now.block) (B.post self.now.block) }
        requires small { size-Block block.now < size-Block self.now.within.now }
        ensures { Resolves (limit.excess_of_block block.now (scopes.locals state.old.scope)) (λ s all c. IsClosed all s block.now c) state.old result state.new }
    {
        let mark = state.scope.mark();
        let code = self.block(state, block)?;
        state.scope.leave(mark);
        Ok(Boxed::new(self.alloc, code)?)
    }

    /// A function with this body.
    fn body(&self, state: &mut State, body: &FunctionBody) -> Result<Function, Fail<SyntaxFault>>
        requires blocks { Blocks (size-Block self.now.within.now) (B.pre self.now.block) (B.post self.now.block) }
        requires small { size-FunctionBody body.now < size-Block self.now.within.now }
        ensures { Resolves (limit.excess_of_body body.now) (λ s all f. HasBody all s body.now f) state.old result state.new }
    {
        let names = body.parameters.as_slice();
        let mark = state.scope.mark();
        state.scope.enter();
        state.scope.has_room_for(names)?;
        state.scope.declare(self.alloc, names)?;
        let block = self.block(state, &body.block)?;
        state.scope.leave(mark);
        let parameters = copied_locals(self.alloc, names)?;
        Ok(Function { parameters, block })
    }

    /// The number of a function that is made in this scope.
    pub fn function(&self, state: &mut State, body: &FunctionBody) -> Result<u64, Fail<SyntaxFault>>
        requires blocks { Blocks (size-Block self.now.within.now) (B.pre self.now.block) (B.post self.now.block) }
        requires small { size-FunctionBody body.now < size-Block self.now.within.now }
        ensures { Resolves (limit.excess_of_body body.now) (λ s all k. code.IsFunction all s body.now k) state.old result state.new }
    {
        let function = self.body(state, body)?;
        let number = state.functions.len() as u64;
        state.functions.push(function)?;
        Ok(number)
    }
}
