//! Statements that bind names.

ghost use Rattle.std.specs.Prelude.{◌≡◌, ◌<◌, ◌∷◌, []};
ghost use denote.Param.Weighed.{most};
ghost use Rattle.ntx_syntax.specs.declared.tree.Block.{size-Block};
ghost use Rattle.ntx_syntax.specs.declared.tree.Exp.{size-Exp};
ghost use Rattle.ntx_syntax.specs.declared.tree.FunctionBody.{size-FunctionBody};
ghost use Rattle.ntx_syntax.specs.declared.tree.StatKind.TheVariants as stat;
ghost use Rattle.ntx_resolve.specs.HasCode as code;
ghost use Rattle.ntx_resolve.specs.Limit as limit;
ghost use Rattle.ntx_resolve.specs.Scopes as scopes;
ghost use Rattle.ntx_resolve.specs.inner.Blocks.{Blocks};
ghost use Rattle.ntx_resolve.specs.inner.Counted.{IsCounted};
ghost use Rattle.ntx_resolve.specs.inner.Resolves.{Resolves, Leaves};

use crate::code::{Block, StatKind};
use crate::names::{copied, copied_local, copied_locals, copied_names};
use crate::resolver::Resolver;
use crate::state::State;
use ntx_num::Fail;
use ntx_syntax as tree;
use ntx_syntax::{FunctionBody, LocalName, Name, SyntaxFault};
use std::alloc::Global;

impl<'a, B: Fn(Global, &mut State, &tree::Block) -> Result<Block, Fail<SyntaxFault>>> Resolver<
    'a,
    B,
> {
    /// `function Name {. Name} body`
    pub fn function_stat(
        &self,
        state: &mut State,
        name: &Name,
        path: &[Name],
        body: &FunctionBody,
    ) -> Result<StatKind, Fail<SyntaxFault>>
        requires blocks { Blocks (size-Block self.now.within.now) (B.pre self.now.block) (B.post self.now.block) }
        requires small { size-FunctionBody body.now < size-Block self.now.within.now }
        ensures { Resolves (limit.excess_of_body body.now) (λ s all c. code.IsKind all s (stat.Function name.now path.now body.now) c s) state.old result state.new }
    {
        let variable = state.scope.variable(name);
        let number = self.function(state, body)?;
        let name = copied(self.alloc, name)?;
        let path = copied_names(self.alloc, path)?;
        Ok(StatKind::Function(name, variable, path, number))
    }

    /// `local function Name body`. The name is in scope in the body.
    pub fn local_function(
        &self,
        state: &mut State,
        name: &LocalName,
        body: &FunctionBody,
    ) -> Result<StatKind, Fail<SyntaxFault>>
        requires blocks { Blocks (size-Block self.now.within.now) (B.pre self.now.block) (B.post self.now.block) }
        requires small { size-FunctionBody body.now < size-Block self.now.within.now }
        ensures { Leaves (limit.or_else (limit.excess_of_names (scopes.locals state.old.scope) (name.now ∷ [])) (limit.excess_of_body body.now)) (λ s all c t. IsCounted all s (stat.LocalFunction name.now body.now) c t) state.old result state.new }
    {
        state.scope.has_room_for_one(name)?;
        state.scope.declare_one(self.alloc, name)?;
        let number = self.function(state, body)?;
        Ok(StatKind::LocalFunction(copied_local(self.alloc, name)?, number))
    }

    /// `local namelist [= explist]`. The names are in scope after it.
    pub fn local(
        &self,
        state: &mut State,
        names: &[LocalName],
        values: &[tree::Exp],
    ) -> Result<StatKind, Fail<SyntaxFault>>
        requires blocks { Blocks (size-Block self.now.within.now) (B.pre self.now.block) (B.post self.now.block) }
        requires small { most size-Exp values.now < size-Block self.now.within.now }
        ensures { Leaves (limit.or_else (limit.excess_of_names (scopes.locals state.old.scope) names.now) (limit.excess_of_exps values.now)) (λ s all c t. IsCounted all s (stat.Local names.now values.now) c t) state.old result state.new }
    {
        state.scope.has_room_for(names)?;
        let values = self.exps(state, values)?;
        state.scope.declare(self.alloc, names)?;
        Ok(StatKind::Local(copied_locals(self.alloc, names)?, values))
    }
}
