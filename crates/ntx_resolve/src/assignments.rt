//! Assignments and calls.

ghost use Rattle.std.specs.Prelude.{◌≡◌, ◌<◌, ◌≤◌, ◌∷◌, []};
ghost use denote.Param.Weighed.{most};
ghost use Rattle.ntx_syntax.specs.declared.tree.Block.{size-Block};
ghost use Rattle.ntx_syntax.specs.declared.tree.Var.{size-Var};
ghost use Rattle.ntx_syntax.specs.declared.tree.Exp.{size-Exp};
ghost use Rattle.ntx_syntax.specs.declared.tree.Call.{size-Call};
ghost use Rattle.ntx_syntax.specs.declared.tree.Prefix.{size-Prefix};
ghost use Rattle.ntx_syntax.specs.declared.tree.StatKind.TheVariants as stat;
ghost use Rattle.ntx_resolve.specs.HasCode as code;
ghost use Rattle.ntx_resolve.specs.Limit as limit;
ghost use Rattle.ntx_resolve.specs.inner.Blocks.{Blocks};
ghost use Rattle.ntx_resolve.specs.inner.Resolves.{Resolves};

use crate::code::{Block, Call, StatKind, Var};
use crate::names::copied;
use crate::resolver::Resolver;
use crate::state::State;
use ntx_num::Fail;
use ntx_syntax as tree;
use ntx_syntax::SyntaxFault;
use sqlite_items::{Boxed, Items};
use std::alloc::Global;

impl<'a, B: Fn(Global, &mut State, &tree::Block) -> Result<Block, Fail<SyntaxFault>>> Resolver<
    'a,
    B,
> {
    /// What is assigned to.
    fn vars(&self, state: &mut State, vars: &[tree::Var]) -> Result<Items<Var>, Fail<SyntaxFault>>
        requires blocks { Blocks (size-Block self.now.within.now) (B.pre self.now.block) (B.post self.now.block) }
        requires small { most size-Var vars.now < size-Block self.now.within.now }
        ensures { Resolves (limit.excess_of_vars vars.now) (λ s all c. code.IsVars all s vars.now c) state.old result state.new }
    {
        let mut codes = Items::new(self.alloc);
        for var in vars {
            codes.push(self.var(state, var)?)?;
        }
        Ok(codes)
    }

    /// A variable that is assigned to.
    fn var(&self, state: &mut State, var: &tree::Var) -> Result<Var, Fail<SyntaxFault>>
        requires blocks { Blocks (size-Block self.now.within.now) (B.pre self.now.block) (B.post self.now.block) }
        requires small { size-Var var.now < size-Block self.now.within.now }
        ensures { Resolves (limit.excess_of_var var.now) (λ s all c. code.IsVar all s var.now c) state.old result state.new }
    {
        match var {
            tree::Var::Name(name) => {
                let variable = state.scope.variable(name);
                Ok(Var::Name(copied(self.alloc, name)?, variable))
            }
            tree::Var::Index(prefix, key) => {
                let prefix = self.boxed_prefix(state, prefix.get())?;
                let key = self.boxed_exp(state, key.get())?;
                Ok(Var::Index(prefix, key))
            }
            tree::Var::Field(prefix, name) => {
                let prefix = self.boxed_prefix(state, prefix.get())?;
                Ok(Var::Field(prefix, copied(self.alloc, name)?))
            }
        }
    }

    /// `varlist = explist`
    pub fn assignment(
        &self,
        state: &mut State,
        vars: &[tree::Var],
        values: &[tree::Exp],
    ) -> Result<StatKind, Fail<SyntaxFault>>
        requires blocks { Blocks (size-Block self.now.within.now) (B.pre self.now.block) (B.post self.now.block) }
        requires small { most size-Var vars.now < size-Block self.now.within.now }
        requires small_values { most size-Exp values.now < size-Block self.now.within.now }
        ensures { Resolves (limit.or_else (limit.excess_of_vars vars.now) (limit.excess_of_exps values.now)) (λ s all c. code.IsKind all s (stat.Assign vars.now values.now) c s) state.old result state.new }
    {
        let vars = self.vars(state, vars)?;
        let values = self.exps(state, values)?;
        Ok(StatKind::Assign(vars, values))
    }

    /// `call`
    pub fn call(&self, state: &mut State, call: &tree::Call) -> Result<StatKind, Fail<SyntaxFault>>
        requires blocks { Blocks (size-Block self.now.within.now) (B.pre self.now.block) (B.post self.now.block) }
        requires small { size-Call call.now < size-Block self.now.within.now }
        ensures { Resolves (limit.excess_of_call call.now) (λ s all c. code.IsKind all s (stat.Call call.now) c s) state.old result state.new }
    {
        let function = self.prefix(state, &call.function)?;
        let arguments = self.exps(state, call.arguments.as_slice())?;
        let call = Boxed::new(
            self.alloc,
            Call {
                function,
                arguments,
            },
        )?;
        Ok(StatKind::Call(call))
    }
}
