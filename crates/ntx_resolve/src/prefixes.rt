//! Variables, calls and parenthesized expressions.

ghost use Rattle.std.specs.Prelude.{◌≡◌, ◌<◌, ◌≤◌};
ghost use denote.Param.Weighed.{most};
ghost use Rattle.ntx_syntax.specs.declared.tree.Block.{size-Block};
ghost use Rattle.ntx_syntax.specs.declared.tree.Exp.{size-Exp};
ghost use Rattle.ntx_syntax.specs.declared.tree.Head.{size-Head};
ghost use Rattle.ntx_syntax.specs.declared.tree.Suffix.{size-Suffix};
ghost use Rattle.ntx_syntax.specs.declared.tree.Prefix.{size-Prefix};
ghost use Rattle.ntx_resolve.specs.HasCode as code;
ghost use Rattle.ntx_resolve.specs.Limit as limit;
ghost use Rattle.ntx_resolve.specs.inner.Blocks.{Blocks};
ghost use Rattle.ntx_resolve.specs.inner.Resolves.{Resolves};

use crate::code::{Block, Head, Prefix, Suffix};
use crate::names::copied;
use crate::resolver::Resolver;
use crate::state::State;
use ntx_num::Fail;
use ntx_syntax as tree;
use ntx_syntax::SyntaxFault;
use sqlite_items::{Boxed, Items};
use std::alloc::Global;

impl<'a, B: Fn(Global, &mut State, &tree::Block) -> Result<Block, Fail<SyntaxFault>>> Resolver<
    'a,
    B,
> {
    /// What a prefix begins with.
    #[cycle(exps)]
    pub fn head(&self, state: &mut State, head: &tree::Head) -> Result<Head, Fail<SyntaxFault>>
        requires blocks { Blocks (size-Block self.now.within.now) (B.pre self.now.block) (B.post self.now.block) }
        requires small { size-Head head.now < size-Block self.now.within.now }
        ensures { Resolves (limit.excess_of_head head.now) (λ s all c. code.IsHead all s head.now c) state.old result state.new }
    {
        match head {
            tree::Head::Name(name) => {
                let variable = state.scope.variable(name);
                Ok(Head::Name(copied(self.alloc, name)?, variable))
            }
            tree::Head::Parenthesized(exp) => {
                let exp = self.boxed_exp(state, exp.get())?;
                Ok(Head::Parenthesized(exp))
            }
        }
    }

    /// What stands after the head of a prefix.
    #[cycle(exps)]
    pub fn suffixes(
        &self,
        state: &mut State,
        suffixes: &[tree::Suffix],
    ) -> Result<Items<Suffix>, Fail<SyntaxFault>>
        requires blocks { Blocks (size-Block self.now.within.now) (B.pre self.now.block) (B.post self.now.block) }
        requires small { most size-Suffix suffixes.now < size-Block self.now.within.now }
        ensures { Resolves (limit.excess_of_suffixes suffixes.now) (λ s all c. code.IsSuffixes all s suffixes.now c) state.old result state.new }
    {
        let mut codes = Items::new(self.alloc);
        for suffix in suffixes {
            codes.push(self.suffix(state, suffix)?)?;
        }
        Ok(codes)
    }

    /// An index, a field or the arguments of a call.
    #[cycle(exps)]
    fn suffix(&self, state: &mut State, suffix: &tree::Suffix) -> Result<Suffix, Fail<SyntaxFault>>
        requires blocks { Blocks (size-Block self.now.within.now) (B.pre self.now.block) (B.post self.now.block) }
        requires small { size-Suffix suffix.now < size-Block self.now.within.now }
        ensures { Resolves (limit.excess_of_suffix suffix.now) (λ s all c. code.IsSuffix all s suffix.now c) state.old result state.new }
    {
        match suffix {
            tree::Suffix::Index(key) => {
                let key = self.boxed_exp(state, key.get())?;
                Ok(Suffix::Index(key))
            }
            tree::Suffix::Field(name) => Ok(Suffix::Field(copied(self.alloc, name)?)),
            tree::Suffix::Call(arguments) => {
                let arguments = self.exps(state, arguments.as_slice())?;
                Ok(Suffix::Call(arguments))
            }
        }
    }

    /// A variable, a call or a parenthesized expression.
    pub fn prefix(
        &self,
        state: &mut State,
        prefix: &tree::Prefix,
    ) -> Result<Prefix, Fail<SyntaxFault>>
        requires blocks { Blocks (size-Block self.now.within.now) (B.pre self.now.block) (B.post self.now.block) }
        requires small { size-Prefix prefix.now < size-Block self.now.within.now }
        ensures { Resolves (limit.excess_of_prefix prefix.now) (λ s all c. code.IsPrefix all s prefix.now c) state.old result state.new }
    {
        let head = self.head(state, &prefix.head)?;
        let suffixes = self.suffixes(state, prefix.suffixes.as_slice())?;
        Ok(Prefix { head, suffixes })
    }

    /// The same in a box.
    pub fn boxed_prefix(
        &self,
        state: &mut State,
        prefix: &tree::Prefix,
    ) -> Result<Boxed<Prefix>, Fail<SyntaxFault>>
        requires blocks { Blocks (size-Block self.now.within.now) (B.pre self.now.block) (B.post self.now.block) }
        requires small { size-Prefix prefix.now < size-Block self.now.within.now }
        ensures { Resolves (limit.excess_of_prefix prefix.now) (λ s all c. code.IsPrefix all s prefix.now c) state.old result state.new }
    {
        let code = self.prefix(state, prefix)?;
        Ok(Boxed::new(self.alloc, code)?)
    }
}
