//! Tables.

ghost use Rattle.std.specs.Prelude.{◌≡◌, ◌<◌, ◌≤◌};
ghost use denote.Param.Weighed.{most};
ghost use Rattle.ntx_syntax.specs.declared.tree.Block.{size-Block};
ghost use Rattle.ntx_syntax.specs.declared.tree.Exp.{size-Exp};
ghost use Rattle.ntx_syntax.specs.declared.tree.Field.{size-Field};
ghost use Rattle.ntx_resolve.specs.HasCode as code;
ghost use Rattle.ntx_resolve.specs.Limit as limit;
ghost use Rattle.ntx_resolve.specs.inner.Blocks.{Blocks};
ghost use Rattle.ntx_resolve.specs.inner.Resolves.{Resolves};

use crate::code::{Block, Field};
use crate::names::copied;
use crate::resolver::Resolver;
use crate::state::State;
use ntx_num::Fail;
use ntx_syntax as tree;
use ntx_syntax::SyntaxFault;
use sqlite_items::Items;
use std::alloc::Global;

impl<'a, B: Fn(Global, &mut State, &tree::Block) -> Result<Block, Fail<SyntaxFault>>> Resolver<
    'a,
    B,
> {
    /// The fields of a table.
    #[cycle(exps)]
    pub fn fields(
        &self,
        state: &mut State,
        fields: &[tree::Field],
    ) -> Result<Items<Field>, Fail<SyntaxFault>>
        requires blocks { Blocks (size-Block self.now.within.now) (B.pre self.now.block) (B.post self.now.block) }
        requires small { most size-Field fields.now < size-Block self.now.within.now }
        ensures { Resolves (limit.excess_of_fields fields.now) (λ s all c. code.IsFields all s fields.now c) state.old result state.new }
    {
        let mut codes = Items::new(self.alloc);
        for field in fields {
            codes.push(self.field(state, field)?)?;
        }
        Ok(codes)
    }

    /// A field of a table.
    #[cycle(exps)]
    fn field(&self, state: &mut State, field: &tree::Field) -> Result<Field, Fail<SyntaxFault>>
        requires blocks { Blocks (size-Block self.now.within.now) (B.pre self.now.block) (B.post self.now.block) }
        requires small { size-Field field.now < size-Block self.now.within.now }
        ensures { Resolves (limit.excess_of_field field.now) (λ s all c. code.IsField all s field.now c) state.old result state.new }
    {
        match field {
            tree::Field::Keyed(key, value) => {
                let key = self.boxed_exp(state, key.get())?;
                let value = self.boxed_exp(state, value.get())?;
                Ok(Field::Keyed(key, value))
            }
            tree::Field::Named(name, value) => {
                let value = self.boxed_exp(state, value.get())?;
                Ok(Field::Named(copied(self.alloc, name)?, value))
            }
            tree::Field::Positional(value) => {
                let value = self.exp(state, value)?;
                Ok(Field::Positional(value))
            }
        }
    }
}
