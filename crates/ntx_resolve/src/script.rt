//! Resolving a script.

ghost use Rattle.std.specs.Prelude.{◌≡◌};
ghost use Rattle.ntx_resolve.specs.HasCode as code;
ghost use Rattle.ntx_resolve.specs.Limit as limit;
ghost use Rattle.ntx_resolve.specs.Resolved.{Resolved};
ghost use Rattle.ntx_resolve.specs.Scopes as scopes;
ghost use Rattle.ntx_resolve.specs.inner.Resolves.{Leaves};

use crate::code::{Block, Code};
use crate::resolver::Resolver;
use crate::scope::Scope;
use crate::state::State;
use ntx_num::Fail;
use ntx_syntax as tree;
use ntx_syntax::{Chunk, SyntaxFault};
use sqlite_items::Items;
use std::alloc::Global;

/// The code of a block. Its names stay in scope.
fn block_of(
    alloc: Global,
    state: &mut State,
    block: &tree::Block,
) -> Result<Block, Fail<SyntaxFault>>
    ensures { Leaves (limit.excess_of_block block.now (scopes.locals state.old.scope)) (λ s all c t. code.IsBlock all s block.now c t) state.old result state.new }
{
    Resolver {
        alloc,
        within: block,
        block: block_of,
    }
    .resolve(state)
}

/// The code of a script (Lua 5.3 Reference Manual, section 3.5): its tree, in which each use of a name says which variable it
/// is.
///
/// # Refusals
///
/// Locals, with the line of the name, at the first name in the order of the text that would be the 201st named local variable
/// of its function in scope. Parameters count, and so does a name that a later one hides. What a loop keeps without a name does not.
pub fn resolve(alloc: Global, chunk: &Chunk) -> Result<Code, Fail<SyntaxFault>>
    ensures { Resolved chunk.now result }
{
    let mut state = State {
        functions: Items::new(alloc),
        scope: Scope::outermost(alloc),
    };
    let block = block_of(alloc, &mut state, &chunk.block)?;
    Ok(Code {
        functions: state.functions,
        block,
    })
}
