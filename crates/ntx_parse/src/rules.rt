//! The rules of the grammar take the readers of expressions and of blocks as parameters, so that each is by itself.

ghost use Rattle.std.specs.Prelude.{◌≡◌, ◌≤◌, ◌<◌, ◌+◌, ◌*◌, length, [], ◌∷◌, Some, OnOk};
ghost use Rattle.ntx_parse.specs.inner.Nests.{Nests};
ghost use Rattle.ntx_parse.specs.inner.Reading as reading;
ghost use Rattle.ntx_parse.specs.inner.Reading.{readers};
ghost use Rattle.ntx_parse.specs.inner.Reads.{Reads};
ghost use Rattle.ntx_parse.specs.inner.Room.{IsShallow, HasRoom, for_exp, for_block};

use crate::parser::Parser;
use crate::place::Place;
use crate::precedence::Precedence;
use ntx_num::Fail;
use ntx_syntax::{Block, Exp, SyntaxFault};
use sqlite_items::Boxed;
use std::alloc::Global;

/// The rules, over what reads the expressions and the blocks in them.
#[derive(Clone, Copy)]
pub struct Rules<E, B> {
    /// The memory for trees.
    pub alloc: Global,
    /// How deep expressions and blocks may still be inside one another.
    pub depth: u64,
    /// What reads an expression.
    pub exp: E,
    /// What reads a block.
    pub block: B,
}

impl<
    E: Fn(Global, &mut Parser<'_>, u64, Place, Precedence) -> Result<Exp, Fail<SyntaxFault>>,
    B: Fn(Global, &mut Parser<'_>, u64, Place) -> Result<Block, Fail<SyntaxFault>>,
> Rules<E, B> {
    /// An expression.
    pub fn exp(
        &self,
        parser: &mut Parser<'_>,
        place: Place,
        precedence: Precedence,
    ) -> Result<Exp, Fail<SyntaxFault>>
        requires nests { Nests self.now.depth (E.pre self.now.exp) (E.post self.now.exp) (B.pre self.now.block) (B.post self.now.block) }
        requires shallow { IsShallow place }
        requires room { HasRoom for_exp self.now.depth place }
        ensures { Reads (λ n. (readers n).exp place precedence parser.old.words) parser.old result parser.new }
    {
        (self.exp)(self.alloc, parser, self.depth, place, precedence)
    }

    /// A block.
    pub fn block(&self, parser: &mut Parser<'_>, place: Place) -> Result<Block, Fail<SyntaxFault>>
        requires nests { Nests self.now.depth (E.pre self.now.exp) (E.post self.now.exp) (B.pre self.now.block) (B.post self.now.block) }
        requires shallow { IsShallow place }
        requires room { HasRoom for_block self.now.depth place }
        ensures { Reads (λ n. (readers n).block place parser.old.words) parser.old result parser.new }
    {
        (self.block)(self.alloc, parser, self.depth, place)
    }

    /// An expression, in a box.
    pub fn boxed_exp(
        &self,
        parser: &mut Parser<'_>,
        place: Place,
        precedence: Precedence,
    ) -> Result<Boxed<Exp>, Fail<SyntaxFault>>
        requires nests { Nests self.now.depth (E.pre self.now.exp) (E.post self.now.exp) (B.pre self.now.block) (B.post self.now.block) }
        requires shallow { IsShallow place }
        requires room { HasRoom for_exp self.now.depth place }
        ensures { Reads (λ n. (readers n).exp place precedence parser.old.words) parser.old result parser.new }
    {
        let exp = self.exp(parser, place, precedence)?;
        Ok(Boxed::new(self.alloc, exp)?)
    }

    /// A block, in a box.
    pub fn boxed_block(
        &self,
        parser: &mut Parser<'_>,
        place: Place,
    ) -> Result<Boxed<Block>, Fail<SyntaxFault>>
        requires nests { Nests self.now.depth (E.pre self.now.exp) (E.post self.now.exp) (B.pre self.now.block) (B.post self.now.block) }
        requires shallow { IsShallow place }
        requires room { HasRoom for_block self.now.depth place }
        ensures { Reads (λ n. (readers n).block place parser.old.words) parser.old result parser.new }
    {
        let block = self.block(parser, place)?;
        Ok(Boxed::new(self.alloc, block)?)
    }
}
