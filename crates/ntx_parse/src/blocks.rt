//! Blocks.

ghost use Rattle.std.specs.Prelude.{◌≡◌, ◌≤◌, ◌<◌, ◌+◌, ◌*◌, length, [], ◌∷◌, Some, OnOk};
ghost use Rattle.ntx_parse.specs.inner.Nests.{Nests};
ghost use Rattle.ntx_parse.specs.inner.Reading as reading;
ghost use Rattle.ntx_parse.specs.inner.Reading.{readers};
ghost use Rattle.ntx_parse.specs.inner.Reads.{Reads};
ghost use Rattle.ntx_parse.specs.inner.Room.{IsShallow, HasRoom, for_exp, for_block};

use crate::list::push;
use crate::parser::Parser;
use crate::place::{Place, within_loop};
use crate::precedence::Precedence;
use crate::rules::Rules;
use ntx_num::Fail;
use ntx_syntax::{Block, Exp, Return, Stat, SyntaxFault, Terminal};
use sqlite_items::{Boxed, Items};
use std::alloc::Global;

/// `[;]`
fn semicolon_behind(parser: &mut Parser<'_>, place: Place) -> Result<bool, Fail<SyntaxFault>>
    ensures { Reads (λ _. reading.semicolon_behind place parser.old.words) parser.old result parser.new }
{
    if !parser.begins(Terminal::Semicolon) {
        return Ok(false);
    }
    parser.take_word(place)?;
    Ok(true)
}

impl<
    E: Fn(Global, &mut Parser<'_>, u64, Place, Precedence) -> Result<Exp, Fail<SyntaxFault>>,
    B: Fn(Global, &mut Parser<'_>, u64, Place) -> Result<Block, Fail<SyntaxFault>>,
> Rules<E, B> {
    /// `{stat} [return [explist] [;]]`
    pub fn statements(
        &self,
        parser: &mut Parser<'_>,
        place: Place,
    ) -> Result<Block, Fail<SyntaxFault>>
        requires nests { Nests self.now.depth (E.pre self.now.exp) (E.post self.now.exp) (B.pre self.now.block) (B.post self.now.block) }
        requires shallow { IsShallow place }
        requires room { HasRoom for_exp self.now.depth place }
        ensures { Reads (λ n. reading.block_at (readers n) place parser.old.words) parser.old result parser.new }
    {
        let stats = self.stats(parser, place)?;
        let last = self.last(parser, place)?;
        Ok(Block { stats, last })
    }

    /// `{stat}`, each with the line of its first word.
    fn stats(&self, parser: &mut Parser<'_>, place: Place) -> Result<Items<Stat>, Fail<SyntaxFault>>
        requires nests { Nests self.now.depth (E.pre self.now.exp) (E.post self.now.exp) (B.pre self.now.block) (B.post self.now.block) }
        requires shallow { IsShallow place }
        requires room { HasRoom for_exp self.now.depth place }
        ensures { Reads (λ n. (readers n).stats place [] parser.old.words) parser.old result parser.new }
    {
        let mut stats = Items::new(self.alloc);
        while let Some((terminal, line)) = parser.statement_at() {
            let kind = self.kind(parser, place, terminal)?;
            push(self.alloc, &mut stats, Stat { line, kind })?;
        }
        Ok(stats)
    }

    /// `[return [explist] [;]]`
    fn last(
        &self,
        parser: &mut Parser<'_>,
        place: Place,
    ) -> Result<Option<Return>, Fail<SyntaxFault>>
        requires nests { Nests self.now.depth (E.pre self.now.exp) (E.post self.now.exp) (B.pre self.now.block) (B.post self.now.block) }
        requires shallow { IsShallow place }
        requires room { HasRoom for_exp self.now.depth place }
        ensures { Reads (λ n. reading.last_behind (readers n) place parser.old.words) parser.old result parser.new }
    {
        if !parser.begins(Terminal::Return) {
            return Ok(None);
        }
        let word = parser.take_word(place)?;
        let values = self.returned(parser, place)?;
        semicolon_behind(parser, place)?;
        Ok(Some(Return {
            line: word.line,
            values,
        }))
    }

    /// `[explist]`, after `return`.
    fn returned(
        &self,
        parser: &mut Parser<'_>,
        place: Place,
    ) -> Result<Items<Exp>, Fail<SyntaxFault>>
        requires nests { Nests self.now.depth (E.pre self.now.exp) (E.post self.now.exp) (B.pre self.now.block) (B.post self.now.block) }
        requires shallow { IsShallow place }
        requires room { HasRoom for_exp self.now.depth place }
        ensures { Reads (λ n. reading.returned_behind (readers n) place parser.old.words) parser.old result parser.new }
    {
        if parser.ends_returned() {
            Ok(Items::new(self.alloc))
        } else {
            self.exps(parser, place)
        }
    }

    /// `block end`, where the block stands at `inside` and `end` at `place`.
    pub fn block_to_end(
        &self,
        parser: &mut Parser<'_>,
        place: Place,
        inside: Place,
    ) -> Result<Boxed<Block>, Fail<SyntaxFault>>
        requires nests { Nests self.now.depth (E.pre self.now.exp) (E.post self.now.exp) (B.pre self.now.block) (B.post self.now.block) }
        requires shallow { IsShallow inside }
        requires room { HasRoom for_block self.now.depth inside }
        ensures { Reads (λ n. reading.block_to_end (readers n) place inside parser.old.words) parser.old result parser.new }
    {
        let body = self.boxed_block(parser, inside)?;
        parser.expect_word(place, Terminal::End)?;
        Ok(body)
    }

    /// `do block end`, of a loop.
    pub fn loop_body(
        &self,
        parser: &mut Parser<'_>,
        place: Place,
    ) -> Result<Boxed<Block>, Fail<SyntaxFault>>
        requires nests { Nests self.now.depth (E.pre self.now.exp) (E.post self.now.exp) (B.pre self.now.block) (B.post self.now.block) }
        requires shallow { IsShallow place }
        requires room { HasRoom for_exp self.now.depth place }
        ensures { Reads (λ n. reading.loop_body (readers n) place parser.old.words) parser.old result parser.new }
    {
        parser.expect_word(place, Terminal::Do)?;
        self.block_to_end(parser, place, within_loop(place))
    }
}
