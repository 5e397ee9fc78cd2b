//! Loops.

ghost use Rattle.std.specs.Prelude.{◌≡◌, ◌≤◌, ◌<◌, ◌+◌, ◌*◌, length, [], ◌∷◌, Some, OnOk};
ghost use Rattle.ntx_parse.specs.inner.Nests.{Nests};
ghost use Rattle.ntx_parse.specs.inner.Reading as reading;
ghost use Rattle.ntx_parse.specs.inner.Reading.{readers};
ghost use Rattle.ntx_parse.specs.inner.Reads.{Reads};
ghost use Rattle.ntx_parse.specs.inner.Room.{IsShallow, HasRoom, for_exp};

use crate::names::names_behind;
use crate::parser::Parser;
use crate::place::{Place, within_loop};
use crate::precedence::Precedence;
use crate::rules::Rules;
use ntx_num::Fail;
use ntx_syntax::{Block, Exp, LocalName, StatKind, SyntaxFault, Terminal};
use sqlite_items::Boxed;
use std::alloc::Global;

impl<
    E: Fn(Global, &mut Parser<'_>, u64, Place, Precedence) -> Result<Exp, Fail<SyntaxFault>>,
    B: Fn(Global, &mut Parser<'_>, u64, Place) -> Result<Block, Fail<SyntaxFault>>,
> Rules<E, B> {
    /// `while exp do block end`
    pub fn while_loop(
        &self,
        parser: &mut Parser<'_>,
        place: Place,
    ) -> Result<StatKind, Fail<SyntaxFault>>
        requires nests { Nests self.now.depth (E.pre self.now.exp) (E.post self.now.exp) (B.pre self.now.block) (B.post self.now.block) }
        requires shallow { IsShallow place }
        requires room { HasRoom for_exp self.now.depth place }
        ensures reads { Reads (λ n. reading.read_while (readers n) place parser.old.words) parser.old result parser.new }
        ensures shorter { OnOk result (length parser.new.words < length parser.old.words) }
    {
        parser.take_word(place)?;
        let condition = self.boxed_exp(parser, place, Precedence::Or)?;
        let body = self.loop_body(parser, place)?;
        Ok(StatKind::While(condition, body))
    }

    /// `repeat block until exp`
    pub fn repeat_loop(
        &self,
        parser: &mut Parser<'_>,
        place: Place,
    ) -> Result<StatKind, Fail<SyntaxFault>>
        requires nests { Nests self.now.depth (E.pre self.now.exp) (E.post self.now.exp) (B.pre self.now.block) (B.post self.now.block) }
        requires shallow { IsShallow place }
        requires room { HasRoom for_exp self.now.depth place }
        ensures reads { Reads (λ n. reading.read_repeat (readers n) place parser.old.words) parser.old result parser.new }
        ensures shorter { OnOk result (length parser.new.words < length parser.old.words) }
    {
        parser.take_word(place)?;
        let body = self.boxed_block(parser, within_loop(place))?;
        parser.expect_word(place, Terminal::Until)?;
        let condition = self.boxed_exp(parser, place, Precedence::Or)?;
        Ok(StatKind::Repeat(body, condition))
    }

    /// `for Name = exp , exp [, exp] do block end` or `for namelist in explist do block end`
    pub fn for_loop(
        &self,
        parser: &mut Parser<'_>,
        place: Place,
    ) -> Result<StatKind, Fail<SyntaxFault>>
        requires nests { Nests self.now.depth (E.pre self.now.exp) (E.post self.now.exp) (B.pre self.now.block) (B.post self.now.block) }
        requires shallow { IsShallow place }
        requires room { HasRoom for_exp self.now.depth place }
        ensures reads { Reads (λ n. reading.read_for (readers n) place parser.old.words) parser.old result parser.new }
        ensures shorter { OnOk result (length parser.new.words < length parser.old.words) }
    {
        parser.take_word(place)?;
        let name = parser.local_name(self.alloc, place)?;
        if parser.begins(Terminal::Assign) {
            self.numeric_for_behind(parser, place, name)
        } else {
            self.generic_for_behind(parser, place, name)
        }
    }

    /// `= exp , exp [, exp] do block end`, after `for` and this name.
    fn numeric_for_behind(
        &self,
        parser: &mut Parser<'_>,
        place: Place,
        name: LocalName,
    ) -> Result<StatKind, Fail<SyntaxFault>>
        requires nests { Nests self.now.depth (E.pre self.now.exp) (E.post self.now.exp) (B.pre self.now.block) (B.post self.now.block) }
        requires shallow { IsShallow place }
        requires room { HasRoom for_exp self.now.depth place }
        ensures { Reads (λ n. reading.numeric_for_behind (readers n) place name parser.old.words) parser.old result parser.new }
    {
        parser.take_word(place)?;
        let first = self.boxed_exp(parser, place, Precedence::Or)?;
        parser.expect_word(place, Terminal::Comma)?;
        let limit = self.boxed_exp(parser, place, Precedence::Or)?;
        let step = self.step_behind(parser, place)?;
        let body = self.loop_body(parser, place)?;
        let name = Boxed::new(self.alloc, name)?;
        Ok(StatKind::NumericFor(name, first, limit, step, body))
    }

    /// `[, exp]`
    fn step_behind(
        &self,
        parser: &mut Parser<'_>,
        place: Place,
    ) -> Result<Option<Boxed<Exp>>, Fail<SyntaxFault>>
        requires nests { Nests self.now.depth (E.pre self.now.exp) (E.post self.now.exp) (B.pre self.now.block) (B.post self.now.block) }
        requires shallow { IsShallow place }
        requires room { HasRoom for_exp self.now.depth place }
        ensures { Reads (λ n. reading.step_behind (readers n) place parser.old.words) parser.old result parser.new }
    {
        if !parser.begins(Terminal::Comma) {
            return Ok(None);
        }
        parser.take_word(place)?;
        let value = self.boxed_exp(parser, place, Precedence::Or)?;
        Ok(Some(value))
    }

    /// `{, Name} in explist do block end`, after `for` and this name.
    fn generic_for_behind(
        &self,
        parser: &mut Parser<'_>,
        place: Place,
        first: LocalName,
    ) -> Result<StatKind, Fail<SyntaxFault>>
        requires nests { Nests self.now.depth (E.pre self.now.exp) (E.post self.now.exp) (B.pre self.now.block) (B.post self.now.block) }
        requires shallow { IsShallow place }
        requires room { HasRoom for_exp self.now.depth place }
        ensures { Reads (λ n. reading.generic_for_behind (readers n) place first parser.old.words) parser.old result parser.new }
    {
        let names = names_behind(self.alloc, parser, place, first)?;
        parser.expect_word(place, Terminal::In)?;
        let values = self.exps(parser, place)?;
        let body = self.loop_body(parser, place)?;
        Ok(StatKind::GenericFor(names, values, body))
    }
}
