//! Variables, calls and parenthesized expressions.

ghost use Rattle.std.specs.Prelude.{◌≡◌, ◌≤◌, ◌<◌, ◌+◌, ◌*◌, length, [], ◌∷◌, Some, OnOk};
ghost use Rattle.ntx_parse.specs.inner.Nests.{Nests};
ghost use Rattle.ntx_parse.specs.inner.Reading as reading;
ghost use Rattle.ntx_parse.specs.inner.Reading.{readers};
ghost use Rattle.ntx_parse.specs.inner.Reads.{Reads};
ghost use Rattle.ntx_parse.specs.inner.Room.{IsShallow, IsShallowPart, HasRoom, for_operand, for_exp};
ghost use Rattle.ntx_parse.specs.inner.Steps.{tail_at};

use crate::parser::Parser;
use crate::part::{Part, Tail, extended};
use crate::place::{Place, within};
use crate::precedence::Precedence;
use crate::rules::Rules;
use ntx_num::Fail;
use ntx_syntax::{Block, Exp, SyntaxFault, Terminal};
use sqlite_items::{Boxed, Items};
use std::alloc::Global;

impl<
    E: Fn(Global, &mut Parser<'_>, u64, Place, Precedence) -> Result<Exp, Fail<SyntaxFault>>,
    B: Fn(Global, &mut Parser<'_>, u64, Place) -> Result<Block, Fail<SyntaxFault>>,
> Rules<E, B> {
    /// A name or a parenthesized expression, and all suffixes after it.
    pub fn prefix(&self, parser: &mut Parser<'_>, place: Place) -> Result<Part, Fail<SyntaxFault>>
        requires nests { Nests self.now.depth (E.pre self.now.exp) (E.post self.now.exp) (B.pre self.now.block) (B.post self.now.block) }
        requires shallow { IsShallow place }
        requires room { HasRoom for_operand self.now.depth place }
        ensures reads { Reads (λ n. reading.read_prefix (readers n) place parser.old.words) parser.old result parser.new }
        ensures shorter { OnOk result (length parser.new.words < length parser.old.words) }
    {
        if parser.begins(Terminal::LeftParenthesis) {
            let exp = self.parenthesized(parser, within(place))?;
            self.suffixes_behind(parser, place, Part::Parenthesized(exp))
        } else {
            let name = parser.name(self.alloc, place)?;
            self.suffixes_behind(parser, place, Part::Name(name))
        }
    }

    /// `( exp )`, at the place of the parentheses.
    fn parenthesized(
        &self,
        parser: &mut Parser<'_>,
        place: Place,
    ) -> Result<Boxed<Exp>, Fail<SyntaxFault>>
        requires nests { Nests self.now.depth (E.pre self.now.exp) (E.post self.now.exp) (B.pre self.now.block) (B.post self.now.block) }
        requires shallow { IsShallowPart place }
        requires room { HasRoom for_exp self.now.depth place }
        ensures reads { Reads (λ n. reading.read_parenthesized (readers n) place parser.old.words) parser.old result parser.new }
        ensures shorter { OnOk result (length parser.new.words < length parser.old.words) }
    {
        parser.expect_word(place, Terminal::LeftParenthesis)?;
        let exp = self.boxed_exp(parser, place, Precedence::Or)?;
        parser.expect_word(place, Terminal::RightParenthesis)?;
        Ok(exp)
    }

    /// All suffixes after this.
    fn suffixes_behind(
        &self,
        parser: &mut Parser<'_>,
        place: Place,
        first: Part,
    ) -> Result<Part, Fail<SyntaxFault>>
        requires nests { Nests self.now.depth (E.pre self.now.exp) (E.post self.now.exp) (B.pre self.now.block) (B.post self.now.block) }
        requires shallow { IsShallow place }
        requires room { HasRoom for_operand self.now.depth place }
        ensures { Reads (λ n. (readers n).suffixes place first parser.old.words) parser.old result parser.new }
    {
        let mut before = first;
        while parser.begins_suffix() {
            let tail = self.tail(parser, place)?;
            before = extended(self.alloc, before, tail)?;
        }
        Ok(before)
    }

    /// `[ exp ]`, `. Name` or `( [explist] )`
    fn tail(&self, parser: &mut Parser<'_>, place: Place) -> Result<Tail, Fail<SyntaxFault>>
        requires nests { Nests self.now.depth (E.pre self.now.exp) (E.post self.now.exp) (B.pre self.now.block) (B.post self.now.block) }
        requires shallow { IsShallow place }
        requires room { HasRoom for_operand self.now.depth place }
        ensures reads { Reads (λ n. tail_at (readers n) place parser.old.words) parser.old result parser.new }
        ensures shorter { OnOk result (length parser.new.words < length parser.old.words) }
    {
        if parser.begins(Terminal::LeftBracket) {
            let key = self.index(parser, within(place))?;
            Ok(Tail::Index(key))
        } else if parser.begins(Terminal::Dot) {
            parser.take_word(place)?;
            let name = parser.name(self.alloc, place)?;
            Ok(Tail::Field(name))
        } else {
            let arguments = self.arguments(parser, within(place))?;
            Ok(Tail::Call(arguments))
        }
    }

    /// `[ exp ]`, at the place of the brackets.
    pub fn index(
        &self,
        parser: &mut Parser<'_>,
        place: Place,
    ) -> Result<Boxed<Exp>, Fail<SyntaxFault>>
        requires nests { Nests self.now.depth (E.pre self.now.exp) (E.post self.now.exp) (B.pre self.now.block) (B.post self.now.block) }
        requires shallow { IsShallowPart place }
        requires room { HasRoom for_exp self.now.depth place }
        ensures reads { Reads (λ n. reading.read_index (readers n) place parser.old.words) parser.old result parser.new }
        ensures shorter { OnOk result (length parser.new.words < length parser.old.words) }
    {
        parser.expect_word(place, Terminal::LeftBracket)?;
        let key = self.boxed_exp(parser, place, Precedence::Or)?;
        parser.expect_word(place, Terminal::RightBracket)?;
        Ok(key)
    }

    /// `( [explist] )`, at the place of the parentheses.
    fn arguments(
        &self,
        parser: &mut Parser<'_>,
        place: Place,
    ) -> Result<Items<Exp>, Fail<SyntaxFault>>
        requires nests { Nests self.now.depth (E.pre self.now.exp) (E.post self.now.exp) (B.pre self.now.block) (B.post self.now.block) }
        requires shallow { IsShallowPart place }
        requires room { HasRoom for_exp self.now.depth place }
        ensures reads { Reads (λ n. reading.read_arguments (readers n) place parser.old.words) parser.old result parser.new }
        ensures shorter { OnOk result (length parser.new.words < length parser.old.words) }
    {
        parser.expect_word(place, Terminal::LeftParenthesis)?;
        if parser.begins(Terminal::RightParenthesis) {
            parser.take_word(place)?;
            return Ok(Items::new(self.alloc));
        }
        let arguments = self.exps(parser, place)?;
        parser.expect_word(place, Terminal::RightParenthesis)?;
        Ok(arguments)
    }
}
