//! Tables.

ghost use Rattle.std.specs.Prelude.{◌≡◌, ◌≤◌, ◌<◌, ◌+◌, ◌*◌, length, [], ◌∷◌, Some, OnOk};
ghost use Rattle.ntx_parse.specs.inner.Nests.{Nests};
ghost use Rattle.ntx_parse.specs.inner.Reading as reading;
ghost use Rattle.ntx_parse.specs.inner.Reading.{readers};
ghost use Rattle.ntx_parse.specs.inner.Reads.{Reads};
ghost use Rattle.ntx_parse.specs.inner.Room.{IsShallow, IsShallowPart, HasRoom, for_exp};

use crate::list::push;
use crate::parser::Parser;
use crate::place::{Place, within};
use crate::precedence::Precedence;
use crate::rules::Rules;
use ntx_num::Fail;
use ntx_syntax::{Block, Exp, Field, SyntaxFault, Terminal};
use sqlite_items::Items;
use std::alloc::Global;

impl<
    E: Fn(Global, &mut Parser<'_>, u64, Place, Precedence) -> Result<Exp, Fail<SyntaxFault>>,
    B: Fn(Global, &mut Parser<'_>, u64, Place) -> Result<Block, Fail<SyntaxFault>>,
> Rules<E, B> {
    /// `{ [field {(,|;) field} [,|;]] }`, at the place of the braces.
    pub fn table(
        &self,
        parser: &mut Parser<'_>,
        place: Place,
    ) -> Result<Items<Field>, Fail<SyntaxFault>>
        requires nests { Nests self.now.depth (E.pre self.now.exp) (E.post self.now.exp) (B.pre self.now.block) (B.post self.now.block) }
        requires shallow { IsShallowPart place }
        requires room { HasRoom for_exp self.now.depth place }
        ensures { Reads (λ n. reading.read_table (readers n) place parser.old.words) parser.old result parser.new }
    {
        parser.expect_word(place, Terminal::LeftBrace)?;
        let fields = self.fields(parser, place)?;
        parser.expect_word(place, Terminal::RightBrace)?;
        Ok(fields)
    }

    /// `[field {(,|;) field} [,|;]]`, up to the closing brace.
    fn fields(
        &self,
        parser: &mut Parser<'_>,
        place: Place,
    ) -> Result<Items<Field>, Fail<SyntaxFault>>
        requires nests { Nests self.now.depth (E.pre self.now.exp) (E.post self.now.exp) (B.pre self.now.block) (B.post self.now.block) }
        requires shallow { IsShallow place }
        requires room { HasRoom for_exp self.now.depth place }
        ensures { Reads (λ n. (readers n).fields place [] parser.old.words) parser.old result parser.new }
    {
        let mut fields = Items::new(self.alloc);
        while !parser.begins(Terminal::RightBrace) {
            push(self.alloc, &mut fields, self.field(parser, place)?)?;
            if !parser.begins_separator() {
                return Ok(fields);
            }
            parser.take_word(place)?;
        }
        Ok(fields)
    }

    /// `[ exp ] = exp`, `Name = exp` or `exp`.
    fn field(&self, parser: &mut Parser<'_>, place: Place) -> Result<Field, Fail<SyntaxFault>>
        requires nests { Nests self.now.depth (E.pre self.now.exp) (E.post self.now.exp) (B.pre self.now.block) (B.post self.now.block) }
        requires shallow { IsShallow place }
        requires room { HasRoom for_exp self.now.depth place }
        ensures { Reads (λ n. reading.read_field (readers n) place parser.old.words) parser.old result parser.new }
    {
        if parser.begins(Terminal::LeftBracket) {
            let key = self.index(parser, within(place))?;
            parser.expect_word(place, Terminal::Assign)?;
            let value = self.boxed_exp(parser, place, Precedence::Or)?;
            Ok(Field::Keyed(key, value))
        } else if parser.names_a_field() {
            let name = parser.name(self.alloc, place)?;
            parser.expect_word(place, Terminal::Assign)?;
            let value = self.boxed_exp(parser, place, Precedence::Or)?;
            Ok(Field::Named(name, value))
        } else {
            let value = self.exp(parser, place, Precedence::Or)?;
            Ok(Field::Positional(value))
        }
    }
}
