//! Lists of names.

ghost use Rattle.std.specs.Prelude.{◌≤◌, ◌<◌, length, [], ◌∷◌, OnOk};
ghost use Rattle.ntx_parse.specs.inner.Reading as reading;
ghost use Rattle.ntx_parse.specs.inner.Reading.{readers};
ghost use Rattle.ntx_parse.specs.inner.Reads.{Reads};

use crate::list::push;
use crate::parser::Parser;
use crate::place::Place;
use ntx_num::Fail;
use ntx_syntax::{LocalName, Name, SyntaxFault, Terminal};
use sqlite_items::Items;
use std::alloc::Global;

/// `{. Name}`
pub fn path(
    alloc: Global,
    parser: &mut Parser<'_>,
    place: Place,
) -> Result<Items<Name>, Fail<SyntaxFault>>
    ensures { Reads (λ n. (readers n).path place [] parser.old.words) parser.old result parser.new }
{
    let mut names = Items::new(alloc);
    while parser.begins(Terminal::Dot) {
        parser.take_word(place)?;
        push(alloc, &mut names, parser.name(alloc, place)?)?;
    }
    Ok(names)
}

/// `Name {, Name}`
pub fn names(
    alloc: Global,
    parser: &mut Parser<'_>,
    place: Place,
) -> Result<Items<LocalName>, Fail<SyntaxFault>>
    ensures { Reads (λ n. reading.read_names (readers n) place parser.old.words) parser.old result parser.new }
{
    let first = parser.local_name(alloc, place)?;
    names_behind(alloc, parser, place, first)
}

/// `{, Name}`, after this name, which is the first of the list.
pub fn names_behind(
    alloc: Global,
    parser: &mut Parser<'_>,
    place: Place,
    first: LocalName,
) -> Result<Items<LocalName>, Fail<SyntaxFault>>
    ensures { Reads (λ n. (readers n).names place (first ∷ []) parser.old.words) parser.old result parser.new }
{
    let mut names = Items::new(alloc);
    push(alloc, &mut names, first)?;
    while parser.begins(Terminal::Comma) {
        parser.take_word(place)?;
        push(alloc, &mut names, parser.local_name(alloc, place)?)?;
    }
    Ok(names)
}

/// `( [Name {, Name}] )`
pub fn parameters(
    alloc: Global,
    parser: &mut Parser<'_>,
    place: Place,
) -> Result<Items<LocalName>, Fail<SyntaxFault>>
    ensures reads { Reads (λ n. reading.read_parameters (readers n) place parser.old.words) parser.old result parser.new }
    ensures within { OnOk result (place.nesting ≤ 200) }
{
    parser.expect_word(place, Terminal::LeftParenthesis)?;
    if parser.begins(Terminal::RightParenthesis) {
        parser.take_word(place)?;
        return Ok(Items::new(alloc));
    }
    let names = names(alloc, parser, place)?;
    parser.expect_word(place, Terminal::RightParenthesis)?;
    Ok(names)
}
