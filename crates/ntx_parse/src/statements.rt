//! Statements.

ghost use Rattle.std.specs.Prelude.{◌≡◌, ◌≤◌, ◌<◌, ◌+◌, ◌*◌, length, [], ◌∷◌, Some, OnOk};
ghost use Rattle.ntx_syntax.specs.declared.tree.StatKind.TheVariants as stat;
ghost use Rattle.ntx_parse.specs.inner.Nests.{Nests};
ghost use Rattle.ntx_parse.specs.inner.Reading as reading;
ghost use Rattle.ntx_parse.specs.inner.Reading.{readers};
ghost use Rattle.ntx_parse.specs.inner.Reads.{Reads};
ghost use Rattle.ntx_parse.specs.inner.Room.{IsShallow, HasRoom, for_exp};

use crate::list::push;
use crate::parser::Parser;
use crate::place::{Place, within};
use crate::precedence::Precedence;
use crate::rules::Rules;
use ntx_num::Fail;
use ntx_syntax::{Block, Exp, IfArm, StatKind, SyntaxFault, SyntaxWhy, Terminal};
use sqlite_items::{Boxed, Items};
use std::alloc::Global;

/// `;`
fn empty(parser: &mut Parser<'_>, place: Place) -> Result<StatKind, Fail<SyntaxFault>>
    ensures reads { Reads (λ _. reading.and_then (reading.take_word place parser.old.words) (λ _ rest. reading.read stat.Empty rest)) parser.old result parser.new }
    ensures shorter { OnOk result (length parser.new.words < length parser.old.words) }
{
    parser.take_word(place)?;
    Ok(StatKind::Empty)
}

/// `break`. It is refused outside of a loop (Break).
fn break_stat(parser: &mut Parser<'_>, place: Place) -> Result<StatKind, Fail<SyntaxFault>>
    ensures reads { Reads (λ _. reading.read_break place parser.old.words) parser.old result parser.new }
    ensures shorter { OnOk result (length parser.new.words < length parser.old.words) }
{
    let fault = parser.fault(SyntaxWhy::Break);
    parser.take_word(place)?;
    if place.in_loop {
        Ok(StatKind::Break)
    } else {
        Err(fault)
    }
}

impl<
    E: Fn(Global, &mut Parser<'_>, u64, Place, Precedence) -> Result<Exp, Fail<SyntaxFault>>,
    B: Fn(Global, &mut Parser<'_>, u64, Place) -> Result<Block, Fail<SyntaxFault>>,
> Rules<E, B> {
    /// The statement that begins with this.
    pub fn kind(
        &self,
        parser: &mut Parser<'_>,
        place: Place,
        begins: Terminal,
    ) -> Result<StatKind, Fail<SyntaxFault>>
        requires nests { Nests self.now.depth (E.pre self.now.exp) (E.post self.now.exp) (B.pre self.now.block) (B.post self.now.block) }
        requires shallow { IsShallow place }
        requires room { HasRoom for_exp self.now.depth place }
        ensures reads { Reads (λ n. reading.kind_at (readers n) place begins parser.old.words) parser.old result parser.new }
        ensures shorter { OnOk result (length parser.new.words < length parser.old.words) }
    {
        match begins {
            Terminal::Semicolon => empty(parser, place),
            Terminal::Break => break_stat(parser, place),
            Terminal::Do => self.do_block(parser, place),
            Terminal::While => self.while_loop(parser, place),
            Terminal::Repeat => self.repeat_loop(parser, place),
            Terminal::If => self.if_stat(parser, place),
            Terminal::For => self.for_loop(parser, place),
            Terminal::Function => self.function(parser, place),
            Terminal::Local => self.local(parser, place),
            _ => self.call_or_assignment(parser, place),
        }
    }

    /// `do block end`
    fn do_block(&self, parser: &mut Parser<'_>, place: Place) -> Result<StatKind, Fail<SyntaxFault>>
        requires nests { Nests self.now.depth (E.pre self.now.exp) (E.post self.now.exp) (B.pre self.now.block) (B.post self.now.block) }
        requires shallow { IsShallow place }
        requires room { HasRoom for_exp self.now.depth place }
        ensures reads { Reads (λ n. reading.read_do (readers n) place parser.old.words) parser.old result parser.new }
        ensures shorter { OnOk result (length parser.new.words < length parser.old.words) }
    {
        parser.take_word(place)?;
        let body = self.block_to_end(parser, place, within(place))?;
        Ok(StatKind::Do(body))
    }

    /// `if exp then block {elseif exp then block} [else block] end`
    fn if_stat(&self, parser: &mut Parser<'_>, place: Place) -> Result<StatKind, Fail<SyntaxFault>>
        requires nests { Nests self.now.depth (E.pre self.now.exp) (E.post self.now.exp) (B.pre self.now.block) (B.post self.now.block) }
        requires shallow { IsShallow place }
        requires room { HasRoom for_exp self.now.depth place }
        ensures reads { Reads (λ n. reading.read_if (readers n) place parser.old.words) parser.old result parser.new }
        ensures shorter { OnOk result (length parser.new.words < length parser.old.words) }
    {
        let first = self.arm(parser, place)?;
        let arms = self.arms_behind(parser, place, first)?;
        let other = self.other(parser, place)?;
        parser.expect_word(place, Terminal::End)?;
        Ok(StatKind::If(arms, other))
    }

    /// `{elseif exp then block}`, after this arm, which is the first of the list.
    fn arms_behind(
        &self,
        parser: &mut Parser<'_>,
        place: Place,
        first: IfArm,
    ) -> Result<Items<IfArm>, Fail<SyntaxFault>>
        requires nests { Nests self.now.depth (E.pre self.now.exp) (E.post self.now.exp) (B.pre self.now.block) (B.post self.now.block) }
        requires shallow { IsShallow place }
        requires room { HasRoom for_exp self.now.depth place }
        ensures { Reads (λ n. (readers n).arms place (first ∷ []) parser.old.words) parser.old result parser.new }
    {
        let mut arms = Items::new(self.alloc);
        push(self.alloc, &mut arms, first)?;
        while parser.begins(Terminal::Elseif) {
            push(self.alloc, &mut arms, self.arm(parser, place)?)?;
        }
        Ok(arms)
    }

    /// `if exp then block`, or the same with `elseif`.
    fn arm(&self, parser: &mut Parser<'_>, place: Place) -> Result<IfArm, Fail<SyntaxFault>>
        requires nests { Nests self.now.depth (E.pre self.now.exp) (E.post self.now.exp) (B.pre self.now.block) (B.post self.now.block) }
        requires shallow { IsShallow place }
        requires room { HasRoom for_exp self.now.depth place }
        ensures reads { Reads (λ n. reading.read_arm (readers n) place parser.old.words) parser.old result parser.new }
        ensures shorter { OnOk result (length parser.new.words < length parser.old.words) }
        ensures within { OnOk result (place.nesting ≤ 200) }
    {
        parser.take_word(place)?;
        let condition = self.exp(parser, place, Precedence::Or)?;
        parser.expect_word(place, Terminal::Then)?;
        let block = self.block(parser, within(place))?;
        Ok(IfArm { condition, block })
    }

    /// `[else block]`
    fn other(
        &self,
        parser: &mut Parser<'_>,
        place: Place,
    ) -> Result<Option<Boxed<Block>>, Fail<SyntaxFault>>
        requires nests { Nests self.now.depth (E.pre self.now.exp) (E.post self.now.exp) (B.pre self.now.block) (B.post self.now.block) }
        requires shallow { IsShallow place }
        requires room { HasRoom for_exp self.now.depth place }
        ensures { Reads (λ n. reading.else_behind (readers n) place parser.old.words) parser.old result parser.new }
    {
        if !parser.begins(Terminal::Else) {
            return Ok(None);
        }
        parser.take_word(place)?;
        let block = self.boxed_block(parser, within(place))?;
        Ok(Some(block))
    }
}
