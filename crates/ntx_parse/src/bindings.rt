//! Declarations, assignments and calls.

ghost use Rattle.std.specs.Prelude.{◌≡◌, ◌≤◌, ◌<◌, ◌+◌, ◌*◌, length, [], ◌∷◌, Some, OnOk};
ghost use Rattle.ntx_parse.specs.inner.Nests.{Nests};
ghost use Rattle.ntx_parse.specs.inner.Reading as reading;
ghost use Rattle.ntx_parse.specs.inner.Reading.{readers};
ghost use Rattle.ntx_parse.specs.inner.Reads.{Reads};
ghost use Rattle.ntx_parse.specs.inner.Room.{IsShallow, HasRoom, for_exp};

use crate::list::push;
use crate::names::{names, path};
use crate::parser::Parser;
use crate::part::{Part, var_of};
use crate::place::{Place, within};
use crate::precedence::Precedence;
use crate::rules::Rules;
use ntx_num::Fail;
use ntx_syntax::{Block, Call, Exp, StatKind, SyntaxFault, SyntaxWhy, Terminal, Var};
use sqlite_items::{Boxed, Items};
use std::alloc::Global;

/// What can be assigned to. Where a prefix was read that cannot, the next word is refused (Expected).
fn as_var(parser: &Parser<'_>, var: Option<Var>) -> Result<Var, Fail<SyntaxFault>>
    ensures { Reads (λ _. reading.as_var var parser.now.words) parser.now result parser.now }
{
    match var {
        Some(var) => Ok(var),
        None => Err(parser.fault(SyntaxWhy::Expected)),
    }
}

impl<
    E: Fn(Global, &mut Parser<'_>, u64, Place, Precedence) -> Result<Exp, Fail<SyntaxFault>>,
    B: Fn(Global, &mut Parser<'_>, u64, Place) -> Result<Block, Fail<SyntaxFault>>,
> Rules<E, B> {
    /// `function Name {. Name} body`
    pub fn function(
        &self,
        parser: &mut Parser<'_>,
        place: Place,
    ) -> Result<StatKind, Fail<SyntaxFault>>
        requires nests { Nests self.now.depth (E.pre self.now.exp) (E.post self.now.exp) (B.pre self.now.block) (B.post self.now.block) }
        requires shallow { IsShallow place }
        requires room { HasRoom for_exp self.now.depth place }
        ensures reads { Reads (λ n. reading.read_function (readers n) place parser.old.words) parser.old result parser.new }
        ensures shorter { OnOk result (length parser.new.words < length parser.old.words) }
    {
        parser.take_word(place)?;
        let name = parser.name(self.alloc, place)?;
        let fields = path(self.alloc, parser, place)?;
        let body = self.body(parser, within(place))?;
        Ok(StatKind::Function(name, fields, body))
    }

    /// `local function Name body` or `local namelist [= explist]`
    pub fn local(
        &self,
        parser: &mut Parser<'_>,
        place: Place,
    ) -> Result<StatKind, Fail<SyntaxFault>>
        requires nests { Nests self.now.depth (E.pre self.now.exp) (E.post self.now.exp) (B.pre self.now.block) (B.post self.now.block) }
        requires shallow { IsShallow place }
        requires room { HasRoom for_exp self.now.depth place }
        ensures reads { Reads (λ n. reading.read_local (readers n) place parser.old.words) parser.old result parser.new }
        ensures shorter { OnOk result (length parser.new.words < length parser.old.words) }
    {
        parser.take_word(place)?;
        if parser.begins(Terminal::Function) {
            self.local_function_behind(parser, place)
        } else {
            self.locals_behind(parser, place)
        }
    }

    /// `function Name body`, after `local`.
    fn local_function_behind(
        &self,
        parser: &mut Parser<'_>,
        place: Place,
    ) -> Result<StatKind, Fail<SyntaxFault>>
        requires nests { Nests self.now.depth (E.pre self.now.exp) (E.post self.now.exp) (B.pre self.now.block) (B.post self.now.block) }
        requires shallow { IsShallow place }
        requires room { HasRoom for_exp self.now.depth place }
        ensures { Reads (λ n. reading.local_function_behind (readers n) place parser.old.words) parser.old result parser.new }
    {
        parser.take_word(place)?;
        let name = parser.local_name(self.alloc, place)?;
        let body = self.body(parser, within(place))?;
        Ok(StatKind::LocalFunction(name, body))
    }

    /// `namelist [= explist]`, after `local`.
    fn locals_behind(
        &self,
        parser: &mut Parser<'_>,
        place: Place,
    ) -> Result<StatKind, Fail<SyntaxFault>>
        requires nests { Nests self.now.depth (E.pre self.now.exp) (E.post self.now.exp) (B.pre self.now.block) (B.post self.now.block) }
        requires shallow { IsShallow place }
        requires room { HasRoom for_exp self.now.depth place }
        ensures { Reads (λ n. reading.locals_behind (readers n) place parser.old.words) parser.old result parser.new }
    {
        let names = names(self.alloc, parser, place)?;
        let values = self.values_behind(parser, place)?;
        Ok(StatKind::Local(names, values))
    }

    /// `[= explist]`
    fn values_behind(
        &self,
        parser: &mut Parser<'_>,
        place: Place,
    ) -> Result<Items<Exp>, Fail<SyntaxFault>>
        requires nests { Nests self.now.depth (E.pre self.now.exp) (E.post self.now.exp) (B.pre self.now.block) (B.post self.now.block) }
        requires shallow { IsShallow place }
        requires room { HasRoom for_exp self.now.depth place }
        ensures { Reads (λ n. reading.values_behind (readers n) place parser.old.words) parser.old result parser.new }
    {
        if !parser.begins(Terminal::Assign) {
            return Ok(Items::new(self.alloc));
        }
        parser.take_word(place)?;
        self.exps(parser, place)
    }

    /// `call` or `varlist = explist`
    pub fn call_or_assignment(
        &self,
        parser: &mut Parser<'_>,
        place: Place,
    ) -> Result<StatKind, Fail<SyntaxFault>>
        requires nests { Nests self.now.depth (E.pre self.now.exp) (E.post self.now.exp) (B.pre self.now.block) (B.post self.now.block) }
        requires shallow { IsShallow place }
        requires room { HasRoom for_exp self.now.depth place }
        ensures reads { Reads (λ n. reading.read_expression_statement (readers n) place parser.old.words) parser.old result parser.new }
        ensures shorter { OnOk result (length parser.new.words < length parser.old.words) }
    {
        let found = self.prefix(parser, place)?;
        match found {
            Part::Name(name) => self.assignment_to(parser, place, Var::Name(name)),
            Part::Parenthesized(_) => Err(parser.fault(SyntaxWhy::Expected)),
            Part::Index(before, key) => {
                let indexed = Boxed::new(self.alloc, before)?;
                self.assignment_to(parser, place, Var::Index(indexed, key))
            }
            Part::Field(before, name) => {
                let table = Boxed::new(self.alloc, before)?;
                self.assignment_to(parser, place, Var::Field(table, name))
            }
            Part::Call(function, arguments) => {
                let call = Boxed::new(
                    self.alloc,
                    Call {
                        function,
                        arguments,
                    },
                )?;
                Ok(StatKind::Call(call))
            }
        }
    }

    /// `{, var} = explist`, after this variable.
    fn assignment_to(
        &self,
        parser: &mut Parser<'_>,
        place: Place,
        first: Var,
    ) -> Result<StatKind, Fail<SyntaxFault>>
        requires nests { Nests self.now.depth (E.pre self.now.exp) (E.post self.now.exp) (B.pre self.now.block) (B.post self.now.block) }
        requires shallow { IsShallow place }
        requires room { HasRoom for_exp self.now.depth place }
        ensures { Reads (λ n. reading.assignment_to (readers n) place first parser.old.words) parser.old result parser.new }
    {
        let vars = self.vars_behind(parser, place, first)?;
        parser.expect_word(place, Terminal::Assign)?;
        let values = self.exps(parser, place)?;
        Ok(StatKind::Assign(vars, values))
    }

    /// `{, var}`, after this variable, which is the first of the list.
    fn vars_behind(
        &self,
        parser: &mut Parser<'_>,
        place: Place,
        first: Var,
    ) -> Result<Items<Var>, Fail<SyntaxFault>>
        requires nests { Nests self.now.depth (E.pre self.now.exp) (E.post self.now.exp) (B.pre self.now.block) (B.post self.now.block) }
        requires shallow { IsShallow place }
        requires room { HasRoom for_exp self.now.depth place }
        ensures { Reads (λ n. (readers n).vars place (first ∷ []) parser.old.words) parser.old result parser.new }
    {
        let mut vars = Items::new(self.alloc);
        push(self.alloc, &mut vars, first)?;
        while parser.begins(Terminal::Comma) {
            parser.take_word(place)?;
            let found = self.prefix(parser, place)?;
            let var = var_of(self.alloc, found)?;
            push(self.alloc, &mut vars, as_var(parser, var)?)?;
        }
        Ok(vars)
    }
}
