//! The words that are not yet read.

ghost use Rattle.std.specs.Prelude.{◌≡◌, ◌<◌, ◌≤◌, ◌||◌, length, map, IfOk, OnOk, IsTrue, ◌↔◌, [], Some};
ghost use Rattle.ntx_num.specs.Answer.{result_map};
ghost use Rattle.ntx_num.specs.declared.answer.Fail.TheVariants.{Is};
ghost use Rattle.ntx_syntax.specs.declared.terminal.Terminal.TheVariants as terminal;
ghost use Rattle.ntx_syntax.specs.Values.{numeral_value, text_value};
ghost use Rattle.ntx_syntax.specs.declared.tree.Exp.TheVariants as exp;
ghost use Rattle.ntx_parse.specs.inner.Reading as reading;
ghost use Rattle.ntx_parse.specs.inner.Input as input;
ghost use Rattle.ntx_parse.specs.inner.Reads.{Reads};

use crate::operator::{binary_of, precedence_of, unary_of};
use crate::place::Place;
use crate::precedence::Precedence;
use crate::starts::{begins_statement, ends_return};
use crate::word::Word;
use ntx_num::Fail;
use ntx_syntax::{
    BinaryOp, Exp, LocalName, Name, SyntaxFault, SyntaxWhy, Terminal, UnaryOp, numeral_value,
    text_value,
};
use sqlite_items::Items;
use std::alloc::Global;
use std::marker::Model;

/// The greatest nesting of a word.
const MAX_NESTING: u64 = 200;

/// A parser, between two words.
#[derive(Drop)]
pub struct Parser<'a> {
    /// The words that are not yet read.
    rest: &'a [Word<'a>],
    /// The number of the script's last line, from 1.
    last_line: u64,
}

impl<'a> Model for Parser<'a> {
    ghost use Rattle.ntx_parse.specs.inner.Input.{Input};

    ghost Value = { Input };

    ghost use Rattle.ntx_parse.specs.inner.Cursor.{input_of, IsReady};

    ghost view = { input_of };

    ghost invariant = { IsReady };
}

impl<'a> Parser<'a> {
    /// A parser before these words, of a script with this last line.
    pub fn new(words: &'a [Word<'a>], last_line: u64) -> Parser<'a>
        requires { input.HaveValues (map input.seen words.now) }
        ensures { result ≡ record { words = map input.seen words.now; last_line = last_line } }
    {
        Parser {
            rest: words,
            last_line,
        }
    }

    /// Whether all words are read.
    pub fn is_at_end(&self) -> bool
        ensures { IsTrue result ↔ (self.now.words ≡ []) }
    {
        self.rest.is_empty()
    }

    /// What the next word is, if there is one.
    pub fn next(&self) -> Option<Terminal>
        ensures { result ≡ input.next_of self.now.words }
    {
        match self.rest {
            [] => None,
            [word, ..] => Some(word.is),
        }
    }

    /// Whether the next word is this.
    pub fn begins(&self, terminal: Terminal) -> bool
        ensures { result ≡ reading.begins terminal self.now.words }
    {
        match self.rest {
            [] => false,
            [word, ..] => word.is == terminal,
        }
    }

    /// Whether a name and `=` come next.
    pub fn names_a_field(&self) -> bool
        ensures { result ≡ reading.names_a_field self.now.words }
    {
        match self.rest {
            [first, second, ..] => { first.is == Terminal::Name && second.is == Terminal::Assign }
            _ => false,
        }
    }

    /// The operator between operands that comes next, if it has this precedence.
    pub fn operator_at(&self, precedence: Precedence) -> Option<BinaryOp>
        ensures { result ≡ reading.operator_at precedence self.now.words }
    {
        let operator = binary_of(self.next()?)?;
        if precedence_of(operator) == precedence {
            Some(operator)
        } else {
            None
        }
    }

    /// The operator before an operand that comes next.
    pub fn sign_at(&self) -> Option<UnaryOp>
        ensures { result ≡ reading.sign_at self.now.words }
    {
        unary_of(self.next()?)
    }

    /// Whether a suffix comes next.
    pub fn begins_suffix(&self) -> bool
        ensures { result ≡ (reading.begins terminal.LeftBracket self.now.words || reading.begins terminal.Dot self.now.words || reading.begins terminal.LeftParenthesis self.now.words) }
    {
        self.begins(Terminal::LeftBracket)
            || self.begins(Terminal::Dot)
            || self.begins(Terminal::LeftParenthesis)
    }

    /// Whether `,` or `;` comes next.
    pub fn begins_separator(&self) -> bool
        ensures { result ≡ (reading.begins terminal.Comma self.now.words || reading.begins terminal.Semicolon self.now.words) }
    {
        self.begins(Terminal::Comma) || self.begins(Terminal::Semicolon)
    }

    /// What the next word is, and its line, if a statement begins with it, `return` aside.
    pub fn statement_at(&self) -> Option<(Terminal, u64)>
        ensures { result ≡ input.statement_at self.now.words }
    {
        match self.rest {
            [] => None,
            [word, ..] => {
                if begins_statement(word.is) {
                    Some((word.is, word.line))
                } else {
                    None
                }
            }
        }
    }

    /// Whether what comes next cannot begin an expression after `return`, but ends it or its block.
    pub fn ends_returned(&self) -> bool
        ensures { result ≡ reading.ends_returned self.now.words }
    {
        match self.rest {
            [] => true,
            [word, ..] => ends_return(word.is),
        }
    }

    /// The line of the next word, or the last line.
    pub fn line(&self) -> u64
        ensures { result ≡ input.line_of self.now.last_line self.now.words }
    {
        match self.rest {
            [] => self.last_line,
            [word, ..] => word.line,
        }
    }

    /// The fault at the next word, or at the end of the script.
    pub fn fault(&self, why: SyntaxWhy) -> Fail<SyntaxFault>
        ensures { result ≡ Is (record { line = input.line_of self.now.last_line self.now.words; why = why }) }
    {
        Fail::Is(SyntaxFault {
            line: self.line(),
            why,
        })
    }

    /// Takes the next word, which stands here. It is refused where there is none (Expected) or where it is too deep
    /// (Depth).
    pub fn take_word(&mut self, place: Place) -> Result<Word<'a>, Fail<SyntaxFault>>
        ensures reads { Reads (λ _. reading.take_word place self.old.words) self.old (result_map input.seen result) self.new }
        ensures shorter { OnOk result (length self.new.words < length self.old.words) }
        ensures within { OnOk result (place.nesting ≤ 200) }
    {
        match self.rest {
            [] => Err(self.fault(SyntaxWhy::Expected)),
            [word, rest @ ..] => {
                if place.nesting > MAX_NESTING {
                    return Err(self.fault(SyntaxWhy::Depth));
                }
                self.rest = rest;
                Ok(*word)
            }
        }
    }

    /// Takes the next word, which is to be this and stands here. Another is refused (Expected).
    pub fn expect_word(
        &mut self,
        place: Place,
        terminal: Terminal,
    ) -> Result<Word<'a>, Fail<SyntaxFault>>
        ensures reads { Reads (λ _. reading.expect_word place terminal self.old.words) self.old (result_map input.seen result) self.new }
        ensures shorter { OnOk result (length self.new.words < length self.old.words) }
        ensures within { OnOk result (place.nesting ≤ 200) }
    {
        if self.begins(terminal) {
            self.take_word(place)
        } else {
            Err(self.fault(SyntaxWhy::Expected))
        }
    }

    /// Takes a name.
    pub fn name(&mut self, alloc: Global, place: Place) -> Result<Name, Fail<SyntaxFault>>
        ensures reads { Reads (λ _. reading.read_name place self.old.words) self.old result self.new }
        ensures shorter { OnOk result (length self.new.words < length self.old.words) }
        ensures within { OnOk result (place.nesting ≤ 200) }
    {
        let word = self.expect_word(place, Terminal::Name)?;
        Ok(Items::from_slice(alloc, word.spelled)?)
    }

    /// Takes a name that is declared local.
    pub fn local_name(
        &mut self,
        alloc: Global,
        place: Place,
    ) -> Result<LocalName, Fail<SyntaxFault>>
        ensures reads { Reads (λ _. reading.read_local_name place self.old.words) self.old result self.new }
        ensures shorter { OnOk result (length self.new.words < length self.old.words) }
        ensures within { OnOk result (place.nesting ≤ 200) }
    {
        let word = self.expect_word(place, Terminal::Name)?;
        let name = Items::from_slice(alloc, word.spelled)?;
        Ok(LocalName {
            name,
            line: word.line,
        })
    }

    /// Takes a numeral, which comes next.
    pub fn numeral(&mut self, place: Place) -> Result<Exp, Fail<SyntaxFault>>
        requires { input.next_of self.old.words ≡ Some terminal.Numeral }
        ensures { Reads (λ _. reading.and_then (reading.take_word place self.old.words) (λ o rest. reading.read_value exp.Numeral (numeral_value o.spelled) self.old.words rest)) self.old result self.new }
    {
        // The words that are left, as the proof sees them.
        let _ = &self.rest;
        let word = self.take_word(place)?;
        Ok(Exp::Numeral(numeral_value(word.spelled)))
    }

    /// Takes a text, which comes next.
    pub fn text(&mut self, alloc: Global, place: Place) -> Result<Exp, Fail<SyntaxFault>>
        requires { input.next_of self.old.words ≡ Some terminal.Text }
        ensures { Reads (λ _. reading.and_then (reading.take_word place self.old.words) (λ o rest. reading.read_value exp.Text (text_value o.spelled) self.old.words rest)) self.old result self.new }
    {
        // The words that are left, as the proof sees them.
        let _ = &self.rest;
        let word = self.take_word(place)?;
        let value = text_value(alloc, word.spelled)?;
        Ok(Exp::Text(Items::from_vec(value)))
    }
}
