//! Reading a script.

ghost use Rattle.std.specs.Prelude.{◌≡◌, ◌≤◌, ◌+◌, ◌*◌, [], map, Ok, Err, IfOk};
ghost use Rattle.ntx_num.specs.Answer.{Answers};
ghost use Rattle.ntx_syntax.specs.Lexes.{Lexes, line_ends};
ghost use Rattle.ntx_syntax.specs.declared.fault.SyntaxFault as declared;
ghost use Rattle.ntx_syntax.specs.declared.tree.Chunk.{Chunk};
ghost use Rattle.ntx_parse.specs.Faults.{IfRefused, IsRefused};
ghost use Rattle.ntx_parse.specs.Grammar.{Accepts};
ghost use Rattle.ntx_parse.specs.inner.Input.{HaveValues, seen};
ghost use Rattle.ntx_parse.specs.inner.Reading.{readers, script_by};
ghost use Rattle.ntx_parse.specs.inner.Reads.{Reads};
ghost use Rattle.ntx_parse.specs.inner.Room.{IsShallow, HasRoom, for_exp, for_block};
ghost use Rattle.ntx_parse.specs.Words.{words_of};

use crate::parser::Parser;
use crate::place::{Place, outermost};
use crate::precedence::Precedence;
use crate::rules::Rules;
use crate::word::{Word, words_of};
use ntx_num::Fail;
use ntx_syntax::{
    Block, Chunk, Exp, SyntaxFault, SyntaxWhy, Token, line_ends, numerals_have_values,
    texts_have_values, tokens_stand_in_order,
};
use std::alloc::Global;

/// How deep expressions and blocks can be inside one another in a script whose words lie no deeper than they may.
const MAX_DEPTH: u64 = 406;

/// An expression that stands here, whose own operators bind as tight as this precedence or tighter.
#[cycle(phrases)]
fn exp(
    alloc: Global,
    parser: &mut Parser<'_>,
    depth: u64,
    place: Place,
    precedence: Precedence,
) -> Result<Exp, Fail<SyntaxFault>>
    requires shallow { IsShallow place }
    requires room { HasRoom for_exp depth place }
    ensures { Reads (λ n. (readers n).exp place precedence parser.old.words) parser.old result parser.new }
{
    Rules {
        alloc,
        depth: depth - 1,
        exp,
        block,
    }
    .level(parser, place, precedence)
}

/// A block that stands here.
#[cycle(phrases)]
fn block(
    alloc: Global,
    parser: &mut Parser<'_>,
    depth: u64,
    place: Place,
) -> Result<Block, Fail<SyntaxFault>>
    requires shallow { IsShallow place }
    requires room { HasRoom for_block depth place }
    ensures { Reads (λ n. (readers n).block place parser.old.words) parser.old result parser.new }
{
    Rules {
        alloc,
        depth: depth - 1,
        exp,
        block,
    }
    .statements(parser, place)
}

/// The number of the last line, from 1: that after the last LF.
fn last_line(bytes: &[u8]) -> u64
    ensures { result ≡ 1 + line_ends bytes.now }
{
    1 + line_ends(bytes) as u64
}

/// The block of a script of these words, with this last line.
fn whole(alloc: Global, words: &[Word<'_>], last_line: u64) -> Result<Block, Fail<SyntaxFault>>
    requires { HaveValues (map seen words.now) }
    ensures { Reads (λ n. script_by n (map seen words.now)) (record { words = map seen words.now; last_line = last_line }) result (record { words = []; last_line = last_line }) }
{
    let mut parser = Parser::new(words, last_line);
    let block = block(alloc, &mut parser, MAX_DEPTH, outermost())?;
    if parser.is_at_end() {
        Ok(block)
    } else {
        Err(parser.fault(SyntaxWhy::Expected))
    }
}

/// The tree of a script (Lua 5.3 Reference Manual, section 9), of its tokens. `tokens` are those of `bytes`, as
/// `ntx_syntax::tokens` gives them.
///
/// Operators of one precedence that associate to the left, the suffixes of one prefix and the arms of one `if` are lists in
/// the tree. A statement has the line of its first token, and a name that is declared local that of its token.
///
/// # Refusals
///
/// A script is refused at its first wrong token, with the line of that token, or with the last line, the one after its last
/// line feed, where it ends too early. Expected: the tokens before it can be the prefix of a script, and with it they cannot,
/// or the script cannot end there. Depth: it is no such token, and it lies in more than 200 blocks (the script's own not
/// counted), bodies of functions, tables, parts in `( )` or `[ ]`, and operands of unary and right operands of binary
/// operators. Break: it is neither of these, and it is a `break` outside of any loop of its function.
///
/// # Examples
///
/// ```text
/// x = 1 + 2 * 3      a tree
/// x = = 1            Expected in line 1
/// x =                Expected in line 1
/// break              Break in line 1
/// ```
pub fn parse(alloc: Global, bytes: &[u8], tokens: &[Token]) -> Result<Chunk, Fail<SyntaxFault>>
    requires { Lexes bytes.now tokens.now }
    // What it gives is the script's tree.
    ensures accepts { IfOk result (λ chunk. Accepts (words_of bytes.now tokens.now) chunk) }
    // A script that has a tree is given it, unless memory runs out.
    ensures only { (chunk : Chunk) → Accepts (words_of bytes.now tokens.now) chunk → Answers result (Ok chunk) }
    // What it refuses is refused rightly.
    ensures refused { IfRefused result (λ fault. IsRefused bytes.now (words_of bytes.now tokens.now) fault) }
    // A script that has a fault is refused with it, unless memory runs out.
    ensures only_fault { (fault : declared.SyntaxFault) → IsRefused bytes.now (words_of bytes.now tokens.now) fault → Answers result (Err fault) }
{
    tokens_stand_in_order();
    numerals_have_values();
    texts_have_values();
    let words = words_of(alloc, bytes, tokens)?;
    let block = whole(alloc, words.as_slice(), last_line(bytes))?;
    Ok(Chunk { block })
}
