//! Reading a file of patterns.

ghost use Rattle.std.specs.Prelude.{◌≡◌, ◌<◌, ◌⊎◌, [], ◌∷◌, length, position, MatchOption, IfSome};
ghost use Rattle.std.specs.List.{slice_split, before_first};
ghost use Rattle.ntx_num.specs.Answer.{Answers, result_map};
ghost use Rattle.ntx_patterns.specs.Pattern.{pattern_of};
ghost use Rattle.ntx_patterns.specs.File.{patterns_of};
ghost use Rattle.ntx_patterns.specs.File as file;
ghost use Rattle.ntx_patterns.specs.inner.Adding.{with_pattern, with_patterns};
ghost use Rattle.ntx_patterns.specs.inner.Packed.{AllPacked};
ghost use Rattle.ntx_patterns.specs.Table.{table_of};
ghost use Rattle.ntx_patterns.specs.Kept.{row, table};

use crate::fault::PatternFault;
use crate::patterns::Patterns;
use crate::trie::Node;
use crate::word::{digits, is_pattern, symbols};
use ntx_num::Fail;
use std::alloc::Global;

/// Whether a byte separates words: a space, a tab or a CR.
fn is_blank(byte: u8) -> bool
    ensures { result ≡ file.is_blank byte }
{
    byte == b' ' || byte == b'\t' || byte == b'\r'
}

/// The place of the first LF.
fn first_feed(bytes: &[u8]) -> Option<usize>
    ensures { result ≡ position file.is_feed bytes.now }
{
    bytes.iter().position(|byte| *byte == b'\n')
}

/// The place of the first percent sign.
fn first_percent(line: &[u8]) -> Option<usize>
    ensures { result ≡ position file.is_percent line.now }
{
    line.iter().position(|byte| *byte == b'%')
}

/// The place of the first byte that is not a blank.
fn first_filled(text: &[u8]) -> Option<usize>
    ensures { result ≡ position file.is_filled text.now }
{
    text.iter().position(|byte| !is_blank(*byte))
}

/// The place of the first blank.
fn first_blank(text: &[u8]) -> Option<usize>
    ensures { result ≡ position file.is_blank text.now }
{
    text.iter().position(|byte| is_blank(*byte))
}

/// The first line of a text without its LF, and the text after it.
fn next_line(bytes: &[u8]) -> (&[u8], &[u8])
    requires { 0 < length bytes.now }
    ensures lines { (slice_split file.is_feed bytes.now ≡ result.0.now ∷ slice_split file.is_feed result.1.now)
        ⊎ ((slice_split file.is_feed bytes.now ≡ result.0.now ∷ []) × (result.1.now ≡ [])) }
    ensures shorter { length result.1.now < length bytes.now }
{
    match first_feed(bytes) {
        None => (bytes, &[]),
        Some(end) => (&bytes[..end], &bytes[end + 1..]),
    }
}

/// A line without its comment.
fn before_comment(line: &[u8]) -> &[u8]
    ensures { result.now ≡ before_first file.is_percent line.now }
{
    match first_percent(line) {
        None => line,
        Some(end) => &line[..end],
    }
}

/// The first word of a text, and the text after it.
fn next_word(text: &[u8]) -> Option<(&[u8], &[u8])>
    ensures words { MatchOption result (file.words_in text.now ≡ [])
        (λ found. file.words_in text.now ≡ found.0.now ∷ file.words_in found.1.now) }
    ensures shorter { IfSome result (λ found. length found.1.now < length text.now) }
{
    let start = first_filled(text)?;
    let filled = &text[start..];
    match first_blank(filled) {
        None => Some((filled, &[])),
        Some(end) => Some((&filled[..end], &filled[end + 1..])),
    }
}

/// Adds the pattern of a word on the line of this number to a trie.
fn add_word(
    alloc: Global,
    trie: &mut Node,
    number: u64,
    word: &[u8],
) -> Result<(), Fail<PatternFault>>
    requires { AllPacked trie.old }
    ensures rows { Answers (result_map (λ _. row trie.new) result) (result_map (with_pattern (row trie.old)) (file.read_at number (pattern_of word.now))) }
    ensures packed { AllPacked trie.new }
{
    if !is_pattern(word) {
        return Err(Fail::Is(PatternFault { line: number }));
    }
    let symbols = symbols(alloc, word)?;
    let digits = digits(alloc, word)?;
    trie.add(alloc, &symbols, &digits)?;
    Ok(())
}

/// Adds the patterns of the line of this number to a trie.
fn add_line(
    alloc: Global,
    trie: &mut Node,
    number: u64,
    line: &[u8],
) -> Result<(), Fail<PatternFault>>
    requires { AllPacked trie.old }
    ensures rows { Answers (result_map (λ _. row trie.new) result) (result_map (with_patterns (row trie.old)) (file.patterns_on number (file.words_of line.now))) }
    ensures packed { AllPacked trie.new }
{
    let mut rest = before_comment(line);
    while let Some((word, behind)) = next_word(rest) {
        add_word(alloc, trie, number, word)?;
        rest = behind;
    }
    Ok(())
}

/// The patterns of a file. Spaces, tabs, CR and LF separate them, and `%` begins a comment to the end of its line, which is
/// before the next LF. A pattern is an optional dot, 1 to 63 letters from `a` to `z` with at most one digit before, between and
/// after them, and an optional dot. A dot represents an end of a word. Patterns may be repeated.
///
/// # Refusals
///
/// The first word that is no pattern, with its line. Lines are counted from 1, and LF alone ends one.
pub fn read_patterns(alloc: Global, bytes: &[u8]) -> Result<Patterns, Fail<PatternFault>>
    ensures { Answers (result_map table result) (result_map table_of (patterns_of bytes.now)) }
{
    let mut trie = Node::new(alloc);
    let mut number: u64 = 0;
    let mut rest = bytes;
    while !rest.is_empty() {
        let (line, behind) = next_line(rest);
        number += 1;
        add_line(alloc, &mut trie, number, line)?;
        rest = behind;
    }
    Ok(Patterns { trie })
}
