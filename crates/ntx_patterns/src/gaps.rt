//! The points at which a word may be divided.

ghost use Rattle.std.specs.Prelude.{◌≡◌, ℕ, ◌+◌, ◌<◌, ◌≤◌, max, List, length, slice_index, vec_len, All, IfOk};
ghost use Rattle.std.specs.List.Sorted.{IsStrictlyIncreasing};
ghost use Rattle.ntx_num.specs.Answer.{Gives, result_map};
ghost use Rattle.ntx_patterns.specs.Pattern.{Pattern};
ghost use Rattle.ntx_patterns.specs.Table.{table_of};
ghost use Rattle.ntx_patterns.specs.Kept.{row, table};
ghost use Rattle.ntx_patterns.specs.Points.{digit_at, digit_in, value_in, points_in, points_of};
ghost use Rattle.ntx_patterns.specs.Points as Points;

use crate::patterns::Patterns;
use crate::trie::Node;
use crate::word::is_letter;
use ntx_num::NoMemory;
use std::alloc::Global;

/// A letter in lower case; 0 for any other byte.
fn symbol_of(byte: u8) -> u8
    ensures { result ≡ Points.symbol_of byte }
{
    let lower = byte.to_ascii_lowercase();
    if is_letter(lower) { lower } else { 0 }
}

/// A word between two dots.
fn dotted(alloc: Global, word: &[u8]) -> Result<Vec<u8>, NoMemory>
    ensures { IfOk result (λ text. text.items ≡ Points.dotted word.now) }
{
    let mut text = Vec::new(alloc);
    text.push(b'.')?;
    for byte in word {
        text.push(symbol_of(*byte))?;
    }
    text.push(b'.')?;
    Ok(text)
}

/// Raises the values from this place on to the digits.
fn raise(values: &mut [u8], place: usize, digits: &[u8])
    requires { place ≤ length values.old }
    ensures { (gap : ℕ) → gap < length values.old →
        slice_index values.new gap ≡ max (slice_index values.old gap) (digit_at digits.now place gap) }
{
    for (i, digit) in digits.iter().enumerate() {
        if i < values.len() - place {
            values[place + i] = values[place + i].max(*digit);
        }
    }
}

/// Raises the values of a text to the digits of all patterns that match at the start of its rest from this place on.
fn raise_matches(trie: &Node, rest: &[u8], place: usize, values: &mut [u8])
    requires { place ≤ length values.old }
    ensures { (gap : ℕ) → gap < length values.old →
        slice_index values.new gap ≡ max (slice_index values.old gap) (digit_in (row trie.now) rest.now place gap) }
{
    raise(values, place, trie.digits());
    let mut node = trie;
    for symbol in rest {
        match node.child(*symbol) {
            None => return,
            Some(child) => {
                raise(values, place, child.digits());
                node = child;
            }
        }
    }
}

/// The value of each gap before a symbol of a text, and of the gap at its end.
fn gap_values(alloc: Global, p: &Patterns, text: &[u8]) -> Result<Vec<u8>, NoMemory>
    ensures length { IfOk result (λ values. vec_len values ≡ length text.now + 1) }
    ensures values { IfOk result (λ values. (gap : ℕ) → gap < length text.now + 1 → slice_index values.items gap ≡ value_in (table p.now) text.now gap) }
{
    let mut values = vec![in alloc; 0u8; text.len() + 1]?;
    for place in 0..text.len() {
        raise_matches(&p.trie, &text[place..], place, &mut values);
    }
    Ok(values)
}

/// Whether a gap of this value after `i` of `n` letters is allowed.
fn is_allowed(value: u8, n: usize, left: u64, right: u64, i: usize) -> bool
    requires { i ≤ n }
    ensures { result ≡ Points.is_allowed (λ _. value) n left right i }
{
    value % 2 == 1 && left <= i as u64 && right <= (n - i) as u64
}

/// The gaps of a word of bytes at which patterns allow it to be divided, ascending. Gap i stands after i bytes of n. It is
/// allowed if its value is odd, i is at least `left` and n - i at least `right`. Its value is the greatest digit that a pattern puts
/// there, 0 if none does, when each pattern is matched at each place of the word between two dots. Letters match in either
/// case; any other byte matches nothing.
///
/// Each place takes at most as many steps down the trie as the longest pattern has symbols, and each step takes constant
/// time, however many patterns there are.
pub fn points(
    alloc: Global,
    p: &Patterns,
    word: &[u8],
    left: u64,
    right: u64,
) -> Result<Vec<u64>, NoMemory>
    ensures table { Gives (result_map (λ points. points.items) result) (points_in (table p.now) word.now left right) }
    ensures pairs { (patterns : List Pattern) → table p.now ≡ table_of patterns →
        Gives (result_map (λ points. points.items) result) (points_of patterns word.now left right) }
    ensures inside { IfOk result (λ points. All (λ i. (left ≤ i) × (i + right ≤ length word.now)) points.items) }
    ensures ascending { IfOk result (λ points. IsStrictlyIncreasing points.items) }
{
    let text = dotted(alloc, word)?;
    let values = gap_values(alloc, p, &text)?;
    let mut points = Vec::new(alloc);
    for i in 0..word.len() + 1 {
        if is_allowed(values[i + 1], word.len(), left, right, i) {
            points.push(i as u64)?;
        }
    }
    Ok(points)
}
