//! Lines with a fixed number of fields.

ghost use Rattle.std.specs.Prelude.{◌≡◌, ◌≢◌, [], ◌∷◌, length, MatchOption};
ghost use Rattle.ntx_doc.specs.Text.{fields_of};

use crate::text::next_field;

/// The field of a line, if it has exactly one.
pub fn one_field(line: &[u8]) -> Option<&[u8]>
    ensures { MatchOption result (length (fields_of line.now) ≢ 1)
        (λ found. fields_of line.now ≡ found.now ∷ []) }
{
    let (field, rest) = next_field(line)?;
    match next_field(rest) {
        None => Some(field),
        Some(_) => None,
    }
}

/// The two fields of a line, if it has exactly two.
pub fn two_fields(line: &[u8]) -> Option<(&[u8], &[u8])>
    ensures { MatchOption result (length (fields_of line.now) ≢ 2)
        (λ found. fields_of line.now ≡ found.0.now ∷ found.1.now ∷ []) }
{
    let (first, rest) = next_field(line)?;
    let second = one_field(rest)?;
    Some((first, second))
}

/// The three fields of a line, if it has exactly three.
pub fn three_fields(line: &[u8]) -> Option<(&[u8], &[u8], &[u8])>
    ensures { MatchOption result (length (fields_of line.now) ≢ 3)
        (λ found. fields_of line.now ≡ found.0.now ∷ found.1.now ∷ found.2.now ∷ []) }
{
    let (first, rest) = next_field(line)?;
    let (second, third) = two_fields(rest)?;
    Some((first, second, third))
}

/// The five fields of a line, if it has exactly five.
pub fn five_fields(line: &[u8]) -> Option<(&[u8], &[u8], &[u8], &[u8], &[u8])>
    ensures { MatchOption result (length (fields_of line.now) ≢ 5)
        (λ found. fields_of line.now ≡
        found.0.now ∷ found.1.now ∷ found.2.now ∷ found.3.now ∷ found.4.now ∷ []) }
{
    let (first, rest) = next_field(line)?;
    let (second, rest) = next_field(rest)?;
    let (third, fourth, fifth) = three_fields(rest)?;
    Some((first, second, third, fourth, fifth))
}
