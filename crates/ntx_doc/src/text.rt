//! Lines, fields and numbers.

ghost use Rattle.std.specs.Prelude.{◌≡◌, ◌≢◌, ◌≤◌, ◌<◌, ◌^◌, [], ◌∷◌, length, true, pos, MatchOption, IfSome, option_map, position};
ghost use Rattle.std.specs.Char.{is_ascii_digit};
ghost use Rattle.std.specs.List.{list_all};
ghost use Rattle.std.specs.Str.Lines.{lines, strip_carriage_return};
ghost use Rattle.std.specs.Str.Parse.{digits_value};
ghost use Rattle.ntx_doc.specs.Text as text;

/// The most digits that a number has.
const MAX_DIGITS: usize = 10;

/// Whether a line may hold this byte: a space, a printed character of ASCII, or a tab.
fn is_plain(byte: u8) -> bool
    ensures { result ≡ text.is_plain byte }
{
    (32 <= byte && byte <= 126) || byte == b'\t'
}

/// Whether a line may hold each of these bytes.
pub fn are_plain(line: &[u8]) -> bool
    ensures { result ≡ list_all text.is_plain line.now }
{
    line.iter().all(|byte| is_plain(*byte))
}

/// Whether a byte separates fields: a space or a tab.
fn is_blank(byte: u8) -> bool
    ensures { result ≡ text.is_blank byte }
{
    byte == b' ' || byte == b'\t'
}

/// The line without a carriage return at its end.
fn without_return(line: &[u8]) -> &[u8]
    ensures { result.now ≡ strip_carriage_return line.now }
{
    if line.last() == Some(&b'\r') {
        &line[..line.len() - 1]
    } else {
        line
    }
}

/// The place of the first LF.
fn first_feed(bytes: &[u8]) -> Option<usize>
    ensures { result ≡ position text.is_feed bytes.now }
{
    bytes.iter().position(|byte| *byte == b'\n')
}

/// The place of the first byte that is not a blank.
fn first_filled(line: &[u8]) -> Option<usize>
    ensures { result ≡ position text.is_in_field line.now }
{
    line.iter().position(|byte| !is_blank(*byte))
}

/// The place of the first blank.
fn first_blank(line: &[u8]) -> Option<usize>
    ensures { result ≡ position text.is_blank line.now }
{
    line.iter().position(|byte| is_blank(*byte))
}

/// The first line of a text without its LF or CR LF, and the text after it.
pub fn next_line(bytes: &[u8]) -> Option<(&[u8], &[u8])>
    ensures lines { MatchOption result (lines bytes.now ≡ [])
        (λ found. lines bytes.now ≡ found.0.now ∷ lines found.1.now) }
    ensures shorter { IfSome result (λ found. length found.1.now < length bytes.now) }
{
    if bytes.is_empty() {
        return None;
    }
    match first_feed(bytes) {
        None => Some((bytes, &[])),
        Some(end) => Some((without_return(&bytes[..end]), &bytes[end + 1..])),
    }
}

/// The first field of a line, and the rest of the line.
pub fn next_field(line: &[u8]) -> Option<(&[u8], &[u8])>
    ensures { MatchOption result (text.fields_of line.now ≡ [])
        (λ found. text.fields_of line.now ≡ found.0.now ∷ text.fields_of found.1.now) }
{
    let start = first_filled(line)?;
    let filled = &line[start..];
    match first_blank(filled) {
        None => Some((filled, &[])),
        Some(end) => Some((&filled[..end], &filled[end + 1..])),
    }
}

/// The number that up to 10 decimal digits write.
fn value(digits: &[u8]) -> u64
    requires few { length digits.now ≤ MAX_DIGITS }
    requires digits { list_all is_ascii_digit digits.now ≡ true }
    ensures value { result ≡ digits_value 10 digits.now }
    ensures bound { result < 10 ^ 10 }
{
    let mut value = 0;
    for digit in digits {
        value = value * 10 + u64::from(*digit - b'0');
    }
    value
}

/// Whether each byte is a decimal digit.
fn are_digits(bytes: &[u8]) -> bool
    ensures { result ≡ list_all is_ascii_digit bytes.now }
{
    bytes.iter().all(|byte| byte.is_ascii_digit())
}

/// Whether these are 1 to 10 decimal digits.
fn is_numeral(digits: &[u8]) -> bool
    ensures { result ≡ text.is_numeral digits.now }
{
    1 <= digits.len() && digits.len() <= MAX_DIGITS && are_digits(digits)
}

/// The number that 1 to 10 decimal digits write.
fn natural(digits: &[u8]) -> Option<i64>
    ensures { result ≡ option_map pos (text.natural_of digits.now) }
{
    if is_numeral(digits) {
        Some(value(digits) as i64)
    } else {
        None
    }
}

/// The number that a field writes: an optional minus sign and 1 to 10 decimal digits.
pub fn number(field: &[u8]) -> Option<i64>
    ensures { result ≡ text.number_of field.now }
{
    match field {
        [b'-', digits @ ..] => Some(-natural(digits)?),
        _ => natural(field),
    }
}
