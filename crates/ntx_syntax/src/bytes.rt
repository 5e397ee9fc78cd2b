//! Classes of bytes, and runs of them.

ghost use Rattle.std.specs.Prelude.{◌≡◌, ◌≢◌, ◌<◌, ◌≤◌, length, slice_index, true};
ghost use Rattle.std.specs.List.{prefix_len};
ghost use Rattle.std.specs.Char.{is_ascii_hexdigit, digit_value};
ghost use Rattle.ntx_syntax.specs.Bytes as class;
ghost use Rattle.ntx_syntax.specs.inner.Front.{is_in};

/// A class of bytes of which a piece has a run.
#[derive(Clone, Copy, Debug)]
pub enum Class {
    /// A letter, a digit or `_`.
    Word,
    /// A decimal digit.
    Digit,
    /// A hexadecimal digit.
    HexDigit,
    /// Any byte but LF.
    Line,
    /// `=`
    EqualSign,
}

fn is_in(class: Class, b: u8) -> bool
    ensures { result ≡ is_in class b }
{
    match class {
        Class::Word => b.is_ascii_alphanumeric() || b == b'_',
        Class::Digit => b.is_ascii_digit(),
        Class::HexDigit => b.is_ascii_hexdigit(),
        Class::Line => b != b'\n',
        Class::EqualSign => b == b'=',
    }
}

/// How many bytes at the beginning are of this class.
pub fn run(class: Class, bytes: &[u8]) -> usize
    ensures value { result ≡ prefix_len (is_in class) bytes.now }
    ensures within { result ≤ length bytes.now }
{
    let mut len = 0;
    while len < bytes.len() && is_in(class, bytes[len]) {
        len += 1;
    }
    len
}

/// The byte at this place, or 0 past the end.
pub fn byte(bytes: &[u8], at: usize) -> u8
    ensures value { result ≡ slice_index bytes.now at }
    ensures within { result ≢ 0 → at < length bytes.now }
{
    if at < bytes.len() { bytes[at] } else { 0 }
}

/// Whether a byte is a space, a tab, CR or LF.
pub fn is_blank(b: u8) -> bool
    ensures { result ≡ class.is_blank b }
{
    b == b' ' || b == b'\t' || b == b'\r' || b == b'\n'
}

/// Whether a byte is a letter or `_`.
pub fn begins_name(b: u8) -> bool
    ensures { result ≡ class.begins_name b }
{
    b.is_ascii_alphabetic() || b == b'_'
}

/// Whether a byte may not stand directly after a numeral: a letter, `_` or `.`.
pub fn spoils_numeral(b: u8) -> bool
    ensures { result ≡ class.spoils_numeral b }
{
    begins_name(b) || b == b'.'
}

/// Whether a byte is a quote.
pub fn is_quote(b: u8) -> bool
    ensures { result ≡ class.is_quote b }
{
    b == b'"' || b == b'\''
}

/// The value of a hexadecimal digit.
pub fn hex_value(c: u8) -> u8
    requires { is_ascii_hexdigit c ≡ true }
    ensures value { result ≡ digit_value c }
    ensures small { result < 16 }
{
    match c {
        b'0'..=b'9' => c - b'0',
        b'A'..=b'F' => c - b'A' + 10,
        _ => c - b'a' + 10,
    }
}
