//! Numbers on the command line.

ghost use Rattle.std.specs.Prelude.{◌≡◌};
ghost use Rattle.std.specs.Char.{is_ascii_digit};
ghost use Rattle.std.specs.List.{list_all};
ghost use Rattle.ntx_words.specs.Number as number;

/// Whether each byte is a decimal digit.
fn are_digits(bytes: &[u8]) -> bool
    ensures { result ≡ list_all is_ascii_digit bytes.now }
{
    bytes.iter().all(|byte| byte.is_ascii_digit())
}

/// Whether these are 1 to `most` decimal digits.
fn is_numeral(digits: &[u8], most: usize) -> bool
    ensures { result ≡ number.is_numeral most digits.now }
{
    1 <= digits.len() && digits.len() <= most && are_digits(digits)
}

/// The number that a text writes with 1 to `most` decimal digits, if it is 1 to `greatest`.
pub fn number_in(text: &str, most: usize, greatest: u64) -> Option<u64>
    ensures { result ≡ number.number_in most greatest text.now }
{
    if !is_numeral(text.as_bytes(), most) {
        return None;
    }
    let Ok(number) = text.parse::<u64>() else {
        return None;
    };
    if 1 <= number && number <= greatest {
        Some(number)
    } else {
        None
    }
}
