//! Words that name fonts: `PATH` or `PATH@SIZE`.

ghost use Rattle.std.specs.Prelude.{◌≡◌, option_map, pos};
ghost use Rattle.ntx_words.specs.Font as font;
ghost use Rattle.ntx_words.specs.inner.Views.{halves_seen, font_seen};

use crate::number::number_in;

/// The most digits of a size.
const SIZE_DIGITS: usize = 9;

/// The greatest size of a font in scaled points.
const MAX_SIZE: u64 = (1 << 26) - 1;

/// A font: the path of its file, and its size in scaled points if it is not the design size.
#[derive(Clone, Copy)]
pub struct FontWord<'a> {
    pub path: &'a str,
    pub size: Option<i64>,
}

/// What stands before and after the last `@` of a word.
fn halves(word: &str) -> Option<(&str, &str)>
    ensures { option_map halves_seen result ≡ font.halves_of word.now }
{
    word.rsplit_once('@')
}

/// The font that a word names. A word whose part after the last `@` is no size of 1 to 9 digits and 1 to 2^26-1 is a path whole.
pub fn font_of(word: &str) -> FontWord<'_>
    ensures { font_seen result ≡ font.font_of word.now }
{
    if let Some((path, digits)) = halves(word) {
        if let Some(size) = number_in(digits, SIZE_DIGITS, MAX_SIZE) {
            return FontWord {
                path,
                size: Some(size as i64),
            };
        }
    }
    FontWord {
        path: word,
        size: None,
    }
}
