//! The words of the command line, and the feeds beside them.

ghost use Rattle.std.specs.Prelude.{◌≡◌, map, option_map, string_bytes, IfOk};
ghost use Rattle.std.specs.List.{list_all};
ghost use Rattle.ntx_run.specs.Run.{is_visible, is_feed_name};
ghost use Rattle.ntx_run.specs.inner.Words.{Fits};

use ntx_io::Feed;
use ntx_num::{Fail, NoMemory};
use ntx_words::read_words;
use std::alloc::Global;

/// The most bytes of a feed's name.
const MAX_NAME: usize = 255;

/// Whether a byte is a printed character of ASCII other than the space.
fn is_visible(byte: u8) -> bool
    ensures { result ≡ is_visible byte }
{
    33 <= byte && byte <= 126
}

/// Whether each of these bytes is one.
fn are_visible(bytes: &[u8]) -> bool
    ensures { result ≡ list_all is_visible bytes.now }
{
    bytes.iter().all(|byte| is_visible(*byte))
}

/// Whether a feed may have this name: 1 to 255 bytes, each a printed character of ASCII other than the space.
pub fn is_feed_name(name: &str) -> bool
    ensures { result ≡ is_feed_name name.now }
{
    let length = name.len();
    1 <= length && length <= MAX_NAME && are_visible(name.as_bytes())
}

/// Whether a feed has such a name.
fn is_named(feed: &Box<dyn Feed>) -> bool
    ensures { result ≡ is_feed_name (named feed.now).name }
{
    is_feed_name(feed.name())
}

/// Whether each feed has such a name. This calls itself for each feed, and is called for at most 64.
fn are_named(feeds: &[Box<dyn Feed>]) -> bool
    ensures { result ≡ list_all is_feed_name (map (λ font. font.name) (map (λ feed. named feed) feeds.now)) }
{
    match feeds {
        [] => true,
        [feed, others @ ..] => is_named(feed) && are_named(others),
    }
}

/// The sizes of the fonts that the words name, if the words are of the form of the command line and the feeds fit them.
pub fn fitting_sizes(
    alloc: Global,
    words: &[String],
    feeds: &[Box<dyn Feed>],
) -> Result<Option<Vec<Option<i64>>>, NoMemory>
    ensures { IfOk result (λ sizes. Fits (map string_bytes words.now) (map (λ font. font.name) (map (λ feed. named feed) feeds.now)) (option_map (λ sizes. sizes.items) sizes)) }
{
    let line = match read_words(alloc, words) {
        Ok(line) => line,
        Err(Fail::Is(_)) => return Ok(None),
        Err(Fail::NoMemory) => return Err(NoMemory),
    };
    if line.sizes.len() == feeds.len() && are_named(feeds) {
        Ok(Some(line.sizes))
    } else {
        Ok(None)
    }
}
