//! The words of the command line, read.

ghost use Rattle.std.specs.Prelude.{◌≡◌, ◌≤◌, ◌++◌, [], ◌∷◌, IfOk, map, length, string_bytes, option_map};
ghost use Rattle.ntx_num.specs.Answer.{Answers, Gives, result_map};
ghost use Rattle.ntx_words.specs.Font as font;
ghost use Rattle.ntx_words.specs.CommandLine as line;
ghost use Rattle.ntx_words.specs.View.{line_seen};
ghost use Rattle.ntx_words.specs.inner.Views.{parts_given, texts_of};

use crate::font::font_of;
use crate::number::number_in;
use crate::parse::{PATHS, STEPS, parse};
use crate::words::{BadWords, Words};
use ntx_num::{Fail, NoMemory};
use std::alloc::Global;

/// The number of steps if the words give none.
const DEFAULT_STEPS: u64 = 1_000_000;

/// The greatest number of steps.
const MAX_STEPS: u64 = 1 << 32;

/// The most digits of a number of steps.
const STEPS_DIGITS: usize = 10;

/// How many files there are that are no fonts: the document, the script, the patterns and the DVI file.
const FILES: usize = 4;

/// The most fonts.
const MAX_FONTS: usize = 64;

/// The number of steps that the option's value asks for.
fn steps_of(value: Option<&str>) -> Option<u64>
    ensures { result ≡ line.steps_of (option_map (λ text. text.now) value.entry) }
{
    match value {
        None => Some(DEFAULT_STEPS),
        Some(text) => number_in(text, STEPS_DIGITS, MAX_STEPS),
    }
}

/// Copies a path to the end of a list.
fn add_path(alloc: Global, paths: &mut Vec<String>, path: &str) -> Result<(), NoMemory>
    ensures { IfOk result (λ _. map string_bytes paths.new.items ≡ map string_bytes paths.old.items ++ path.now ∷ []) }
{
    paths.push(String::from_str(alloc, path)?)?;
    Ok(())
}

/// The paths of the files and the fonts.
fn paths_of(alloc: Global, files: &[&str], fonts: &[&str]) -> Result<Vec<String>, NoMemory>
    ensures { Gives (result_map (λ paths. map string_bytes paths.items) result)
        (texts_of files.now ++ map (λ word. (font.font_of word.now).path) fonts.now) }
{
    let mut paths = Vec::new(alloc);
    for file in files {
        add_path(alloc, &mut paths, file)?;
    }
    for font in fonts {
        add_path(alloc, &mut paths, font_of(font).path)?;
    }
    Ok(paths)
}

/// The sizes of the fonts.
fn sizes_of(alloc: Global, fonts: &[&str]) -> Result<Vec<Option<i64>>, NoMemory>
    ensures { Gives (result_map (λ sizes. sizes.items) result) (map (λ word. (font.font_of word.now).size) fonts.now) }
{
    let mut sizes = Vec::new(alloc);
    for font in fonts {
        sizes.push(font_of(font).size)?;
    }
    Ok(sizes)
}

/// What a number of steps and paths ask for.
fn line_with(alloc: Global, steps: u64, words: &[&str]) -> Result<Words, NoMemory>
    requires { FILES ≤ length words.now }
    ensures { Gives (result_map line_seen result) (line.line_with (texts_of words.now) steps) }
{
    let (files, fonts) = words.split_at(FILES);
    Ok(Words {
        steps,
        demo: None,
        paths: paths_of(alloc, files, fonts)?,
        sizes: sizes_of(alloc, fonts)?,
    })
}

/// What the option's value and the paths ask for.
fn line_of(alloc: Global, value: Option<&str>, words: &[&str]) -> Result<Words, Fail<BadWords>>
    ensures { Answers (result_map line_seen result) (line.or_bad_words (line.line_of (parts_given value.entry words.now))) }
{
    if words.len() < FILES || words.len() > FILES + MAX_FONTS {
        return Err(Fail::Is(BadWords));
    }
    match steps_of(value) {
        None => Err(Fail::Is(BadWords)),
        Some(steps) => Ok(line_with(alloc, steps, words)?),
    }
}

/// Reads the words of the command line after the program's own name, which have the form `[--steps N] DOC SCRIPT PATTERNS DVI [FONT...]`.
///
/// `--steps N` may also be written `--steps=N`, stands at most once, and stands anywhere before a word `--`. After `--` every word is a path,
/// and so is the word `-`. There are four paths and up to 64 FONT words. N has 1 to 10 decimal digits and is 1 to 2^32, and is 1000000 if it is
/// not given. A FONT word `PATH@SIZE`, whose SIZE has 1 to 9 decimal digits and is 1 to 2^26-1 scaled points, gives that path and size. Any
/// other FONT word is a path whole, without a size.
///
/// # Refusals
///
/// - `BadWords`: the words have another form. Before `--`, so is any other word that begins with `-`.
pub fn read_words(alloc: Global, words: &[String]) -> Result<Words, Fail<BadWords>>
    ensures { Answers (result_map line_seen result) (line.command_line (map string_bytes words.now)) }
{
    let matches = parse(alloc, words)?;
    let value = matches.get_str(STEPS);
    match matches.get_strs(PATHS) {
        None => line_of(alloc, value, &[]),
        Some(paths) => line_of(alloc, value, paths),
    }
}
