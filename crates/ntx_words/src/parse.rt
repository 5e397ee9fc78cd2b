//! The words of the command line, read by `clap`.

ghost use Rattle.std.specs.Prelude.{◌≡◌, ◌≢◌, IfOk, map, string_bytes};
ghost use Rattle.ntx_num.specs.Answer.{Answers, result_map};
ghost use Rattle.clap.specs.Words.{app_of};
ghost use Rattle.ntx_words.specs.Parts.{parts_of};
ghost use Rattle.ntx_words.specs.CommandLine.{or_bad_words};
ghost use Rattle.ntx_words.specs.inner.Clap.{MatchFail, ntx_app, parts_found};

use crate::words::BadWords;
use clap::error::ErrorKind;
use clap::{Arg, ArgAction, ArgMatches, Command};
use ntx_num::{Fail, NoMemory};
use std::alloc::Global;

/// The name of the option for steps, and the id under which its value is found.
pub const STEPS: &str = "steps";

/// The id under which the paths are found.
pub const PATHS: &str = "paths";

/// The one command: an option and paths. It has no help and no version, and prints nothing.
fn command<'a>(alloc: Global) -> Result<Command<'a>, NoMemory>
    ensures { IfOk result (λ command. app_of command ≡ ntx_app) }
{
    let steps = Arg::new(alloc, STEPS).long(STEPS).action(ArgAction::Set);
    let paths = Arg::new(alloc, PATHS).action(ArgAction::Append);
    let command = Command::new(alloc, "ntx")
        .no_binary_name(true)
        .disable_help_flag(true)
        .disable_version_flag(true)
        .arg(steps)?
        .arg(paths)?;
    Ok(command)
}

/// What an error of `clap` says: memory ran out, or the words are not of its form.
fn refusal(kind: ErrorKind) -> Fail<BadWords>
    ensures { MatchFail result (kind ≡ ErrorKind.OutOfMemory) (kind ≢ ErrorKind.OutOfMemory) }
{
    match kind {
        ErrorKind::OutOfMemory => Fail::NoMemory,
        _ => Fail::Is(BadWords),
    }
}

/// What `clap` finds in the words.
///
/// # Refusals
///
/// - `BadWords`: the words are not options, each once and each with a value, and paths.
pub fn parse<'a>(alloc: Global, words: &'a [String]) -> Result<ArgMatches<'a>, Fail<BadWords>>
    ensures { Answers (result_map parts_found result) (or_bad_words (parts_of (map string_bytes words.now))) }
{
    let command = command(alloc)?;
    match command.try_get_matches_from(words) {
        Ok(matches) => Ok(matches),
        Err(error) => Err(refusal(error.kind())),
    }
}
