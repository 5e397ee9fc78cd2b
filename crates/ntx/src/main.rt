//! The program `ntx [--steps N] DOC SCRIPT PATTERNS DVI [FONT...]`: opens the files that the command line names and typesets the document.
//!
//! It stands on `ntx_io`, `ntx_words` and `ntx_run`. Of `main` nothing is proved: neither which files are opened, nor that [`ntx_run::run`] is called,
//! nor that the process ends with the number of the run's status. Of its parts it is proved that `number` gives each status its number,
//! that `words` stops only if memory runs out, that `font_feed` names a feed after its file, and that in `typeset` words that are not of the form of
//! the command line end with `Words`, `WriteFault` or `Memory`, and of the others only words that name a font can end with `Words`.
//! Files and standard output expose no bytes, so that over them the contract of `run` speaks of the status, the place, the order of reading and
//! the counts of faults, and not of what is read or written. What the built program does over files is tested by `checks/program.sh`, at the
//! top of the repository.
#![tactic(auto)]

ghost use Rattle.std.specs.Prelude.{◌≡◌, ◌⊎◌, false, map, string_bytes, IsErr, IfErr, IfOk};
ghost use Rattle.ntx_io.specs.Feed.{IsFontName};
ghost use Rattle.ntx_words.specs.CommandLine.{command_line};
ghost use Rattle.ntx.specs.Number.{number_of};
ghost use Rattle.ntx.specs.Fonts.{names_no_font};

#[cfg(test)]
mod tests;

use ntx_io::{
    Feed, FileFeed, FileSink, FileSource, MemSource, NullSink, Sink, StdoutSink, font_name,
};
use ntx_num::{Fail, NoMemory};
use ntx_run::{Outcome, Status, is_feed_name, run};
use ntx_words::read_words;
use std::alloc::Global;
use std::io::{self, ErrorKind};
use std::process::ExitCode;
use std::rt::{Env, Files};
use std::{env, fs};

/// The words of the command line after the program's own name. If the system gives none, or gives words that are no text, there are no
/// words.
fn words<R: Env + Alloc<A = Global>>(rt: &R) -> Result<Vec<String>, Status>
    ensures { IfErr result (λ status. status ≡ Status.Memory) }
{
    let mut words = Vec::new(rt.alloc());
    match env::args(rt) {
        Ok(args) => {
            for word in args.skip(1) {
                if words.push(word).is_err() {
                    return Err(Status::Memory);
                }
            }
            Ok(words)
        }
        Err(error) if error.kind() == ErrorKind::OutOfMemory => Err(Status::Memory),
        Err(_) => Ok(words),
    }
}

/// Three files that are open for reading, so that each standard descriptor, 0, 1 and 2, is taken. Where one was closed, reading gives nothing
/// and writing fails, and no file of the run takes its place: a fault line cannot get into a DVI file.
#[derive(Drop)]
struct Standard<F> {
    input: F,
    output: F,
    error: F,
}

impl<F: Drop> Standard<F> {
    /// Takes the standard descriptors that are free. A system gives a file the lowest descriptor that is free, and has `/dev/null`.
    fn taken<R: Files<File = F>>(rt: &R) -> io::Result<Standard<F>> {
        Ok(Standard {
            input: fs::open(rt, "/dev/null")?,
            output: fs::open(rt, "/dev/null")?,
            error: fs::open(rt, "/dev/null")?,
        })
    }
}

/// A feed over a font's file, named after it.
fn font_feed<R: Files + Alloc<A = Global>>(
    rt: &R,
    path: &str,
) -> Result<Box<FileFeed<R::File>>, NoMemory>
    ensures { IfOk result (λ feed. IsFontName path.now (string_bytes feed.value.name)) }
{
    let alloc = rt.alloc();
    let feed = FileFeed::open(rt, alloc, path)?;
    Ok(Box::new(alloc, feed)?)
}

/// An outcome without a place.
fn ended(status: Status) -> Outcome
    ensures { result.status ≡ status }
{
    Outcome {
        status,
        place: None,
    }
}

/// Whether the fonts of these files can be named after them.
fn are_named(paths: &[String]) -> bool {
    paths
        .iter()
        .all(|path| is_feed_name(font_name(path.as_str())))
}

/// Typesets the document that the words name. If they name none, or a font whose name no feed may have, no file is opened. If the
/// standard descriptors cannot be taken, no document is typeset, and the status is that of a write fault.
fn typeset(rt: &HostRuntime, words: &[String]) -> Outcome
    ensures refused { IsErr (command_line (map string_bytes words.now)) →
        (result.status ≡ Status.Words) ⊎ ((result.status ≡ Status.WriteFault) ⊎ (result.status ≡ Status.Memory)) }
    ensures only { result.status ≡ Status.Words → names_no_font (command_line (map string_bytes words.now)) ≡ false }
{
    let alloc = rt.alloc();
    let mut lines = StdoutSink::new(rt);
    let line = match read_words(alloc, words) {
        Ok(line) => line,
        Err(Fail::Is(_)) => return refuse(alloc, words, &mut lines),
        Err(Fail::NoMemory) => return ended(Status::Memory),
    };
    let [doc, script, patterns, dvi, fonts @ ..] = line.paths.as_slice() else {
        return refuse(alloc, words, &mut lines);
    };
    if !are_named(fonts) {
        return refuse(alloc, words, &mut lines);
    }
    let Ok(_standard) = Standard::taken(rt) else {
        return ended(Status::WriteFault);
    };
    let mut feeds: Vec<Box<dyn Feed>> = Vec::new(alloc);
    if !line.sizes.is_empty() {
        for path in fonts {
            let Ok(feed) = font_feed(rt, path.as_str()) else {
                return ended(Status::Memory);
            };
            if feeds.push(feed).is_err() {
                return ended(Status::Memory);
            }
        }
    }
    run(
        alloc,
        words,
        &mut FileSource::open(rt, doc.as_str()),
        &mut FileSource::open(rt, script.as_str()),
        &mut FileSource::open(rt, patterns.as_str()),
        &mut feeds,
        &mut FileSink::create(rt, dvi.as_str()),
        &mut lines,
    )
}

/// The run of words that name no files, over sources of nothing and without feeds.
fn refuse<L: Sink>(alloc: Global, words: &[String], lines: &mut L) -> Outcome
    ensures refused { IsErr (command_line (map string_bytes words.now)) →
        (result.status ≡ Status.Words) ⊎ ((result.status ≡ Status.WriteFault) ⊎ (result.status ≡ Status.Memory)) }
    ensures only { result.status ≡ Status.Words → names_no_font (command_line (map string_bytes words.now)) ≡ false }
{
    run(
        alloc,
        words,
        &mut nothing(alloc),
        &mut nothing(alloc),
        &mut nothing(alloc),
        &mut Vec::new(alloc),
        &mut NullSink::new(),
        lines,
    )
}

/// A source over nothing.
fn nothing(alloc: Global) -> MemSource {
    MemSource::new(Vec::new(alloc), Vec::new(alloc))
}

/// The number of a status.
fn number(status: Status) -> u8
    ensures { result ≡ number_of status }
{
    status as u8
}

fn main(rt: HostRuntime) -> ExitCode {
    let status = match words(&rt) {
        Ok(words) => typeset(&rt, words.as_slice()).status,
        Err(status) => status,
    };
    ExitCode::from(number(status))
}
