//! The workloads that the scripts of `bench/` time: `ntx_bench WORKLOAD N` does one piece of work of size N, and prints nothing.
//!
//! | Workload | What is done |
//! |---|---|
//! | `parse-semicolons` | a script of N statements `;` is cut into tokens and parsed |
//! | `parse-assignments` | the same of N statements `a=b` |
//! | `resolve-statements` | a script of N statements `a=b` is cut into tokens, parsed and resolved |
//! | `resolve-operators` | the same of one statement with N operators |
//! | `tables` | a table is set at the keys 1 to N and read at each |
//! | `texts` | N texts are made, and each is found again |
//! | `hyphens-500`, `hyphens-5000` | N words are hyphenated by so many patterns |
//! | `documents` | a document of N bytes is read |
//! | `paragraphs` | a paragraph of N items is broken into lines |
//! | `ligatures` | a list of N glyphs gets its ligatures |
//!
//! `ntx_bench hyphens-of N FILE` hyphenates N words by the patterns of a file.
//!
//! It ends with status 0, with 2 if the words are not of this form, with 1 if a library refuses its part, and with 11 if memory runs out.
#![tactic(auto)]

mod documents;
mod fault;
mod hyphens;
mod ligatures;
mod paragraphs;
mod scripts;
mod store;

use fault::Fault;
use ntx_io::{FileSource, read_all};
use std::alloc::Global;
use std::env;
use std::process::ExitCode;
use std::rt::{Env, Files};

/// The most bytes of a file of patterns.
const MAX_PATTERNS: u64 = 1 << 22;

/// Does the work that a word names.
fn work(alloc: Global, workload: &str, n: u64) -> Result<(), Fault> {
    match workload {
        "parse-semicolons" => scripts::parse_copies(alloc, b";", n),
        "parse-assignments" => scripts::parse_copies(alloc, b"a=b ", n),
        "resolve-statements" => scripts::resolve_copies(alloc, b"", b"a=b ", n),
        "resolve-operators" => scripts::resolve_copies(alloc, b"a=b", b"+b", n),
        "tables" => store::set_and_get(alloc, n),
        "texts" => store::make_and_find(alloc, n),
        "hyphens-500" => hyphens::hyphenate_by(alloc, 500, n),
        "hyphens-5000" => hyphens::hyphenate_by(alloc, 5000, n),
        "documents" => documents::read(alloc, n),
        "paragraphs" => paragraphs::break_into_lines(alloc, n),
        "ligatures" => ligatures::put_into(alloc, n),
        _ => Err(Fault::Words),
    }
}

/// Does what the words of the command line name.
fn run<R: Env + Files + Alloc<A = Global>>(rt: &R) -> Result<(), Fault> {
    let mut words: Vec<String> = Vec::new(rt.alloc());
    if let Ok(args) = env::args(rt) {
        for word in args.skip(1) {
            words.push(word)?;
        }
    }
    match words.as_slice() {
        [workload, n] => work(rt.alloc(), workload.as_str(), size(n.as_str())?),
        [workload, n, path] if workload.as_str() == "hyphens-of" => {
            let mut source = FileSource::open(rt, path.as_str());
            let bytes = read_all(rt.alloc(), &mut source, MAX_PATTERNS)?;
            hyphens::hyphenate(rt.alloc(), &bytes, size(n.as_str())?)
        }
        _ => Err(Fault::Words),
    }
}

/// The size that a word names.
fn size(word: &str) -> Result<u64, Fault> {
    word.parse::<u64>().map_err(|_| Fault::Words)
}

fn main(rt: HostRuntime) -> ExitCode {
    match run(&rt) {
        Ok(()) => ExitCode::SUCCESS,
        Err(Fault::Refused) => ExitCode::from(1),
        Err(Fault::Words) => ExitCode::from(2),
        Err(Fault::Memory) => ExitCode::from(11),
    }
}
