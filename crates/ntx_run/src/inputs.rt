//! Reading the inputs.

ghost use Rattle.std.specs.Prelude.{◌≡◌, ◌≤◌, true, IfOk, [], Some, Option, List, ℕ, map, length};
ghost use Rattle.ntx_num.specs.Answer.{result_map};
ghost use Rattle.std.specs.List.{list_all};
ghost use Rattle.ntx_doc.specs.Shape.{has_numbers_in_range};
ghost use Rattle.ntx_run.specs.Run.{job_of, read_document, read_empty};
ghost use Rattle.ntx_run.specs.inner.Words.{CanBeRead};
ghost use Rattle.ntx_run.specs.inner.Parts.{IsRefusalOf, ReadsInput, ReadsInputs};

use crate::fonts::read_fonts;
use crate::outcome::Which;
use crate::stop::StopReason;
use ntx_doc::{Command, DocFault, DocWhy, read_doc};
use ntx_io::{Feed, ReadWhy, Source, read_all};
use ntx_num::Fail;
use ntx_patterns::PatternFault;
use ntx_syntax::{SyntaxFault, SyntaxWhy};
use ntx_tfm::Font;
use std::alloc::Global;

/// The most bytes of a document.
const MAX_DOCUMENT: u64 = 1 << 24;

/// What the inputs say.
#[derive(Drop)]
pub struct Job {
    /// The commands of the document.
    pub commands: Vec<Command>,
    /// The fonts. A command names one by its place.
    pub fonts: Vec<Font>,
}

/// Reads the document, beside so many fonts.
fn read_document<D: Source>(
    alloc: Global,
    source: &mut D,
    fonts: u64,
) -> Result<Vec<Command>, StopReason>
    ensures reads { ReadsInput Which.Document (read_document fonts) (D.input source.old) (D.input source.new) (result_map (λ commands. commands.items) result) }
    ensures numbers { IfOk result (λ commands. list_all has_numbers_in_range commands.items ≡ true) }
{
    let bytes = match read_all(alloc, source, MAX_DOCUMENT) {
        Ok(bytes) => bytes,
        Err(Fail::NoMemory) => return Err(StopReason::Memory),
        Err(Fail::Is(ReadWhy::ReadFault)) => return Err(StopReason::Read(Which::Document)),
        Err(Fail::Is(ReadWhy::TooLarge)) => {
            return Err(StopReason::Document(DocFault {
                line: 0,
                why: DocWhy::Size,
            }));
        }
    };
    match read_doc(alloc, bytes.as_slice(), fonts) {
        Ok(commands) => Ok(commands),
        Err(Fail::NoMemory) => Err(StopReason::Memory),
        Err(Fail::Is(fault)) => Err(StopReason::Document(fault)),
    }
}

/// Reads an input that has to be empty. One that is not is refused for `refusal`.
fn read_empty<S: Source>(
    alloc: Global,
    source: &mut S,
    which: Which,
    refusal: StopReason,
) -> Result<(), StopReason>
    requires { IsRefusalOf which refusal }
    ensures { ReadsInput which (read_empty refusal) (S.input source.old) (S.input source.new) result }
{
    match read_all(alloc, source, 0) {
        Ok(_) => Ok(()),
        Err(Fail::NoMemory) => Err(StopReason::Memory),
        Err(Fail::Is(ReadWhy::ReadFault)) => Err(StopReason::Read(which)),
        Err(Fail::Is(ReadWhy::TooLarge)) => Err(refusal),
    }
}

/// Reads the document, the script, the patterns and the fonts, in this order, up to the first that is refused.
pub fn read_inputs<D: Source, S: Source, P: Source>(
    alloc: Global,
    document: &mut D,
    script: &mut S,
    patterns: &mut P,
    sizes: &[Option<i64>],
    feeds: &mut [Box<dyn Feed>],
) -> Result<Job, StopReason>
    requires { CanBeRead sizes.now (map (λ font. font.name) (map (λ feed. named feed) feeds.old)) }
    ensures reads { ReadsInputs sizes.now
        (record { document = D.input document.old; script = S.input script.old; patterns = P.input patterns.old; fonts = map (λ feed. named feed) feeds.old })
        (record { document = D.input document.new; script = S.input script.new; patterns = P.input patterns.new; fonts = map (λ feed. named feed) feeds.new })
        (result_map (λ job. job_of job.commands.items job.fonts.items) result) }
    ensures numbers { IfOk result (λ job. list_all has_numbers_in_range job.commands.items ≡ true) }
{
    let commands = read_document(alloc, document, feeds.len() as u64)?;
    let no_script = SyntaxFault {
        line: 0,
        why: SyntaxWhy::Size,
    };
    read_empty(alloc, script, Which::Script, StopReason::Script(no_script))?;
    let no_patterns = PatternFault { line: 0 };
    read_empty(
        alloc,
        patterns,
        Which::Patterns,
        StopReason::Patterns(no_patterns),
    )?;
    let fonts = read_fonts(alloc, sizes, feeds)?;
    Ok(Job { commands, fonts })
}
