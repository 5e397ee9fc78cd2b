//! The whole program but for the files and the process around it.

ghost use Rattle.std.specs.Prelude.{◌≡◌, true, map, string_bytes, Option, None, option_map};
ghost use Rattle.ntx_nodes.specs.Heap.{Heap};
ghost use Rattle.ntx_nodes.specs.Steps.{empty_heap};
ghost use Rattle.ntx_run.specs.Outside.{outside};
ghost use Rattle.ntx_run.specs.Promise.{Runs};
ghost use Rattle.std.specs.List.{list_all};
ghost use Rattle.ntx_doc.specs.Shape.{has_numbers_in_range};
ghost use Rattle.ntx_run.specs.Run.{job_of};
ghost use Rattle.ntx_run.specs.inner.Parts.{Reports, RunsJob};

use crate::inputs::{Job, read_inputs};
use crate::outcome::{Outcome, Place, Status};
use crate::stop::StopReason;
use crate::typeset::typeset;
use crate::words::fitting_sizes;
use ntx_io::{Feed, Sink, Source, write_all};
use ntx_machine::Machine;
use ntx_nodes::{Nodes, PlainHeap};
use std::alloc::Global;

/// Writes the fault line, if the reason has one, and answers how the run ended.
fn report<L: Sink>(alloc: Global, why: StopReason, lines: &mut L) -> Outcome
    ensures { Reports why (L.output lines.old) (L.output lines.new) result }
{
    if let StopReason::Write | StopReason::Memory = why {
        return why.outcome();
    }
    let Ok(line) = why.line(alloc) else {
        return StopReason::Memory.outcome();
    };
    match write_all(lines, line.as_bytes()) {
        Ok(()) => why.outcome(),
        Err(_fault) => StopReason::Write.outcome(),
    }
}

/// The answer of a run that made no machine.
fn without_nodes<N: Nodes>(outcome: Outcome) -> (Status, Option<Place>, Option<N>)
    ensures status { result.0 ≡ outcome.status }
    ensures place { result.1 ≡ outcome.place }
    ensures nodes { result.2 ≡ None }
{
    (outcome.status, outcome.place, None)
}

/// Typesets the commands of a job over these nodes.
fn run_job<N: Nodes, O: Sink, L: Sink>(
    alloc: Global,
    nodes: N,
    job: Job,
    dvi: &mut O,
    lines: &mut L,
) -> (Status, Option<Place>, Option<N>)
    requires { list_all has_numbers_in_range job.commands.items ≡ true }
    ensures { RunsJob (job_of job.commands.items job.fonts.items) (N.heap nodes) (O.output dvi.old) (O.output dvi.new) (L.output lines.old) (L.output lines.new)
        result.0 result.1 (option_map (λ nodes. N.heap nodes) result.2) }
{
    let Job { commands, fonts } = job;
    let mut machine = match Machine::new(alloc, nodes, fonts) {
        Ok(machine) => machine,
        Err(_no_memory) => return without_nodes(StopReason::Memory.outcome()),
    };
    let outcome = match typeset(&mut machine, commands.as_slice(), dvi) {
        Ok(()) => Outcome {
            status: Status::Done,
            place: None,
        },
        Err(why) => report(alloc, why, lines),
    };
    (outcome.status, outcome.place, Some(machine.into_nodes()))
}

/// What [`run_over`] does, over a slice of feeds.
fn run_over_feeds<N: Nodes, D: Source, S: Source, P: Source, O: Sink, L: Sink>(
    alloc: Global,
    nodes: N,
    words: &[String],
    doc: &mut D,
    script: &mut S,
    patterns: &mut P,
    feeds: &mut [Box<dyn Feed>],
    dvi: &mut O,
    lines: &mut L,
) -> (Status, Option<Place>, Option<N>)
    ensures { Runs (map string_bytes words.now) (N.heap nodes)
        (outside (D.input doc.old) (S.input script.old) (P.input patterns.old) (map (λ feed. named feed) feeds.old) (O.output dvi.old) (L.output lines.old))
        (outside (D.input doc.new) (S.input script.new) (P.input patterns.new) (map (λ feed. named feed) feeds.new) (O.output dvi.new) (L.output lines.new))
        result.0 result.1 (option_map (λ nodes. N.heap nodes) result.2) }
{
    let sizes = match fitting_sizes(alloc, words, feeds) {
        Ok(Some(sizes)) => sizes,
        Ok(None) => return without_nodes(report(alloc, StopReason::Words, lines)),
        Err(_no_memory) => return without_nodes(report(alloc, StopReason::Memory, lines)),
    };
    match read_inputs(alloc, doc, script, patterns, sizes.as_slice(), feeds) {
        Ok(job) => run_job(alloc, nodes, job, dvi, lines),
        Err(why) => without_nodes(report(alloc, why, lines)),
    }
}

/// Typesets a document over a heap of nodes, and gives the nodes back.
///
/// As [`run`], which says what is read, written and refused. The nodes are given back at the statuses `Done`, `EngineFault` and `DviFull`, and not at `Words`,
/// `Document`, `Script`, `Patterns`, `Font` and `ReadFault`, where no machine was made. At `WriteFault` they are given back if the words and
/// the inputs are accepted, and then they are those after the first step whose bytes or fault line were not written whole. At `Memory` they may be given back or not.
pub fn run_over<N: Nodes, D: Source, S: Source, P: Source, O: Sink, L: Sink>(
    alloc: Global,
    nodes: N,
    words: &[String],
    doc: &mut D,
    script: &mut S,
    patterns: &mut P,
    fonts: &mut Vec<Box<dyn Feed>>,
    dvi: &mut O,
    lines: &mut L,
) -> (Status, Option<Place>, Option<N>)
    ensures { Runs (map string_bytes words.now) (N.heap nodes)
        (outside (D.input doc.old) (S.input script.old) (P.input patterns.old) (map (λ feed. named feed) fonts.old.items) (O.output dvi.old) (L.output lines.old))
        (outside (D.input doc.new) (S.input script.new) (P.input patterns.new) (map (λ feed. named feed) fonts.new.items) (O.output dvi.new) (L.output lines.new))
        result.0 result.1 (option_map (λ nodes. N.heap nodes) result.2) }
{
    let feeds = fonts.as_mut_slice();
    run_over_feeds(
        alloc, nodes, words, doc, script, patterns, feeds, dvi, lines,
    )
}

/// Typesets a document: `words` are those of the command line after the program's own name, and name the document, the script, the
/// patterns, the DVI file and the fonts. After each command and after the end, the bytes of the DVI file that are ready go to `dvi`. What is printed
/// goes to `lines`. The feeds in `fonts` give the fonts' files, and their names are the fonts' names.
///
/// The inputs are read in this order, and the first refusal ends the run: of the words and the feeds' names, the document, the script, the
/// patterns, and the fonts in their order. What follows a refusal, or a source that failed, is not read. A script and patterns have to be
/// empty. Then the commands of the document are carried out, as [`Machine`] says.
///
/// # Refusals
///
/// - `Words`: [`read_words`](ntx_words::read_words) refuses the words, there are not as many feeds as FONT words, or a feed's name does not
///   have 1 to 255 bytes, each from 33 to 126;
/// - `Document`: the document has more than 2^24 bytes, with line 0 and `Size`, or `read_doc` refuses it, with its fault;
/// - `Script`: the script is not empty, with line 0 and `Size`;
/// - `Patterns`: the patterns are not empty, with line 0;
/// - `Font`: a font has more than 2^18 bytes, with `TooLarge`, or [`read_font`](ntx_tfm::read_font) refuses it, with its fault; the place has
///   the font's number, counted from 1;
/// - `EngineFault`: the [`Machine`] stops for trouble, with the trouble and the phase;
/// - `DviFull`: the DVI file would be longer than 2^31-1 bytes.
///
/// That exactly these are refused is promised of the words always, and of the others if the sources and feeds expose their bytes and no
/// count of faults rose. `ReadFault` is a source or feed that failed, `WriteFault` a sink that failed and did not take all that is defined,
/// and `Memory` running out of memory. Any refusal may be replaced by `WriteFault` or `Memory`. Any but that of the words may be replaced by
/// `ReadFault`.
pub fn run<D: Source, S: Source, P: Source, O: Sink, L: Sink>(
    alloc: Global,
    words: &[String],
    doc: &mut D,
    script: &mut S,
    patterns: &mut P,
    fonts: &mut Vec<Box<dyn Feed>>,
    dvi: &mut O,
    lines: &mut L,
) -> Outcome
    ensures { (left : Option Heap) × Runs (map string_bytes words.now) (empty_heap 1)
        (outside (D.input doc.old) (S.input script.old) (P.input patterns.old) (map (λ feed. named feed) fonts.old.items) (O.output dvi.old) (L.output lines.old))
        (outside (D.input doc.new) (S.input script.new) (P.input patterns.new) (map (λ feed. named feed) fonts.new.items) (O.output dvi.new) (L.output lines.new))
        result.status result.place left }
{
    let nodes = match PlainHeap::new(alloc, 1) {
        Ok(nodes) => nodes,
        Err(_no_memory) => return StopReason::Memory.outcome(),
    };
    let (status, place, _nodes) = run_over(
        alloc, nodes, words, doc, script, patterns, fonts, dvi, lines,
    );
    Outcome { status, place }
}
