//! Why a run stops before its end.

ghost use Rattle.std.specs.Prelude.{◌≡◌, IfOk, string_bytes};
ghost use Rattle.ntx_run.specs.StopReason.{of_machine, outcome_of, line_of};

use crate::outcome::{Outcome, Place, Status, Which};
use ntx_doc::DocFault;
use ntx_machine::{Stop, phase_name, trouble_name};
use ntx_nodes::{Phase, Trouble};
use ntx_num::NoMemory;
use ntx_patterns::PatternFault;
use ntx_syntax::SyntaxFault;
use ntx_tfm::FontFault;
use std::alloc::Global;

/// Why a run stops before its end.
#[derive(Clone, Copy, Debug, PartialEq, Eq)]
pub enum StopReason {
    /// The command line is not of its form, or the number or the names of the feeds do not fit it.
    Words,
    /// The document is refused.
    Document(DocFault),
    /// The script is refused.
    Script(SyntaxFault),
    /// The patterns are refused.
    Patterns(PatternFault),
    /// The font of this number, counted from 1, is refused.
    Font(u64, FontFault),
    /// This trouble came in this phase while the document was typeset.
    Engine(Trouble, Phase),
    /// The source or feed of this input failed.
    Read(Which),
    /// A sink failed.
    Write,
    /// Memory ran out.
    Memory,
    /// The DVI file would be too long.
    DviFull,
}

impl From<NoMemory> for StopReason {
    ghost use Rattle.ntx_run.specs.declared.stop.StopReason.TheVariants.{Memory};

    ghost from_gives = { λ _ e. e ≡ Memory };

    fn from(_error: NoMemory) -> StopReason {
        StopReason::Memory
    }
}

impl StopReason {
    /// Why a run stops whose machine stops.
    pub fn of_machine(why: Stop) -> StopReason
        ensures { result ≡ of_machine why }
    {
        match why {
            Stop::Memory => StopReason::Memory,
            Stop::Engine(why, phase) => StopReason::Engine(why, phase),
            Stop::DviFull => StopReason::DviFull,
        }
    }

    /// The status and the place of a run that stops for this reason.
    pub fn outcome(&self) -> Outcome
        ensures { result ≡ outcome_of self.now }
    {
        let (status, place) = match self {
            StopReason::Words => (Status::Words, None),
            StopReason::Document(fault) => (Status::Document, Some(Place::Doc(*fault))),
            StopReason::Script(fault) => (Status::Script, Some(Place::Syntax(*fault))),
            StopReason::Patterns(fault) => (Status::Patterns, Some(Place::Pattern(*fault))),
            StopReason::Font(k, fault) => (Status::Font, Some(Place::FontAt(*k, *fault))),
            StopReason::Engine(why, phase) => {
                (Status::EngineFault, Some(Place::Engine(*why, *phase)))
            }
            StopReason::Read(which) => (Status::ReadFault, Some(Place::Input(*which))),
            StopReason::Write => (Status::WriteFault, None),
            StopReason::Memory => (Status::Memory, None),
            StopReason::DviFull => (Status::DviFull, None),
        };
        Outcome { status, place }
    }

    /// The fault line, which is empty for a failed write and if memory ran out.
    pub fn line(&self, alloc: Global) -> Result<String, NoMemory>
        ensures { IfOk result (λ line. string_bytes line ≡ line_of self.now) }
    {
        let line = match self {
            StopReason::Words => String::from_str(alloc, "! Words\n")?,
            StopReason::Document(fault) => document_line(alloc, fault)?,
            StopReason::Script(fault) => script_line(alloc, fault)?,
            StopReason::Patterns(fault) => patterns_line(alloc, fault)?,
            StopReason::Font(k, fault) => font_line(alloc, *k, *fault)?,
            StopReason::Engine(why, phase) => engine_line(alloc, *why, *phase)?,
            StopReason::Read(which) => read_line(alloc, which)?,
            StopReason::Write | StopReason::Memory => String::new(alloc),
            StopReason::DviFull => String::from_str(alloc, "! DviFull\n")?,
        };
        Ok(line)
    }
}

/// The fault line of a refused document.
fn document_line(alloc: Global, fault: &DocFault) -> Result<String, NoMemory>
    ensures { IfOk result (λ line. string_bytes line ≡ line_of (StopReason.Document fault.now)) }
{
    let line = fault.line;
    let why = fault.why.name();
    Ok(format!(in alloc; "! Document line {line} {why}\n")?)
}

/// The fault line of a refused script.
fn script_line(alloc: Global, fault: &SyntaxFault) -> Result<String, NoMemory>
    ensures { IfOk result (λ line. string_bytes line ≡ line_of (StopReason.Script fault.now)) }
{
    let line = fault.line;
    let why = fault.why.name();
    Ok(format!(in alloc; "! Script line {line} {why}\n")?)
}

/// The fault line of refused patterns.
fn patterns_line(alloc: Global, fault: &PatternFault) -> Result<String, NoMemory>
    ensures { IfOk result (λ line. string_bytes line ≡ line_of (StopReason.Patterns fault.now)) }
{
    let line = fault.line;
    Ok(format!(in alloc; "! Patterns line {line}\n")?)
}

/// The fault line of a refused font.
fn font_line(alloc: Global, k: u64, fault: FontFault) -> Result<String, NoMemory>
    ensures { IfOk result (λ line. string_bytes line ≡ line_of (StopReason.Font k fault)) }
{
    let why = fault.name();
    Ok(format!(in alloc; "! Font {k} {why}\n")?)
}

/// The fault line of trouble in a phase.
fn engine_line(alloc: Global, why: Trouble, phase: Phase) -> Result<String, NoMemory>
    ensures { IfOk result (λ line. string_bytes line ≡ line_of (StopReason.Engine why phase)) }
{
    let trouble = trouble_name(why);
    let place = phase_name(phase);
    Ok(format!(in alloc; "! EngineFault {trouble} in {place}\n")?)
}

/// The fault line of a source that failed.
fn read_line(alloc: Global, which: &Which) -> Result<String, NoMemory>
    ensures { IfOk result (λ line. string_bytes line ≡ line_of (StopReason.Read which.now)) }
{
    let line = match which {
        Which::Document => String::from_str(alloc, "! ReadFault document\n")?,
        Which::Script => String::from_str(alloc, "! ReadFault script\n")?,
        Which::Patterns => String::from_str(alloc, "! ReadFault patterns\n")?,
        Which::Font(k) => format!(in alloc; "! ReadFault font {k}\n")?,
    };
    Ok(line)
}
