//! How a run ends.

use ntx_doc::DocFault;
use ntx_nodes::{Phase, Trouble};
use ntx_patterns::PatternFault;
use ntx_syntax::SyntaxFault;
use ntx_tfm::FontFault;

/// How a run ended, with the number that is the status of the process.
#[derive(Clone, Copy, Debug, PartialEq, Eq)]
pub enum Status {
    /// All was read and the DVI file is whole.
    Done = 0,
    /// The command line is not of its form, or the number or the names of the feeds do not fit it.
    Words = 2,
    /// The document is refused, for a line of it or for more than 2^24 bytes.
    Document = 3,
    /// The script is refused, since it is not empty.
    Script = 4,
    /// The patterns are refused, since they are not empty.
    Patterns = 5,
    /// A font is refused, for a fault of its file or for more than 2^18 bytes.
    Font = 6,
    /// Trouble came while the document was typeset.
    EngineFault = 8,
    /// A source or a feed failed.
    ReadFault = 9,
    /// A sink failed.
    WriteFault = 10,
    /// Memory ran out.
    Memory = 11,
    /// The DVI file would be longer than 2^31-1 bytes.
    DviFull = 13,
}

/// Which input a fault is of.
#[derive(Clone, Copy, Debug, PartialEq, Eq)]
pub enum Which {
    /// The document.
    Document,
    /// The script.
    Script,
    /// The hyphenation patterns.
    Patterns,
    /// The font of this number, counted from 1.
    Font(u64),
}

/// Where a run stopped.
#[derive(Clone, Copy, Debug, PartialEq, Eq)]
pub enum Place {
    /// A line of the document, and what is wrong there.
    Doc(DocFault),
    /// A line of the script, and what is wrong there. A script that is not empty has line 0, and why `Size`.
    Syntax(SyntaxFault),
    /// A line of the patterns. Patterns that are not empty have line 0.
    Pattern(PatternFault),
    /// The number of a font, counted from 1, and what is wrong with it.
    FontAt(u64, FontFault),
    /// The trouble, and what was being done when it came.
    Engine(Trouble, Phase),
    /// The input whose source failed.
    Input(Which),
}

/// How a run ended and where it stopped.
#[derive(Clone, Copy, Debug, PartialEq, Eq)]
pub struct Outcome {
    /// How it ended.
    pub status: Status,
    /// Where it stopped. The statuses `Document`, `Script`, `Patterns`, `Font`, `EngineFault` and `ReadFault` have a place, and no others.
    pub place: Option<Place>,
}
