//! What the words of the command line ask for.

/// The words are not of the form of the command line.
#[derive(Clone, Copy, Debug, PartialEq, Eq, Drop)]
pub struct BadWords;

/// What the words of the command line ask for.
#[derive(Debug, Drop)]
pub struct Words {
    /// The greatest number of steps of the run: 1 to 2^32.
    pub steps: u64,
    /// The number of paragraphs of a generated job, instead of files. No words ask for it yet, so it is None.
    pub demo: Option<u64>,
    /// The paths of the document, the script, the patterns and the DVI file, and then those of up to 64 fonts.
    pub paths: Vec<String>,
    /// The size of each font in scaled points, 1 to 2^26-1. None is the font's design size.
    pub sizes: Vec<Option<i64>>,
}
