//! What can be wrong with a TFM file.

ghost use Rattle.std.specs.Prelude.{◌≡◌};

/// Why a file is no font: the first fault in the order of the variants, but that `Short` for a file of fewer words than
/// it says comes after `Lengths`.
#[derive(Clone, Copy, Debug, PartialEq, Eq)]
pub enum FontFault {
    /// There are fewer than 24 bytes, or fewer than four for each word that the file says it has.
    Short,
    /// A length is 2^15 or more, the codes are no bytes or begin past their end, or there is no width, height, depth or italic correction.
    Range,
    /// The header has fewer than two words.
    Header,
    /// The length that the file says it has is not the sum of the lengths of its parts, in words.
    Lengths,
    /// The design size is 1024 points or more, or below one point.
    Size,
    /// A character's width, height, depth or italic correction is not in its table.
    Index,
    /// The first width, height, depth or italic correction is not zero.
    FirstNotZero,
    /// A width, height, depth, italic correction or kern, or a parameter from the second on, is below -16 or not below 16.
    FixWord,
    /// A program of ligatures and kerns begins or leads outside the steps, or a step has no kern, no operation or no
    /// character.
    LigProgram,
    /// The file is larger than the program reads: 2^18 bytes.
    TooLarge,
}

impl FontFault {
    ghost use Rattle.ntx_tfm.specs.FaultNames.{name_of};

    /// The fault's name, as a fault line prints it.
    pub fn name(self) -> &'static str
        ensures { result.now ≡ name_of self }
    {
        match self {
            FontFault::Short => "Short",
            FontFault::Range => "Range",
            FontFault::Header => "Header",
            FontFault::Lengths => "Lengths",
            FontFault::Size => "Size",
            FontFault::Index => "Index",
            FontFault::FirstNotZero => "FirstNotZero",
            FontFault::FixWord => "FixWord",
            FontFault::LigProgram => "LigProgram",
            FontFault::TooLarge => "TooLarge",
        }
    }
}
