//! The parameters that are numbers ("TeX: The Program", sections 236, 247 and 549).

ghost use Rattle.std.specs.Prelude.{◌≡◌, ◌↔◌, IsTrue, Some};
ghost use Rattle.ntx_item.specs.Parameters.{name_of, param_named, range_of, IsInRange, is_in_range};
ghost use Rattle.ntx_item.specs.declared.param.Param.{Param};

use ntx_num::{MAX_DIMENSION, in_range};

/// A parameter that is a number. Its name in texts is the variant's in lower case. In absolute value one in scaled
/// points is within 2^30-1, and any other of which no range is told within 10^8.
#[derive(Clone, Copy, Debug, PartialEq, Eq)]
pub enum Param {
    /// The greatest badness of a line in the first pass, which tries no hyphenation; below 0 there is no first pass.
    Pretolerance,
    /// The greatest badness that the later passes look for in a line.
    Tolerance,
    /// What each line adds to its badness before it is squared into demerits.
    Linepenalty,
    /// The penalty of a break at a discretionary whose pre-break list is not empty.
    Hyphenpenalty,
    /// The penalty of a break at a discretionary whose pre-break list is empty.
    Exhyphenpenalty,
    /// Demerits of a line whose fitness class is far from that of the line before.
    Adjdemerits,
    /// Demerits of two hyphenated lines in a row.
    Doublehyphendemerits,
    /// Demerits of a last line but one that is hyphenated.
    Finalhyphendemerits,
    /// The penalty between two lines.
    Interlinepenalty,
    /// The further penalty after the first line.
    Clubpenalty,
    /// The further penalty before the last line.
    Widowpenalty,
    /// The further penalty after a line that ends at a discretionary.
    Brokenpenalty,
    /// The least number of letters before a hyphen, from 1 to 63.
    Lefthyphenmin,
    /// The least number of letters after a hyphen, from 1 to 63.
    Righthyphenmin,
    /// The code of the hyphen's character, from 0 to 255, or -1 for none.
    Hyphenchar,
    /// The width of a line. In scaled points.
    Hsize,
    /// The stretch that the third pass gives to each line; there is none at 0 or less. In scaled points.
    Emergencystretch,
    /// The width of the box that begins an indented paragraph. In scaled points.
    Parindent,
    /// The least distance of two lines at which `baselineskip` decides. In scaled points.
    Lineskiplimit,
}

/// The greatest absolute value of most parameters.
const MAX_NUMBER: i64 = 100_000_000;

/// Each parameter.
const PARAMS: [Param; 19] = [
    Param::Pretolerance,
    Param::Tolerance,
    Param::Linepenalty,
    Param::Hyphenpenalty,
    Param::Exhyphenpenalty,
    Param::Adjdemerits,
    Param::Doublehyphendemerits,
    Param::Finalhyphendemerits,
    Param::Interlinepenalty,
    Param::Clubpenalty,
    Param::Widowpenalty,
    Param::Brokenpenalty,
    Param::Lefthyphenmin,
    Param::Righthyphenmin,
    Param::Hyphenchar,
    Param::Hsize,
    Param::Emergencystretch,
    Param::Parindent,
    Param::Lineskiplimit,
];

/// The first parameter whose name has these bytes.
fn first_named(name: &[u8]) -> Option<Param>
    ensures { result ≡ param_named name.now }
{
    PARAMS.iter().copied().find(|p| p.name().as_bytes() == name)
}

impl Param {
    /// Its name.
    pub fn name(self) -> &'static str
        ensures { result.now ≡ name_of self }
    {
        match self {
            Param::Pretolerance => "pretolerance",
            Param::Tolerance => "tolerance",
            Param::Linepenalty => "linepenalty",
            Param::Hyphenpenalty => "hyphenpenalty",
            Param::Exhyphenpenalty => "exhyphenpenalty",
            Param::Adjdemerits => "adjdemerits",
            Param::Doublehyphendemerits => "doublehyphendemerits",
            Param::Finalhyphendemerits => "finalhyphendemerits",
            Param::Interlinepenalty => "interlinepenalty",
            Param::Clubpenalty => "clubpenalty",
            Param::Widowpenalty => "widowpenalty",
            Param::Brokenpenalty => "brokenpenalty",
            Param::Lefthyphenmin => "lefthyphenmin",
            Param::Righthyphenmin => "righthyphenmin",
            Param::Hyphenchar => "hyphenchar",
            Param::Hsize => "hsize",
            Param::Emergencystretch => "emergencystretch",
            Param::Parindent => "parindent",
            Param::Lineskiplimit => "lineskiplimit",
        }
    }

    /// The parameter whose name has these bytes, if there is one.
    pub fn of_name(name: &[u8]) -> Option<Param>
        ensures value { result ≡ param_named name.now }
        ensures each { (p : Param) → (result ≡ Some p) ↔ (name.now ≡ name_of p) }
    {
        first_named(name)
    }

    /// The least and the greatest value that it may be set to.
    fn range(self) -> (i64, i64)
        ensures { range_of self ≡ record { low = result.0; high = result.1 } }
    {
        match self {
            Param::Lefthyphenmin | Param::Righthyphenmin => (1, 63),
            Param::Hyphenchar => (-1, 255),
            Param::Hsize | Param::Emergencystretch | Param::Parindent | Param::Lineskiplimit => {
                (-MAX_DIMENSION, MAX_DIMENSION)
            }
            _ => (-MAX_NUMBER, MAX_NUMBER),
        }
    }

    /// Whether it may be set to this value: whether that is in its range.
    pub fn accepts(self, value: i64) -> bool
        ensures in_range { IsTrue result ↔ IsInRange self value }
        ensures test { result ≡ is_in_range self value }
    {
        let (low, high) = self.range();
        in_range(value, low, high)
    }
}
