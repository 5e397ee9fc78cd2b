//! The lengths of a TFM file's tables, and where each begins.

ghost use Rattle.std.specs.Prelude.{◌≡◌, ◌<◌, ◌≤◌, ◌+◌, length};

use crate::words::half;

/// The twelve numbers at the beginning of a TFM file ("TeX: The Program", section 540).
#[derive(Clone, Copy)]
pub struct Lengths {
    /// The length of the whole file, in words.
    pub lf: u16,
    /// The length of the header, in words.
    pub lh: u16,
    /// The smallest character code.
    pub bc: u16,
    /// The largest character code.
    pub ec: u16,
    /// The number of widths.
    pub nw: u16,
    /// The number of heights.
    pub nh: u16,
    /// The number of depths.
    pub nd: u16,
    /// The number of italic corrections.
    pub ni: u16,
    /// The number of steps of ligatures and kerns.
    pub nl: u16,
    /// The number of kerns.
    pub nk: u16,
    /// The number of extensible recipes.
    pub ne: u16,
    /// The number of parameters.
    pub np: u16,
}

impl Lengths {
    ghost use Rattle.ntx_tfm.specs.Layout.{lengths_of, code_count, infos_at, widths_at, heights_at, depths_at, italics_at, steps_at, kerns_at, parameters_at, word_count, are_short, are_usable};

    /// The lengths of a file.
    #[tactic(auto, unfolding(crate::specs::Layout::lengths_of))]
    pub fn read(bytes: &[u8]) -> Lengths
        requires { 24 ≤ length bytes.now }
        ensures { result ≡ lengths_of bytes.now }
    {
        Lengths {
            lf: half(bytes, 0),
            lh: half(bytes, 1),
            bc: half(bytes, 2),
            ec: half(bytes, 3),
            nw: half(bytes, 4),
            nh: half(bytes, 5),
            nd: half(bytes, 6),
            ni: half(bytes, 7),
            nl: half(bytes, 8),
            nk: half(bytes, 9),
            ne: half(bytes, 10),
            np: half(bytes, 11),
        }
    }

    /// Whether each number is below 2^15.
    #[tactic(auto, unfolding(crate::specs::Layout::are_short))]
    pub fn are_short(self) -> bool
        ensures { result ≡ are_short self }
    {
        self.lf < 0x8000
            && self.lh < 0x8000
            && self.bc < 0x8000
            && self.ec < 0x8000
            && self.nw < 0x8000
            && self.nh < 0x8000
            && self.nd < 0x8000
            && self.ni < 0x8000
            && self.nl < 0x8000
            && self.nk < 0x8000
            && self.ne < 0x8000
            && self.np < 0x8000
    }

    /// Whether the codes are bytes, from `bc` to at least `bc - 1`, and the tables of sizes have an entry.
    #[tactic(auto, unfolding(crate::specs::Layout::are_usable))]
    pub fn are_usable(self) -> bool
        requires { self.ec < 32768 }
        ensures { result ≡ are_usable self }
    {
        self.bc <= self.ec + 1
            && self.ec <= 255
            && 0 < self.nw
            && 0 < self.nh
            && 0 < self.nd
            && 0 < self.ni
    }

    /// How many character codes the file speaks of.
    pub fn code_count(self) -> usize
        requires { self.bc ≤ self.ec + 1 }
        ensures { result ≡ code_count self }
    {
        usize::from(self.ec) + 1 - usize::from(self.bc)
    }

    /// The word of the first character.
    pub fn infos_at(self) -> usize
        ensures { result ≡ infos_at self }
    {
        6 + usize::from(self.lh)
    }

    /// The word of the first width.
    pub fn widths_at(self) -> usize
        requires { self.bc ≤ self.ec + 1 }
        ensures { result ≡ widths_at self }
    {
        self.infos_at() + self.code_count()
    }

    /// The word of the first height.
    pub fn heights_at(self) -> usize
        requires { self.bc ≤ self.ec + 1 }
        ensures { result ≡ heights_at self }
    {
        self.widths_at() + usize::from(self.nw)
    }

    /// The word of the first depth.
    pub fn depths_at(self) -> usize
        requires { self.bc ≤ self.ec + 1 }
        ensures { result ≡ depths_at self }
    {
        self.heights_at() + usize::from(self.nh)
    }

    /// The word of the first italic correction.
    pub fn italics_at(self) -> usize
        requires { self.bc ≤ self.ec + 1 }
        ensures { result ≡ italics_at self }
    {
        self.depths_at() + usize::from(self.nd)
    }

    /// The word of the first step.
    pub fn steps_at(self) -> usize
        requires { self.bc ≤ self.ec + 1 }
        ensures { result ≡ steps_at self }
    {
        self.italics_at() + usize::from(self.ni)
    }

    /// The word of the first kern.
    pub fn kerns_at(self) -> usize
        requires { self.bc ≤ self.ec + 1 }
        ensures { result ≡ kerns_at self }
    {
        self.steps_at() + usize::from(self.nl)
    }

    /// The word of the first parameter.
    pub fn parameters_at(self) -> usize
        requires { self.bc ≤ self.ec + 1 }
        ensures { result ≡ parameters_at self }
    {
        self.kerns_at() + usize::from(self.nk) + usize::from(self.ne)
    }

    /// The number of all words.
    pub fn word_count(self) -> usize
        requires { self.bc ≤ self.ec + 1 }
        ensures { result ≡ word_count self }
    {
        self.parameters_at() + usize::from(self.np)
    }
}
