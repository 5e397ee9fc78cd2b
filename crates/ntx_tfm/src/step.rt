//! Steps of the programs of ligatures and kerns.

/// One step of a font's programs of ligatures and kerns ("TeX: The Program", section 545), as the file has it.
#[derive(Clone, Copy, Debug, PartialEq, Eq)]
pub struct LigStep {
    /// How many steps are passed over where the step does not apply. 128 and more end the program, but a first step
    /// above 128 says where the program starts: at the step `256 * op + rem`.
    pub skip: u8,
    /// The right character for which the step applies.
    pub next: u8,
    /// A ligature below 128, and from 128 on a kern.
    pub op: u8,
    /// The ligature's character, or the low byte of the kern's number, which is `256 * (op - 128) + rem`.
    pub rem: u8,
}
