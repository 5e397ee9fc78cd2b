//! The states of a pass ("TeX: The Program", sections 819 to 822).

ghost use Rattle.std.specs.Prelude.{◌≡◌};
ghost use Rattle.ntx_breaks.specs.States.{start_state};

/// A way to break a paragraph up to a place. Of all ways whose last line has one class it is the one with the least demerits.
#[derive(Clone, Copy, Debug, PartialEq, Eq)]
pub(crate) struct State {
    /// Which state of the pass it is, counted from 0 in the order of places and then of classes.
    pub(crate) number: u64,
    /// The place.
    pub(crate) place: u64,
    /// The fitness class of the last line.
    pub(crate) class: u8,
    /// The demerits of all lines so far.
    pub(crate) total: i64,
    /// The number of the state from which the last line begins.
    pub(crate) before: u64,
}

/// The state at the start of a paragraph, as if after a decent line.
pub(crate) const START: State = State {
    number: 0,
    place: 0,
    class: 2,
    total: 0,
    before: 0,
};
