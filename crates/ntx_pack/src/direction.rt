//! The two directions in which lists run.

ghost use Rattle.std.specs.Prelude.{◌≡◌};
ghost use Rattle.ntx_pack.specs.Pack.{along, with_along, list_kind, box_contents};

use ntx_nodes::{BoxFields, Contents, ListKind};
use ntx_num::Size;

/// The direction of a list.
#[derive(Clone, Copy, Debug, PartialEq, Eq)]
pub enum Direction {
    /// From the left to the right, as in an hlist.
    Horizontal,
    /// From the top down, as in a vlist.
    Vertical,
}

impl Direction {
    /// What a list in this direction may hold.
    pub(crate) fn list_kind(self) -> ListKind
        ensures { result ≡ list_kind self }
    {
        match self {
            Direction::Horizontal => ListKind::H,
            Direction::Vertical => ListKind::V,
        }
    }

    /// The fields of a box over a list in this direction.
    pub(crate) fn contents(self, b: BoxFields) -> Contents
        ensures { result ≡ box_contents self b }
    {
        match self {
            Direction::Horizontal => Contents::Hlist(b),
            Direction::Vertical => Contents::Vlist(b),
        }
    }

    /// The part of a size that lies in this direction: the width or the height.
    pub(crate) fn along(self, size: Size) -> i64
        ensures { result ≡ along self size }
    {
        match self {
            Direction::Horizontal => size.w,
            Direction::Vertical => size.h,
        }
    }

    /// A size with another width or height.
    pub(crate) fn with_along(self, x: i64, size: Size) -> Size
        ensures { result ≡ with_along self x size }
    {
        match self {
            Direction::Horizontal => Size { w: x, ..size },
            Direction::Vertical => Size { h: x, ..size },
        }
    }
}
