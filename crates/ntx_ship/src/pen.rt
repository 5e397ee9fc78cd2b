//! The place on a page while the page is written.

ghost use Rattle.std.specs.Prelude.{◌≡◌, OnOk};
ghost use Rattle.ntx_ship.specs.Operations.{IsOnPage, Pen, end_of, pen_after, pen_at_start, pen_back};
ghost use Rattle.ntx_ship.specs.Drawable.{HasPlace};

use crate::piece::Piece;
use crate::place::{CORNER, Place};
use ntx_num::NoMemory;
use std::alloc::Global;
use std::marker::Model;

/// The place on a page, and the places where the open boxes began. Contracts see the last box first.
#[derive(Drop)]
pub struct PenStack {
    here: Place,
    begun: Vec<Place>,
}

impl Model for PenStack {
    ghost use Rattle.std.specs.Prelude.{All, reverse};
    ghost use Rattle.ntx_ship.specs.Operations.{Pen, IsOnPage};

    ghost Value = { Pen };

    ghost view = { λ p. record { here = p.here; begun = reverse p.begun.items } };

    ghost invariant = { λ p. IsOnPage p.here × All IsOnPage p.begun.items };
}

/// The place after a mark of this width.
fn end_of(h: i32, v: i32, width: i32) -> Place
    ensures { result ≡ end_of h v width }
{
    Place {
        h: i64::from(h) + i64::from(width),
        v: i64::from(v),
    }
}

impl PenStack {
    /// The upper left corner of a page, where no box has begun.
    pub fn new(alloc: Global) -> PenStack
        ensures { result ≡ pen_at_start }
    {
        PenStack {
            here: CORNER,
            begun: Vec::new(alloc),
        }
    }

    /// The place now.
    pub fn here(&self) -> Place
        ensures here { result ≡ self.now.here }
        ensures on_page { IsOnPage result }
    {
        self.here
    }

    /// Goes back to where the last box began.
    fn back(&mut self)
        ensures { self.new ≡ pen_back self.old.begun }
    {
        match self.begun.pop() {
            Some(place) => self.here = place,
            None => self.here = CORNER,
        }
    }

    /// Goes past a piece.
    pub fn pass(&mut self, piece: &Piece) -> Result<(), NoMemory>
        requires { HasPlace piece.now }
        ensures { OnOk result (self.new ≡ pen_after self.old piece.now) }
    {
        match piece {
            Piece::Push => return Ok(self.begun.push(self.here)?),
            Piece::Pop => self.back(),
            Piece::Glyph(m) => self.here = end_of(m.h, m.v, m.width),
            Piece::Rule(m) => self.here = end_of(m.h, m.v, m.width),
        }
        Ok(())
    }
}
