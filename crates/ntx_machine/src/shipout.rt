//! Writing pages into the DVI file ("TeX: The Program", sections 592 to 642).

ghost use Rattle.std.specs.Prelude.{◌≡◌, OnOk};
ghost use Rattle.ntx_dvi.specs.Fonts.{AreKnown};
ghost use Rattle.ntx_dvi.specs.Writer.{new_writer, IsBetweenPages};
ghost use Rattle.ntx_num.specs.Trace.{EndsAs};
ghost use Rattle.ntx_ship.specs.Operations.{definition_at};
ghost use Rattle.ntx_machine.specs.State.{max_dvi};
ghost use Rattle.ntx_machine.specs.Machine.{fails};
ghost use Rattle.ntx_machine.specs.Seen.{state_of};
ghost use Rattle.ntx_machine.specs.Shipout.{shipped, shipped_if, ended};
ghost use Rattle.ntx_machine.specs.inner.Parts.{shipped_as};

use crate::engine::Engine;
use crate::stop::{Stop, written};
use ntx_nodes::{Nodes, Phase};
use ntx_num::Fail;
use ntx_ship::{ShipFault, ship};
use ntx_tfm::Font;
use std::alloc::Global;

/// The machine's answer after a page is shipped.
fn shipped_as(answer: Result<(), Fail<ShipFault>>) -> Result<(), Stop>
    ensures { result ≡ shipped_as answer }
{
    match answer {
        Ok(()) => Ok(()),
        Err(Fail::NoMemory) => Err(Stop::Memory),
        Err(Fail::Is(ShipFault::Trouble(why))) => Err(Stop::Engine(why, Phase::Ship)),
        Err(Fail::Is(ShipFault::DviFull)) => Err(Stop::DviFull),
    }
}

impl<N: Nodes> Engine<N> {
    /// Writes a page, and frees its nodes.
    fn ship(&mut self, alloc: Global, fonts: &[Font], page: u64) -> Result<(), Stop>
        requires between { IsBetweenPages self.old.dvi }
        requires known { AreKnown self.old.dvi.progress.fonts (definition_at fonts.now) }
        ensures ends { EndsAs (fails result) (state_of N.heap self.new) (shipped fonts.now page (state_of N.heap self.old)) }
        ensures between { OnOk result (IsBetweenPages self.new.dvi) }
    {
        shipped_as(ship(alloc, &mut self.nodes, fonts, page, &mut self.dvi))
    }

    /// Writes the page, if there is one.
    fn ship_if(&mut self, alloc: Global, fonts: &[Font], page: Option<u64>) -> Result<(), Stop>
        requires between { IsBetweenPages self.old.dvi }
        requires known { AreKnown self.old.dvi.progress.fonts (definition_at fonts.now) }
        ensures ends { EndsAs (fails result) (state_of N.heap self.new) (shipped_if fonts.now page (state_of N.heap self.old)) }
        ensures between { OnOk result (IsBetweenPages self.new.dvi) }
    {
        match page {
            None => Ok(()),
            Some(page) => self.ship(alloc, fonts, page),
        }
    }

    /// Ends the job: makes the last page, and writes the preamble, that page, and the postamble.
    pub fn end(&mut self, alloc: Global, fonts: &[Font]) -> Result<(), Stop>
        requires { self.old.dvi ≡ new_writer max_dvi }
        ensures { EndsAs (fails result) (state_of N.heap self.new) (ended fonts.now (state_of N.heap self.old)) }
    {
        let page = self.last_page(alloc, fonts)?;
        written(self.dvi.begin())?;
        self.ship_if(alloc, fonts, page)?;
        written(self.dvi.end())
    }
}
