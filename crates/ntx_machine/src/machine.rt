//! The machine, as its callers see it.

ghost use Rattle.std.specs.Prelude.{◌≡◌, true, IfOk};
ghost use Rattle.ntx_doc.specs.Shape.{has_numbers_in_range};
ghost use Rattle.ntx_machine.specs.Shipout.{ended};
ghost use Rattle.ntx_machine.specs.Job.{command_step};
ghost use Rattle.ntx_machine.specs.Machine.{new_machine, emptied, IsOpen, Carries, kept_of};
ghost use Rattle.ntx_machine.specs.Seen.{view_of};

use crate::engine::Engine;
use crate::stop::Stop;
use ntx_doc::Command;
use ntx_dvi::Dvi;
use ntx_item::Params;
use ntx_nodes::Nodes;
use ntx_num::NoMemory;
use ntx_tfm::Font;
use std::alloc::Global;

/// The most bytes of a DVI file.
const MAX_DVI: u64 = 0x7fff_ffff;

/// A machine that typesets a document over a heap of nodes.
///
/// Its calls come in this order: [`Machine::command`] for each command of a document, in order, and then [`Machine::finish`]. After each of them
/// [`Machine::take_dvi`] gives the bytes of the DVI file that are ready.
///
/// # Stops
///
/// A call may stop the machine. If a step is refused, the nodes and the DVI file are as that step found them. If memory runs out, they are as
/// one of the steps of the call left them. Each later call answers the same.
///
/// - `Engine`: this trouble came in this phase. `Build` is the making of nodes and the setting of attributes, `Hpack` the packing of a box, `Page` the making of the page, and
///   `Ship` its placing.
/// - `DviFull`: an operation of the DVI file would end past 2^31-1 bytes. The operations before it stay written.
/// - `Memory`: memory ran out.
#[derive(Drop)]
pub struct Machine<N> {
    alloc: Global,
    fonts: Vec<Font>,
    engine: Engine<N>,
    stopped: Option<Stop>,
}

impl<N: Nodes> Machine<N> {
    /// A machine that has done nothing yet, over these nodes and with these fonts: the number of a font is its place. If memory runs out, the
    /// nodes and the fonts are dropped.
    pub fn new(alloc: Global, nodes: N, fonts: Vec<Font>) -> Result<Machine<N>, NoMemory>
        ensures { IfOk result (λ m. view_of N.heap m ≡ new_machine fonts.items (N.heap nodes)) }
    {
        let dvi = Dvi::new(alloc, MAX_DVI)?;
        let engine = Engine {
            nodes,
            params: Params::plain(),
            main: None,
            dvi,
        };
        Ok(Machine {
            alloc,
            fonts,
            engine,
            stopped: None,
        })
    }

    /// Keeps the answer of a call, if the machine stopped.
    fn keep(&mut self, answer: Result<(), Stop>) -> Result<(), Stop>
        ensures result { result ≡ answer }
        ensures kept { view_of N.heap self.new ≡ record (view_of N.heap self.old) { stopped = kept_of answer } }
    {
        self.stopped = answer.err();
        answer
    }

    /// Carries out a command of a document that stands outside of boxes. Each number in it is in the range that a document gives it. A box takes
    /// the place of a box before it. A command that does not stand there does nothing. The stack holds a call for each box in a box.
    pub fn command(&mut self, command: &Command) -> Result<(), Stop>
        requires { has_numbers_in_range command.now ≡ true }
        ensures carries { Carries result (view_of N.heap self.old) (view_of N.heap self.new) (command_step (view_of N.heap self.old).fonts command.now) }
        ensures writer { (view_of N.heap self.new).state.writer ≡ (view_of N.heap self.old).state.writer }
    {
        match self.stopped {
            Some(why) => Err(why),
            None => {
                let fonts = self.fonts.as_slice();
                let answer = self.engine.command(self.alloc, fonts, command);
                self.keep(answer)
            }
        }
    }

    /// Ends the job: makes and writes the last page, and writes the postamble. It comes once, after the last command.
    pub fn finish(&mut self) -> Result<(), Stop>
        requires { IsOpen (view_of N.heap self.old) }
        ensures { Carries result (view_of N.heap self.old) (view_of N.heap self.new) (ended (view_of N.heap self.old).fonts) }
    {
        match self.stopped {
            Some(why) => Err(why),
            None => {
                let answer = self.engine.end(self.alloc, self.fonts.as_slice());
                self.keep(answer)
            }
        }
    }

    /// The bytes of the DVI file that were not taken yet.
    pub fn take_dvi(&mut self) -> Vec<u8>
        ensures bytes { result.items ≡ (view_of N.heap self.old).state.writer.waiting }
        ensures rest { view_of N.heap self.new ≡ emptied (view_of N.heap self.old) }
    {
        self.engine.dvi.take()
    }

    /// How many pages have begun in the DVI file.
    pub fn pages(&self) -> u64
        ensures { result ≡ (view_of N.heap self.now).state.writer.progress.pages }
    {
        self.engine.dvi.pages()
    }

    /// The nodes.
    pub fn into_nodes(self) -> N
        ensures { N.heap result ≡ (view_of N.heap self).state.heap }
    {
        let engine = self.engine;
        engine.nodes
    }
}
