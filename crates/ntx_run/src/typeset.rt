//! Typesetting the commands of a document into a DVI file.

ghost use Rattle.std.specs.Prelude.{◌≡◌, true, Ok};
ghost use Rattle.std.specs.List.{list_all};
ghost use Rattle.ntx_doc.specs.Shape.{has_numbers_in_range};
ghost use Rattle.ntx_machine.specs.Machine.{IsOpen};
ghost use Rattle.ntx_machine.specs.Seen.{view_of};
ghost use Rattle.ntx_run.specs.inner.Parts.{HandsOverWaiting, HandsOver, Typesets};

use crate::stop::StopReason;
use ntx_doc::Command;
use ntx_io::{Sink, write_all};
use ntx_machine::{Machine, Stop};
use ntx_nodes::Nodes;

/// Hands the bytes that wait to the sink. If there are none, nothing is written.
fn hand_over<N: Nodes, O: Sink>(machine: &mut Machine<N>, sink: &mut O) -> Result<(), StopReason>
    ensures { HandsOverWaiting (Ok tt) (view_of N.heap machine.old) (view_of N.heap machine.new) (O.output sink.old) (O.output sink.new) result }
{
    let bytes = machine.take_dvi();
    match write_all(sink, bytes.as_slice()) {
        Ok(()) => Ok(()),
        Err(_fault) => Err(StopReason::Write),
    }
}

/// What follows a step: the bytes that wait are handed over, also if the machine stopped, but not if memory ran out.
fn after_step<N: Nodes, O: Sink>(
    answer: Result<(), Stop>,
    machine: &mut Machine<N>,
    sink: &mut O,
) -> Result<(), StopReason>
    ensures { HandsOver answer (view_of N.heap machine.old) (view_of N.heap machine.new) (O.output sink.old) (O.output sink.new) result }
{
    if let Err(Stop::Memory) = answer {
        return Err(StopReason::Memory);
    }
    hand_over(machine, sink)?;
    match answer {
        Ok(()) => Ok(()),
        Err(why) => Err(StopReason::of_machine(why)),
    }
}

/// Carries out the commands and the end of a document, and hands over the bytes of the DVI file after each of them.
pub fn typeset<N: Nodes, O: Sink>(
    machine: &mut Machine<N>,
    commands: &[Command],
    sink: &mut O,
) -> Result<(), StopReason>
    requires open { IsOpen (view_of N.heap machine.old) }
    requires numbers { list_all has_numbers_in_range commands.now ≡ true }
    ensures { Typesets commands.now (view_of N.heap machine.old) (view_of N.heap machine.new) (O.output sink.old) (O.output sink.new) result }
{
    for command in commands {
        let answer = machine.command(command);
        after_step(answer, machine, sink)?;
    }
    let answer = machine.finish();
    after_step(answer, machine, sink)
}
