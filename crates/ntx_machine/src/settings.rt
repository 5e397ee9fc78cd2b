//! Parameters, and the attributes that made nodes wear.

ghost use Rattle.std.specs.Prelude.{◌≡◌};
ghost use Rattle.ntx_num.specs.Trace.{EndsAs};
ghost use Rattle.ntx_item.specs.Parameters.{IsInRange, IsGlueInRange};
ghost use Rattle.ntx_machine.specs.Build.{set_value, set_glue, set_attribute, unset_attribute};
ghost use Rattle.ntx_machine.specs.Machine.{fails};
ghost use Rattle.ntx_machine.specs.Seen.{state_of};

use crate::engine::Engine;
use crate::stop::{Stop, in_phase};
use ntx_item::{GlueParam, GlueSpec, Param};
use ntx_nodes::{Nodes, Phase};

impl<N: Nodes> Engine<N> {
    /// Sets a parameter that is a number.
    pub fn set_value(&mut self, p: Param, v: i64) -> Result<(), Stop>
        requires { IsInRange p v }
        ensures ends { EndsAs (fails result) (state_of N.heap self.new) (set_value p v (state_of N.heap self.old)) }
        ensures writer { self.new.dvi ≡ self.old.dvi }
    {
        match self.params.put(p, v) {
            Ok(()) => Ok(()),
            Err(_) => unreachable!(),
        }
    }

    /// Sets a parameter that is glue.
    pub fn set_glue(&mut self, g: GlueParam, spec: GlueSpec) -> Result<(), Stop>
        requires { IsGlueInRange spec }
        ensures ends { EndsAs (fails result) (state_of N.heap self.new) (set_glue g spec (state_of N.heap self.old)) }
        ensures writer { self.new.dvi ≡ self.old.dvi }
    {
        match self.params.put_glue(g, spec) {
            Ok(()) => Ok(()),
            Err(_) => unreachable!(),
        }
    }

    /// Sets an attribute among the current ones.
    pub fn set_attribute(&mut self, id: i64, v: i64) -> Result<(), Stop>
        ensures ends { EndsAs (fails result) (state_of N.heap self.new) (set_attribute id v (state_of N.heap self.old)) }
        ensures writer { self.new.dvi ≡ self.old.dvi }
    {
        in_phase(Phase::Build, self.nodes.set_current(id, v))
    }

    /// Takes an attribute off the current ones.
    pub fn unset_attribute(&mut self, id: i64) -> Result<(), Stop>
        ensures ends { EndsAs (fails result) (state_of N.heap self.new) (unset_attribute id (state_of N.heap self.old)) }
        ensures writer { self.new.dvi ≡ self.old.dvi }
    {
        Ok(self.nodes.unset_current(id)?)
    }
}
