//! The names that a walk reaches, where they are asked for.

ghost use Rattle.std.specs.Prelude.{◌≡◌, ◌++◌, ◌∷◌, [], None, Some, OnOk, OnErr, IsOk};
ghost use Rattle.std.specs.Option.{option_map};

use ntx_num::NoMemory;
use std::alloc::Global;
use std::marker::Model;

/// The names that a walk has reached, in its order, or nothing where nobody asks for them.
#[derive(Drop)]
pub(crate) struct Reached {
    names: Option<Vec<u64>>,
}

impl Model for Reached {
    ghost use Rattle.std.specs.Prelude.{Option, List, ℕ};
    ghost use Rattle.std.specs.Option.{option_map};

    ghost Value = { Option (List ℕ) };

    ghost view = { λ a. option_map (λ names. names.items) a.names };
}

impl Reached {
    /// After names that were collected before.
    pub fn after(names: Vec<u64>) -> Reached
        ensures { result ≡ Some names.items }
    {
        Reached { names: Some(names) }
    }

    /// Nobody asks.
    pub fn uncollected() -> Reached
        ensures { result ≡ None }
    {
        Reached { names: None }
    }

    /// Takes a name. Where memory runs out nothing changes; where nobody asks it does not.
    pub fn take(&mut self, name: u64) -> Result<(), NoMemory>
        ensures ok { OnOk result (self.new ≡ option_map (λ names. names ++ name ∷ []) self.old) }
        ensures err { OnErr result (self.new ≡ self.old) }
        ensures uncollected { self.old ≡ None → IsOk result }
    {
        if let Some(names) = &mut self.names {
            names.push(name)?;
        }
        Ok(())
    }

    /// The names.
    pub fn into_names(self, alloc: Global) -> Vec<u64>
        ensures { option_map (λ names. result.items) self ≡ self }
    {
        match self.names {
            Some(names) => names,
            None => Vec::new(alloc),
        }
    }
}
