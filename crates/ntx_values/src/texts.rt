//! The distinct texts of a store.

ghost use Rattle.std.specs.Prelude.{◌≡◌, ◌<◌, true, [], ◌∷◌, ◌++◌, length, slice_index_or, None, OnOk, OnErr};
ghost use Rattle.ntx_num.specs.Answer.{Steps};
ghost use Rattle.ntx_values.specs.Texts.{place_of, has_room_for, made};

use crate::LuaWhy;
use indexmap::IndexSet;
use ntx_num::{Fail, NoMemory};
use std::alloc::Global;
use std::marker::Model;

/// The most bytes of all texts together.
const MAX_BYTES: usize = 1 << 24;

/// The most bytes of one text.
const MAX_TEXT: usize = 1 << 20;

/// Texts in the order in which they were made, each once, and how many bytes they have together. It is seen as the list of
/// the texts.
#[derive(Drop)]
pub(crate) struct Texts {
    texts: IndexSet<Vec<u8>>,
    total: usize,
}

impl Model for Texts {
    ghost use Rattle.std.specs.Prelude.{◌≡◌, ◌≤◌, ℕ, List, length, map, sum_by};
    ghost use Rattle.ntx_values.specs.Texts.{max_bytes};

    ghost Value = { List (List ℕ) };

    ghost view = { λ a. map (λ v. v.items) a.texts.keys };

    ghost invariant = { λ a. (a.total ≡ sum_by length (map (λ v. v.items) a.texts.keys)) × (a.total ≤ max_bytes) };
}

impl Texts {
    /// No texts.
    pub fn new(alloc: Global) -> Texts
        ensures { result ≡ [] }
    {
        Texts {
            texts: IndexSet::new(alloc),
            total: 0,
        }
    }

    /// The place of the text with these bytes, where it was made.
    pub fn find(&self, bytes: &[u8]) -> Option<usize>
        ensures { result ≡ place_of bytes.now self.now }
    {
        self.texts.get_index_of(bytes)
    }

    /// The text at a place.
    pub fn at(&self, place: usize) -> &[u8]
        requires { place < length self.now }
        ensures { result.now ≡ slice_index_or self.now place [] }
    {
        self.texts[place].as_slice()
    }

    /// How many there are.
    fn len(&self) -> usize
        ensures { result ≡ length self.now }
    {
        self.texts.len()
    }

    /// Whether a new text is within the limits: it has at most 2^20 bytes, and all together have at most 2^24.
    fn has_room_for(&self, bytes: &[u8]) -> bool
        ensures { result ≡ has_room_for bytes.now self.now }
    {
        bytes.len() <= MAX_TEXT && self.total + bytes.len() <= MAX_BYTES
    }

    /// Adds a text that is not there, for which there is room.
    fn add(&mut self, alloc: Global, bytes: &[u8]) -> Result<(), NoMemory>
        requires absent { place_of bytes.now self.old ≡ None }
        requires room { has_room_for bytes.now self.old ≡ true }
        ensures ok { OnOk result (self.new ≡ self.old ++ bytes.now ∷ []) }
        ensures err { OnErr result (self.new ≡ self.old) }
    {
        self.texts.insert(Vec::from_slice(alloc, bytes)?)?;
        self.total += bytes.len();
        Ok(())
    }

    /// The place of the text with these bytes, which is made where it was not. Refuses a new text with TextsFull where
    /// there is no room for it.
    pub fn make(&mut self, alloc: Global, bytes: &[u8]) -> Result<usize, Fail<LuaWhy>>
        ensures { Steps result self.old self.new (made bytes.now self.old) }
    {
        if let Some(place) = self.find(bytes) {
            return Ok(place);
        }
        if !self.has_room_for(bytes) {
            return Err(Fail::Is(LuaWhy::TextsFull));
        }
        let place = self.len();
        self.add(alloc, bytes)?;
        Ok(place)
    }
}
