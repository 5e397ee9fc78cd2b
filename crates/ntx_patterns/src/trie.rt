//! A trie of symbols ("TeX: The Program", sections 943 to 949).

ghost use Rattle.std.specs.Prelude.{◌≡◌, ◌<◌, ℕ, List, [], ◌∷◌, length, All, IfOk, OnOk, MatchOption};
ghost use Rattle.ntx_patterns.specs.Table.{greater_digits};
ghost use Rattle.ntx_patterns.specs.Places.{symbol_index, place_of};
ghost use Rattle.ntx_patterns.specs.Kept.{row};
ghost use Rattle.ntx_patterns.specs.inner.Adding.{added};
ghost use Rattle.ntx_patterns.specs.inner.Packed.{AllPacked, ArePacked, row_in};

use crate::word::is_letter;
use ntx_num::NoMemory;
use std::alloc::Global;

/// The number of symbols: the letters and the dot.
const SYMBOLS: usize = 27;

/// The place of a child that is not there.
const ABSENT: u8 = 255;

/// A node of a trie, and all nodes below it.
///
/// A child is found in constant time: `places` has the place of each symbol's child. A node takes 80 bytes, and each symbol of a
/// pattern adds at most one. So a file of 4 MiB takes at most about 400 MB, if few of its patterns begin alike.
#[derive(Debug, Drop)]
pub struct Node {
    /// The digits of the patterns that end here, the greatest of each place; none if no pattern does.
    digits: Vec<u8>,
    /// The place of the child for each letter and for the dot among the children.
    places: [u8; SYMBOLS],
    /// The nodes for one more symbol.
    children: Vec<Node>,
}

/// Takes over each digit that is greater than the one of its place.
fn raise(kept: &mut Vec<u8>, digits: &[u8]) -> Result<(), NoMemory>
    ensures { OnOk result (kept.new.items ≡ greater_digits kept.old.items digits.now) }
{
    for (i, digit) in digits.iter().enumerate() {
        if i < kept.len() {
            kept[i] = kept[i].max(*digit);
        } else {
            kept.push(*digit)?;
        }
    }
    Ok(())
}

/// The number of a symbol among the letters and the dot; `SYMBOLS` for any other byte.
fn symbol_index(symbol: u8) -> usize
    ensures { result ≡ symbol_index symbol }
{
    if is_letter(symbol) {
        (symbol - b'a') as usize
    } else if symbol == b'.' {
        26
    } else {
        SYMBOLS
    }
}

/// The place of a symbol's child; past all children if there is none.
fn place_of(places: &[u8], symbol: u8) -> usize
    ensures { result ≡ place_of places.now symbol }
{
    let i = symbol_index(symbol);
    if i < places.len() {
        places[i] as usize
    } else {
        ABSENT as usize
    }
}

/// The place of a symbol's child; a child with nothing is made if there is none.
fn open(
    alloc: Global,
    places: &mut [u8; SYMBOLS],
    children: &mut Vec<Node>,
    symbol: u8,
) -> Result<usize, NoMemory>
    requires symbol { symbol_index symbol < 27 }
    requires packed { ArePacked places.old children.old.items }
    ensures packed { ArePacked places.new children.new.items }
    ensures place { IfOk result (λ place. (place ≡ place_of places.new symbol) × (place < length children.new.items)) }
    ensures rows { (next : ℕ) (key : List ℕ) → row_in places.new children.new.items next key ≡ row_in places.old children.old.items next key }
{
    let i = symbol_index(symbol);
    if places[i] != ABSENT {
        return Ok(places[i] as usize);
    }
    let place = children.len();
    children.reserve_exact(1)?;
    children.push_reserved(Node::new(alloc));
    places[i] = place as u8;
    Ok(place)
}

impl Node {
    /// A trie with nothing.
    pub fn new(alloc: Global) -> Node
        ensures rows { (key : List ℕ) → row result key ≡ [] }
        ensures packed { AllPacked result }
    {
        Node {
            digits: Vec::new(alloc),
            places: [ABSENT; SYMBOLS],
            children: Vec::new(alloc),
        }
    }

    /// The digits of the patterns that end here.
    pub fn digits(&self) -> &[u8]
        ensures { result.now ≡ row self.now [] }
    {
        &self.digits
    }

    /// Adds a pattern with these symbols and digits.
    pub fn add(&mut self, alloc: Global, symbols: &[u8], digits: &[u8]) -> Result<(), NoMemory>
        requires symbols { All (λ symbol. symbol_index symbol < 27) symbols.now }
        requires packed { AllPacked self.old }
        ensures rows { OnOk result (row self.new ≡ added symbols.now digits.now (row self.old)) }
        ensures packed { AllPacked self.new }
    {
        match symbols {
            [] => raise(&mut self.digits, digits),
            [first, others @ ..] => {
                let place = open(alloc, &mut self.places, &mut self.children, *first)?;
                self.children[place].add(alloc, others, digits)
            }
        }
    }

    /// The node for one more symbol.
    pub fn child(&self, symbol: u8) -> Option<&Node>
        ensures { MatchOption result ((key : List ℕ) → row self.now (symbol ∷ key) ≡ [])
            (λ child. (key : List ℕ) → row self.now (symbol ∷ key) ≡ row child.now key) }
    {
        self.children.get(place_of(&self.places, symbol))
    }
}
