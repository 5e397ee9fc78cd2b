//! Reading a list for its words, and these for the gaps in which there is a point.

ghost use Rattle.std.specs.Prelude.{◌≡◌, ℕ, ◌++◌, [], ◌∷◌, List, Option, map, OnOk};
ghost use Rattle.std.specs.List.{cons_option};
ghost use Rattle.ntx_num.specs.Answer.{Gives, result_map};
ghost use Rattle.ntx_patterns.specs.Kept.{table};
ghost use Rattle.ntx_patterns.specs.Points.{points_in};
ghost use Rattle.ntx_hyph.specs.declared.letter.Letter.{Letter};
ghost use Rattle.ntx_hyph.specs.Words.{letter_at, gap_in, codes_of, gaps_in_word, gaps_in};
ghost use Rattle.ntx_hyph.specs.Hyphenation.{points_with};
ghost use Rattle.ntx_hyph.specs.inner.Reading.{AreOfOneFont, word_goes_on, gaps_with, IsReadyFor};

use crate::letter::{Gap, Letter, letter_at};
use ntx_item::{Param, Params};
use ntx_nodes::Nodes;
use ntx_num::NoMemory;
use ntx_patterns::{Patterns, points};
use std::alloc::Global;

/// What was read of a list so far.
#[derive(Drop)]
struct Reading {
    /// The letters of the word that has begun.
    word: Vec<Letter>,
    /// The gaps of the words before, in which there is a point.
    gaps: Vec<Gap>,
}

/// The points of a word, by the numbers of letters before them.
fn points_of(
    alloc: Global,
    p: &Patterns,
    params: &Params,
    word: &[Letter],
) -> Result<Vec<u64>, NoMemory>
    ensures { Gives (result_map (λ points. points.items) result) (points_with (points_in (table p.now)) params.now (codes_of word.now)) }
{
    let codes: Vec<u8> = word.iter().map(|letter| letter.code).collect(alloc)?;
    let left = params.get(Param::Lefthyphenmin).unsigned_abs();
    let right = params.get(Param::Righthyphenmin).unsigned_abs();
    points(alloc, p, &codes, left, right)
}

/// The gap after the first `i` letters of a word; there is none before the first letter.
fn gap_in(word: &[Letter], i: u64) -> Option<Gap>
    ensures { result ≡ gap_in word.now i }
{
    let before = word.get(i.checked_sub(1)? as usize)?;
    let after = word.get(i as usize)?;
    Some(Gap {
        before: before.name,
        after: after.name,
        font: before.font,
    })
}

/// Whether the next node is a letter that goes on a word.
fn goes_on(word: &[Letter], next: Option<Letter>) -> bool
    ensures { result ≡ word_goes_on word.now (next ∷ []) }
{
    let Some(next) = next else {
        return false;
    };
    match word.last() {
        Some(last) => last.font == next.font,
        None => false,
    }
}

impl Reading {
    /// Nothing was read yet.
    fn new(alloc: Global) -> Reading
        ensures word { result.word.items ≡ [] }
        ensures gaps { result.gaps.items ≡ [] }
    {
        Reading {
            word: Vec::new(alloc),
            gaps: Vec::new(alloc),
        }
    }

    /// Takes the gap after the first `i` letters of the word, if there is one.
    fn take_point(&mut self, i: u64) -> Result<(), NoMemory>
        ensures word { OnOk result (self.new.word.items ≡ self.old.word.items) }
        ensures gaps { OnOk result (self.new.gaps.items ≡ self.old.gaps.items ++ cons_option (gap_in self.old.word.items i) []) }
    {
        match gap_in(&self.word, i) {
            None => Ok(()),
            Some(gap) => {
                self.gaps.push(gap)?;
                Ok(())
            }
        }
    }

    /// Takes the gaps of the word that has begun. The next one has no letters yet.
    fn end_word(&mut self, alloc: Global, p: &Patterns, params: &Params) -> Result<(), NoMemory>
        ensures word { OnOk result (self.new.word.items ≡ []) }
        ensures gaps { OnOk result (self.new.gaps.items ≡ self.old.gaps.items ++ gaps_in_word (points_with (points_in (table p.now)) params.now) self.old.word.items) }
    {
        for i in &points_of(alloc, p, params, &self.word)? {
            self.take_point(*i)?;
        }
        self.word.clear();
        Ok(())
    }

    /// Ends the word that has begun, unless the next node goes on with it.
    fn make_room(
        &mut self,
        alloc: Global,
        p: &Patterns,
        params: &Params,
        next: Option<Letter>,
    ) -> Result<(), NoMemory>
        requires { AreOfOneFont self.old.word.items }
        ensures gaps { OnOk result ((rest : List (Option Letter)) → gaps_with (points_with (points_in (table p.now)) params.now) self.new.gaps.items self.new.word.items (next ∷ rest) ≡ gaps_with (points_with (points_in (table p.now)) params.now) self.old.gaps.items self.old.word.items (next ∷ rest)) }
        ensures one_font { OnOk result (AreOfOneFont self.new.word.items) }
        ensures ready { OnOk result (IsReadyFor self.new.word.items next) }
    {
        if goes_on(&self.word, next) {
            return Ok(());
        }
        self.end_word(alloc, p, params)?;
        Ok(())
    }

    /// Takes the next node into the word, if it is a letter.
    fn put(&mut self, next: Option<Letter>) -> Result<(), NoMemory>
        requires one_font { AreOfOneFont self.old.word.items }
        requires ready { IsReadyFor self.old.word.items next }
        ensures gaps { OnOk result ((rest : List (Option Letter)) (points : List ℕ → List ℕ) → gaps_with points self.new.gaps.items self.new.word.items rest ≡ gaps_with points self.old.gaps.items self.old.word.items (next ∷ rest)) }
        ensures one_font { OnOk result (AreOfOneFont self.new.word.items) }
    {
        if let Some(letter) = next {
            self.word.push(letter)?;
        }
        Ok(())
    }
}

/// The gaps of a list in which there is a point, from the left to the right.
pub(crate) fn gaps_in<N: Nodes>(
    alloc: Global,
    nodes: &N,
    p: &Patterns,
    params: &Params,
    names: &[u64],
) -> Result<Vec<Gap>, NoMemory>
    ensures { Gives (result_map (λ gaps. gaps.items) result) (gaps_in (points_with (points_in (table p.now)) params.now) (map (letter_at (N.heap nodes.now)) names.now)) }
{
    let mut reading = Reading::new(alloc);
    for n in names {
        let next = letter_at(nodes, *n);
        reading.make_room(alloc, p, params, next)?;
        reading.put(next)?;
    }
    reading.end_word(alloc, p, params)?;
    Ok(reading.gaps)
}
