//! Totals of the first items of a list, from which the numbers of a line are found in constant time ("TeX: The Program", section 823).

ghost use Rattle.std.specs.Prelude.{◌≡◌, ◌<◌, ◌≤◌, ◌+◌, ◌-◌, IfOk, length, take, drop};
ghost use Rattle.ntx_item.specs.Items.{AreItemsInRange};
ghost use Rattle.ntx_legal.specs.Kept.{kept_items};
ghost use Rattle.ntx_legal.specs.LineSums.{sums_of};
ghost use Rattle.ntx_legal.specs.Totals.{entry_of, AreTotalsOf};

use crate::kept::{discarded, is_discardable, keeps_all};
use crate::sums::{EMPTY, Sums};
use ntx_item::Item;
use ntx_num::NoMemory;
use std::alloc::Global;

/// The totals of the first items.
#[derive(Clone, Copy, Debug, PartialEq, Eq)]
pub struct Entry {
    /// What they come to together.
    pub sums: Sums,
    /// How many items stand before the first one that a break after these does not discard.
    pub kept: u64,
}

/// Totals of the first items of a list, for each number of them: seven numbers of 64 bits each.
#[derive(Drop)]
pub struct LineTotals {
    /// One entry for each number of items, from none to all.
    pub entries: Vec<Entry>,
}

/// The entry of one item more.
fn next_entry(items: &[Item], entry: Entry, i: usize) -> Entry
    requires in_range { AreItemsInRange items.now }
    requires i { i < length items.now }
    requires entry { entry ≡ entry_of items.now i }
    ensures { result ≡ entry_of items.now (i + 1) }
{
    let sums = entry.sums.with(&items[i]);
    if is_discardable(&items[i]) {
        return Entry {
            sums,
            kept: entry.kept,
        };
    }
    Entry {
        sums,
        kept: (i + 1 + discarded(&items[i + 1..])) as u64,
    }
}

impl LineTotals {
    /// The totals of these items, in time linear in their number.
    pub fn new(alloc: Global, items: &[Item]) -> Result<LineTotals, NoMemory>
        requires { AreItemsInRange items.now }
        ensures { IfOk result (AreTotalsOf items.now) }
    {
        let mut entry = Entry {
            sums: EMPTY,
            kept: discarded(items) as u64,
        };
        let mut entries = Vec::new(alloc);
        entries.push(entry)?;
        for i in 0..items.len() {
            entry = next_entry(items, entry, i);
            entries.push(entry)?;
        }
        Ok(LineTotals { entries })
    }

    /// The entry of the first `n` items.
    fn entry(&self, items: &[Item], n: usize) -> Entry
        requires totals { AreTotalsOf items.now self.now }
        requires n { n ≤ length items.now }
        ensures { result ≡ entry_of items.now n }
    {
        self.entries[n]
    }

    /// Where the items of a line that count begin: how many items stand before them.
    fn start(&self, items: &[Item], from: usize, to: usize) -> usize
        requires totals { AreTotalsOf items.now self.now }
        requires order { from < to }
        requires to { to ≤ length items.now + 1 }
        ensures value { sums_of (kept_items items.now from to) ≡ sums_of (take (to - 1 - result) (drop result items.now)) }
        ensures bound { result ≤ to - 1 }
    {
        if keeps_all(items, from) {
            return from;
        }
        let kept = self.entry(items, from).kept as usize;
        kept.min(to - 1)
    }

    /// What the items of a line that count come to together.
    pub(crate) fn between(&self, items: &[Item], from: usize, to: usize) -> Sums
        requires in_range { AreItemsInRange items.now }
        requires totals { AreTotalsOf items.now self.now }
        requires order { from < to }
        requires to { to ≤ length items.now + 1 }
        ensures { result ≡ sums_of (kept_items items.now from to) }
    {
        let start = self.start(items, from, to);
        self.entry(items, to - 1)
            .sums
            .minus(self.entry(items, start).sums)
    }
}
