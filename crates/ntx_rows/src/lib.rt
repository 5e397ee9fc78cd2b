//! Tests that go through several crates: whole runs, with every source and sink in memory, and the laws of packing. The rows are those of the
//! tables that tests go through, each with what a run is given and how it has to end.
//!
//! It holds nothing but tests, since a crate with tests is proved twice.
#![tactic(auto)]

#[cfg(test)]
mod faults;
#[cfg(test)]
mod fonts;
#[cfg(test)]
mod job;
#[cfg(test)]
mod nodes;
#[cfg(test)]
mod packing;
#[cfg(test)]
mod runs;
#[cfg(test)]
mod trickle;
