//! Tests of documents: whole runs with fonts in memory, with DVI files worked out by hand from the format of DVI. The crate holds nothing else.
#![tactic(auto)]

#[cfg(test)]
mod files;
#[cfg(test)]
mod font;
#[cfg(test)]
mod places;
#[cfg(test)]
mod stops;
#[cfg(test)]
mod typeset;
