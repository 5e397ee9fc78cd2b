//! Worked examples.

mod hosts;
mod integers;
mod values;
