//! Typesets a document: from the words of the command line and the bytes of the inputs to the bytes of a DVI file, a status
//! and what is printed.
//!
//! [`run`] is the whole program but for the files and the process around it. Its contract ties what it gives, and what the sinks
//! took, to one definition (`specs/Run.antt`), and says what stands after each fault of the outside (`specs/Promise.antt`).
//!
//! It stands on `ntx_words` for the command line, on `ntx_io` for sources and sinks, on `ntx_doc` and `ntx_tfm` for documents and fonts, on
//! `ntx_machine` for what they come to, on `ntx_nodes` for the nodes that a run opens with, on `ntx_dvi` for what a DVI file is, on `ntx_syntax` and
//! `ntx_patterns` for the faults of scripts and patterns, and on `ntx_num` for answers.
#![tactic(auto)]

mod fonts;
mod inputs;
mod outcome;
mod program;
mod stop;
mod typeset;
mod words;

pub use outcome::{Outcome, Place, Status, Which};
pub use program::{run, run_over};
pub use words::is_feed_name;
