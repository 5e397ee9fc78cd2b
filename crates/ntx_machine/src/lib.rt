//! The machine that typesets a document: it carries out the document's commands one after another, over any heap of nodes, and gives the
//! bytes of a DVI file.
//!
//! A command builds nodes and packs them into boxes ("TeX: The Program", sections 1056 to 1086); the end of the document makes the page
//! (sections 987 to 1017) and writes it (sections 592 to 642). What each step does is a definition (`specs/Job.antt`), over the states that
//! the machine goes through, and each call is tied to it.
//!
//! It stands on `ntx_doc` for commands, on `ntx_nodes` and `ntx_lists` for nodes, on `ntx_item` for parameters and glue, on `ntx_tfm` for fonts, on
//! `ntx_view` and `ntx_pack` for boxes, on `ntx_dvi` and `ntx_ship` for the DVI file, and on `ntx_num` for answers and courses of states.
#![tactic(auto)]

mod boxes;
mod commands;
mod ends;
mod engine;
mod fields;
mod machine;
mod names;
mod page;
mod settings;
mod shipout;
mod stop;

pub use machine::Machine;
pub use names::{phase_name, trouble_name};
pub use stop::Stop;

#[cfg(test)]
mod tests;
