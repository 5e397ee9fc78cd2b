//! Documents: the text that says what is typeset, read into commands.
//!
//! A document is lines of fields. The form is this project's own; its commands are TeX's `\hbox`, `\hskip`, `\kern`,
//! `\penalty`, `\vrule`, `\char` and the assignment of parameters ("The TeXbook", chapters 21, 24 and 25). [`read_doc`] gives
//! the commands of a document, or its first fault: the line, and what is wrong there.
//!
//! The crate stands on `ntx_num` for sizes and answers, on `ntx_item` for parameters, glue and the width that a box is packed
//! to, and on `sqlite_items` for the list of commands in a box.
#![tactic(auto)]

mod command;
mod draft;
mod fault;
mod fields;
mod form;
mod group;
mod material;
mod numbers;
mod read;
mod settings;
mod text;
mod words;

pub use command::Command;
pub use fault::{DocFault, DocWhy};
pub use read::read_doc;

#[cfg(test)]
mod depth_tests;
#[cfg(test)]
mod fault_tests;
#[cfg(test)]
mod form_tests;
#[cfg(test)]
mod param_tests;
#[cfg(test)]
mod place_tests;
#[cfg(test)]
mod range_tests;
#[cfg(test)]
mod tests;
#[cfg(test)]
mod text_tests;
