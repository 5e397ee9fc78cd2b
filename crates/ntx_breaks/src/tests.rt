//! Breaks against paragraphs worked out by hand from TeX's rules, and against a search that tries each sequence of places.

mod exhaustive;
mod paragraph;
mod worked;
