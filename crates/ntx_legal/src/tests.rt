//! Places and lines against numbers worked out by hand from TeX's rules.

mod lines;
mod paragraph;
mod places;
