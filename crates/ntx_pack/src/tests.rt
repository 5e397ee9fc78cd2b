//! Packing and output against values computed by hand from TeX's rules.

mod glue;
mod lists;
mod output;
mod sizes;
