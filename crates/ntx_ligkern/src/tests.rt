//! Lists with their kerns and ligatures, by hand from the rules.

mod fonts;
mod kerns;
mod ligatures;
mod lists;
