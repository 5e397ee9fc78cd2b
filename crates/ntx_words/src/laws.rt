//! A fact about the form of command lines.

ghost use Rattle.std.specs.Prelude.{◌≡◌, ◌↔◌, ℕ, List, Some};
ghost use Rattle.ntx_words.specs.Form.{HasForm};
ghost use Rattle.ntx_words.specs.Parts.{Parts, parts_of};

/// The law that words have parts exactly if they are written so: paths, the option in one word or in two or not at all, more paths, and then
/// perhaps `--` and any words. The parts are the option's value, and all paths in their order.
pub fn parts_have_their_form()
    ensures { (words : List (List ℕ)) (parts : Parts) → (parts_of words ≡ Some parts) ↔ HasForm words parts }
{}
