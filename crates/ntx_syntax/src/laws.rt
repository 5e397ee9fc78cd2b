//! Laws of the tokens of scripts.

ghost use Rattle.ntx_syntax.specs.Lexes as lexes;

/// Bytes are cut into pieces in one way.
pub fn cut_is_one()
    ensures { lexes.CutIsOne }
{}

/// A script has the tokens that are computed, and no others.
pub fn lexes_as_computed()
    ensures { lexes.LexesAsComputed }
{}

/// A script is refused with the fault that is computed, and with no other.
pub fn is_refused_as_computed()
    ensures { lexes.IsRefusedAsComputed }
{}

/// Two lists of tokens of one script are one.
pub fn lexes_once()
    ensures { lexes.LexesOnce }
{}

/// The tokens of a script stand in it, one after the other, with their lines.
pub fn tokens_stand_in_order()
    ensures { lexes.TokensStandInOrder }
{}

/// What spells a numeral has a value.
pub fn numerals_have_values()
    ensures { lexes.NumeralsHaveValues }
{}

/// What spells a text has a value.
pub fn texts_have_values()
    ensures { lexes.TextsHaveValues }
{}

/// What spells a keyword is in the table of keywords.
pub fn keywords_are_listed()
    ensures { lexes.KeywordsAreListed }
{}

/// What spells a symbol is in the table of symbols.
pub fn symbols_are_listed()
    ensures { lexes.SymbolsAreListed }
{}
