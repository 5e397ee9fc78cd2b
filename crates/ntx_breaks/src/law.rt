//! The law of breaking.

ghost use Rattle.ntx_breaks.specs.Laws.{EachParagraphBreaks};

/// The law that each paragraph has breaks: a final pass always has a state at its end.
pub fn each_paragraph_breaks()
    ensures { EachParagraphBreaks }
{}
