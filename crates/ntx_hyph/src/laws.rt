//! What the pass over a list leaves, where it ends well: laws that calls can cite.

ghost use Rattle.std.specs.Prelude.{List};
ghost use Rattle.ntx_patterns.specs.Pattern.{Pattern};
ghost use Rattle.ntx_patterns.specs.Points.{points_in, points_of};
ghost use Rattle.ntx_patterns.specs.Table.{Table};
ghost use Rattle.ntx_hyph.specs.Laws.{Ascend, HyphenatedListsAreWhole};

/// Does nothing. Its contract tells the law that hyphenated lists are whole. If the points of each word ascend, and the pass
/// over a list of a lawful heap ends well, then the list holds its old nodes in their order, with a discretionary after the
/// glyph before each gap. These have every other name from the next one on, from the first gap to the last, and each one's
/// hyphen has the name after its own. Each record is as stated, and all other records are the old ones. The points of words
/// by patterns, from their table and by all pairs, do ascend.
pub fn hyphenated_lists_are_whole()
    ensures whole { HyphenatedListsAreWhole }
    ensures table { (t : Table) → Ascend (points_in t) }
    ensures pairs { (patterns : List Pattern) → Ascend (points_of patterns) }
{}
