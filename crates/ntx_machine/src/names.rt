//! The names of troubles and phases, as fault lines print them.

ghost use Rattle.std.specs.Prelude.{◌≡◌};
ghost use Rattle.ntx_machine.specs.Names.{trouble_text, phase_text};

use ntx_nodes::{Phase, Trouble};

/// The name of a trouble, without the node that it is about.
pub fn trouble_name(why: Trouble) -> &'static str
    ensures { result.now ≡ trouble_text why }
{
    match why {
        Trouble::Stale(_) => "Stale",
        Trouble::WrongKind(_) => "WrongKind",
        Trouble::Loop(_) => "Loop",
        Trouble::NotInList(_) => "NotInList",
        Trouble::NoField => "NoField",
        Trouble::BadValue => "BadValue",
        Trouble::NodesFull => "NodesFull",
        Trouble::NamesOut => "NamesOut",
        Trouble::AttrFull => "AttrFull",
        Trouble::Dimension => "Dimension",
        Trouble::LigLoop => "LigLoop",
        Trouble::NoChar(_) => "NoChar",
        Trouble::NoBox => "NoBox",
        Trouble::Deep => "Deep",
        Trouble::Nest => "Nest",
    }
}

/// The name of a phase.
pub fn phase_name(phase: Phase) -> &'static str
    ensures { result.now ≡ phase_text phase }
{
    match phase {
        Phase::Hyphenate => "hyphenate",
        Phase::Ligaturing => "ligaturing",
        Phase::Kerning => "kerning",
        Phase::Parfill => "parfill",
        Phase::PreLinebreak => "pre_linebreak",
        Phase::Linebreak => "linebreak",
        Phase::PostLinebreak => "post_linebreak",
        Phase::Done => "done",
        Phase::Hpack => "hpack",
        Phase::Build => "build",
        Phase::Page => "page",
        Phase::Ship => "ship",
        Phase::Start => "start",
    }
}
