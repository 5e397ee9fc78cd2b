//! Kinds of nodes, kinds of lists, and ways of walking.

ghost use Rattle.std.specs.Prelude.{◌≡◌, ◌≢◌, pos, IfSome, IfNone};
ghost use Rattle.ntx_nodes.specs.declared.kind.Kind.{Kind};
ghost use Rattle.ntx_nodes.specs.Fields.{number_of, last_subtype, settable_fields};
ghost use Rattle.ntx_nodes.specs.Walk.{allows, admits, is_too_deep, entered};

use crate::{Contents, Field, InnerLists};

/// The kind of a node (LuaTeX Reference Manual, chapter "Nodes"), with a number that is this engine's own.
#[derive(Clone, Copy, Debug, PartialEq, Eq)]
pub enum Kind {
    /// A box whose list runs from the left to the right.
    Hlist = 1,
    /// A box whose list runs from the top down.
    Vlist = 2,
    /// A filled rectangle.
    Rule = 3,
    /// A place where a word may be broken, with what stands before, after and instead of the break.
    Disc = 4,
    /// A space that may stretch and shrink.
    Glue = 5,
    /// A space of one size.
    Kern = 6,
    /// The cost of a break at this place.
    Penalty = 7,
    /// A character of a font.
    Glyph = 8,
}

impl Kind {
    /// The number of the kind, from 1 to 8.
    pub fn number(self) -> u8
        ensures { result ≡ number_of self }
    {
        self as u8
    }

    /// The kind that has a number, where there is one.
    pub fn from_number(number: i64) -> Option<Kind>
        ensures found { IfSome result (λ kind. pos (number_of kind) ≡ number) }
        ensures unknown { IfNone result ((kind : Kind) → pos (number_of kind) ≢ number) }
    {
        match number {
            1 => Some(Kind::Hlist),
            2 => Some(Kind::Vlist),
            3 => Some(Kind::Rule),
            4 => Some(Kind::Disc),
            5 => Some(Kind::Glue),
            6 => Some(Kind::Kern),
            7 => Some(Kind::Penalty),
            8 => Some(Kind::Glyph),
            _ => None,
        }
    }

    /// The greatest subtype of nodes of the kind: 3 of a discretionary, else 255.
    pub fn last_subtype(self) -> u8
        ensures { result ≡ last_subtype self }
    {
        match self {
            Kind::Disc => 3,
            _ => 255,
        }
    }

    /// The fields of nodes of the kind that can be set, beside the subtype.
    pub fn settable_fields(self) -> &'static [Field]
        ensures { result.now ≡ settable_fields self }
    {
        match self {
            Kind::Hlist | Kind::Vlist => &OF_BOX,
            Kind::Rule => &OF_RULE,
            Kind::Disc => &OF_DISC,
            Kind::Glue => &OF_GLUE,
            Kind::Kern => &OF_KERN,
            Kind::Penalty => &OF_PENALTY,
            Kind::Glyph => &OF_GLYPH,
        }
    }
}

/// The fields of a box that can be set.
static OF_BOX: [Field; 6] = [
    Field::Next,
    Field::Width,
    Field::Height,
    Field::Depth,
    Field::Shift,
    Field::List,
];

/// The fields of a rule that can be set.
static OF_RULE: [Field; 4] = [Field::Next, Field::Width, Field::Height, Field::Depth];

/// The fields of a discretionary that can be set.
static OF_DISC: [Field; 4] = [Field::Next, Field::Pre, Field::Post, Field::Replace];

/// The fields of a glue that can be set.
static OF_GLUE: [Field; 6] = [
    Field::Next,
    Field::Width,
    Field::Stretch,
    Field::StretchOrder,
    Field::Shrink,
    Field::ShrinkOrder,
];

/// The fields of a kern that can be set.
static OF_KERN: [Field; 2] = [Field::Next, Field::Kern];

/// The fields of a penalty that can be set.
static OF_PENALTY: [Field; 2] = [Field::Next, Field::Penalty];

/// The fields of a glyph that can be set.
static OF_GLYPH: [Field; 3] = [Field::Next, Field::Char, Field::Font];

/// What a list may hold.
#[derive(Clone, Copy, Debug, PartialEq, Eq)]
pub enum ListKind {
    /// A horizontal list, which may hold every kind.
    H,
    /// A vertical list, which holds boxes, rules, glue, kerns and penalties.
    V,
    /// A part of a discretionary, which holds boxes, rules, kerns and glyphs.
    Part,
}

impl ListKind {
    /// Whether such a list may hold nodes of a kind.
    pub fn allows(self, kind: Kind) -> bool
        ensures { result ≡ allows self kind }
    {
        match self {
            ListKind::H => true,
            ListKind::V => !matches!(kind, Kind::Disc | Kind::Glyph),
            ListKind::Part => !matches!(kind, Kind::Disc | Kind::Glue | Kind::Penalty),
        }
    }
}

/// How a walk goes through lists.
#[derive(Clone, Copy, Debug, PartialEq, Eq)]
pub enum Way {
    /// Through the inner lists too, and each list may hold only nodes of kinds that it allows.
    Checked,
    /// Through the inner lists too.
    Plain,
    /// Along one list alone.
    Flat,
}

/// Lists lie no deeper inside one another.
pub const MAX_DEPTH: u64 = 100;

impl Way {
    /// The inner lists that such a walk enters at a node with these contents.
    pub fn entered(self, contents: &Contents) -> InnerLists
        ensures { result ≡ entered self contents.now }
    {
        match self {
            Way::Flat => InnerLists::none(),
            _ => contents.inner_lists(),
        }
    }

    /// Whether a list at a depth is too deep for such a walk.
    pub fn is_too_deep(self, depth: u64) -> bool
        ensures { result ≡ is_too_deep self depth }
    {
        match self {
            Way::Flat => false,
            _ => depth > MAX_DEPTH,
        }
    }

    /// Whether such a walk lets a list of a kind hold nodes of a kind.
    pub fn admits(self, k: ListKind, kind: Kind) -> bool
        ensures { result ≡ admits self k kind }
    {
        match self {
            Way::Checked => k.allows(kind),
            _ => true,
        }
    }
}
