//! Where words stand.

ghost use Rattle.std.specs.Prelude.{◌≡◌, ◌+◌, ◌<◌, ◌^◌};
ghost use Rattle.ntx_parse.specs.Grammar as grammar;

/// Where a word of a script stands.
#[derive(Clone, Copy, Debug, PartialEq, Eq)]
pub struct Place {
    /// How many counted parts of the script hold it: blocks, bodies of functions, tables, parts in brackets, operands after
    /// operators. In a script that is accepted it is 200 at most for each word.
    pub nesting: u64,
    /// Whether it stands in a loop of its function.
    pub in_loop: bool,
}

/// The place of a script's own block, which is not counted.
pub fn outermost() -> Place
    ensures { result ≡ grammar.outermost }
{
    Place {
        nesting: 0,
        in_loop: false,
    }
}

/// The place in a part that is counted.
pub fn within(place: Place) -> Place
    requires { place.nesting < 2 ^ 16 }
    ensures is { result ≡ grammar.within place }
    ensures nesting { result.nesting ≡ place.nesting + 1 }
{
    Place {
        nesting: place.nesting + 1,
        in_loop: place.in_loop,
    }
}

/// The place in the block of a loop.
pub fn within_loop(place: Place) -> Place
    requires { place.nesting < 2 ^ 16 }
    ensures is { result ≡ grammar.within_loop place }
    ensures nesting { result.nesting ≡ place.nesting + 1 }
{
    Place {
        nesting: place.nesting + 1,
        in_loop: true,
    }
}

/// The place in the block of a function.
pub fn within_function(place: Place) -> Place
    requires { place.nesting < 2 ^ 16 }
    ensures is { result ≡ grammar.within_function place }
    ensures nesting { result.nesting ≡ place.nesting + 1 }
{
    Place {
        nesting: place.nesting + 1,
        in_loop: false,
    }
}
