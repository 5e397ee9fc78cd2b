//! Which operators bind tighter than others.

ghost use Rattle.std.specs.Prelude.{◌≡◌, ◌≢◌};
ghost use Rattle.ntx_parse.specs.Grammar as grammar;
ghost use Rattle.ntx_parse.specs.declared.precedence.Precedence.TheVariants as variant;

/// The precedence of operators (Lua 5.3 Reference Manual, section 3.4.8), from the one that binds least.
#[derive(Clone, Copy, Debug, PartialEq, Eq)]
pub enum Precedence {
    /// `or`
    Or,
    /// `and`
    And,
    /// `<`, `>`, `<=`, `>=`, `~=` and `==`
    Comparison,
    /// `|`
    BitOr,
    /// `~` between operands
    BitXor,
    /// `&`
    BitAnd,
    /// `<<` and `>>`
    Shift,
    /// `..`
    Concat,
    /// `+` and `-` between operands
    Additive,
    /// `*`, `//` and `%`
    Multiplicative,
    /// `not`, `#`, and `-` and `~` before an operand
    Unary,
}

/// The next tighter precedence.
pub fn tighter(precedence: Precedence) -> Precedence
    ensures { result ≡ grammar.tighter precedence }
{
    match precedence {
        Precedence::Or => Precedence::And,
        Precedence::And => Precedence::Comparison,
        Precedence::Comparison => Precedence::BitOr,
        Precedence::BitOr => Precedence::BitXor,
        Precedence::BitXor => Precedence::BitAnd,
        Precedence::BitAnd => Precedence::Shift,
        Precedence::Shift => Precedence::Concat,
        Precedence::Concat => Precedence::Additive,
        Precedence::Additive => Precedence::Multiplicative,
        Precedence::Multiplicative | Precedence::Unary => Precedence::Unary,
    }
}

/// The next looser precedence.
pub fn looser(precedence: Precedence) -> Precedence
    requires { precedence ≢ variant.Or }
    ensures tighter { grammar.tighter result ≡ precedence }
    ensures binary { result ≢ variant.Unary }
{
    match precedence {
        Precedence::Or => unreachable!(),
        Precedence::And => Precedence::Or,
        Precedence::Comparison => Precedence::And,
        Precedence::BitOr => Precedence::Comparison,
        Precedence::BitXor => Precedence::BitOr,
        Precedence::BitAnd => Precedence::BitXor,
        Precedence::Shift => Precedence::BitAnd,
        Precedence::Concat => Precedence::Shift,
        Precedence::Additive => Precedence::Concat,
        Precedence::Multiplicative => Precedence::Additive,
        Precedence::Unary => Precedence::Multiplicative,
    }
}
