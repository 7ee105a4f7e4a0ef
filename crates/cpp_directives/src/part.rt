ghost use Rattle.std.specs.Prelude.{◌≡◌};
ghost use Rattle.cpp_directives.specs.Chains as spec;

use crate::directive::What;

/// What a directive does to chains of conditional directives.
#[derive(Clone, Copy, Debug, PartialEq, Eq)]
pub enum Part {
    /// It opens a chain with its first group.
    If,
    /// It begins the next group of the innermost chain.
    Elif,
    /// It begins the last group of the innermost chain.
    Else,
    /// It ends the innermost chain.
    Endif,
    /// It does nothing to chains.
    Other,
}

/// The part of a directive.
pub fn part_of(what: &What) -> Part
    ensures { result ≡ spec.part_of what.now }
{
    match what {
        What::If(_) => Part::If,
        What::Elif(_) => Part::Elif,
        What::Else => Part::Else,
        What::Endif => Part::Endif,
        What::Define { .. } | What::Undef { .. } => Part::Other,
    }
}
