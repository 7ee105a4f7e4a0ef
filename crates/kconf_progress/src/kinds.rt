ghost use Rattle.std.specs.Prelude.{◌≡◌};
ghost use Rattle.kconf_statements.specs.EntryLines as lines;
ghost use Rattle.kconf_statements.specs.Entries as spec;
ghost use Rattle.kconf_progress.specs.Known as inner;

use kconf_entries::Kind;

/// What is known of a symbol: the type of its first type line, and the first choice that it stands in.
#[derive(Clone, Copy, Debug)]
pub struct Known {
    pub kind: Kind,
    pub choice: Option<u32>,
}

/// The first type counts.
pub fn first_type(before: Kind, kind: Kind) -> Kind
    ensures { result ≡ lines.first_type before kind }
{
    match before {
        Kind::Untyped => kind,
        Kind::Bool => Kind::Bool,
        Kind::Tristate => Kind::Tristate,
        Kind::Str => Kind::Str,
        Kind::Hex => Kind::Hex,
        Kind::Int => Kind::Int,
    }
}

/// Whether a member of a choice may have this type.
pub fn may_be_member(kind: Kind) -> bool
    ensures { result ≡ spec.may_be_member kind }
{
    match kind {
        Kind::Bool => true,
        Kind::Tristate => true,
        Kind::Str => false,
        Kind::Hex => false,
        Kind::Int => false,
        Kind::Untyped => true,
    }
}

/// Whether a type line may give this type to its choice.
pub fn is_logical(kind: Kind) -> bool
    ensures { result ≡ spec.is_logical kind }
{
    match kind {
        Kind::Bool => true,
        Kind::Tristate => true,
        Kind::Str => false,
        Kind::Hex => false,
        Kind::Int => false,
        Kind::Untyped => false,
    }
}

/// Whether a symbol stands in another choice already.
pub fn is_elsewhere(number: u32, choice: Option<u32>) -> bool
    ensures { result ≡ inner.is_elsewhere number choice }
{
    match choice {
        Some(before) => before != number,
        None => false,
    }
}

/// The choice that a symbol stands in: the first one counts.
pub fn first_choice(before: Option<u32>, choice: Option<u32>) -> Option<u32>
    ensures { result ≡ inner.first_choice before choice }
{
    match before {
        Some(number) => Some(number),
        None => choice,
    }
}
