use sqlite_items::{Boxed, Items};
use ut_text::Text;

/// A condition of `#if` or `#elif`.
#[derive(Drop)]
pub enum Cond {
    /// A whole number: whether it is not 0.
    Const(bool),
    /// `defined X`: the macro is defined.
    Defined(Text),
    /// A name: the macro is defined and true.
    Plain(Text),
    /// An opaque piece, whose truth is free. The text is its tokens joined by one space.
    Piece(Text),
    /// `!`.
    Neg(Boxed<Cond>),
    /// `&&`.
    AllOf(Items<Cond>),
    /// `||`.
    AnyOf(Items<Cond>),
}
