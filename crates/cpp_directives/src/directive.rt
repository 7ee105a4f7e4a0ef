use crate::condition::Cond;
use ut_text::Text;

/// What the body of a `#define` gives its macro as a truth.
#[derive(Clone, Copy, Debug, PartialEq, Eq)]
pub enum Gives {
    /// The body is one whole number 0: false.
    Zero,
    /// The body is one other whole number: true.
    Nonzero,
    /// Any other body, or a macro with parameters: the truth is free.
    Free,
}

/// What a directive says.
#[derive(Drop)]
pub enum What {
    If(Cond),
    Elif(Cond),
    Else,
    Endif,
    Define { name: Text, gives: Gives },
    Undef { name: Text },
}

/// A directive, and the physical line of its `#`, counted from 1.
#[derive(Drop)]
pub struct Directive {
    pub line: u32,
    pub what: What,
}
