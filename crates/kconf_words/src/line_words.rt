use ut_logic::Sequence;

/// How a word stands in its line.
#[derive(Clone, Copy, Debug, PartialEq, Eq)]
pub enum Form {
    /// Without quote marks.
    Bare,
    /// Between quote marks.
    Quoted,
    /// A sign of an expression, a parenthesis, or any other byte.
    Sign,
}

/// A word of a logical line, without quote marks and with the values of macros put in.
#[derive(Debug, Drop)]
pub struct LineWord {
    pub form: Form,
    /// The bytes as they stand in the file; a text is made where they are used as one.
    pub text: Sequence<u8>,
    /// Whether a macro call is left in it.
    pub has_call: bool,
}
