/// What a conditional directive can see of a macro.
///
/// Values past these three states are not followed: this project's rule.
#[derive(Clone, Copy, Debug, PartialEq, Eq)]
pub enum MacroState {
    Undefined,
    DefinedFalse,
    DefinedTrue,
}
