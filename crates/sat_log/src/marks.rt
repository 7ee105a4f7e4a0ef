use ut_logic::Lit;

/// A set literal, and whether it was decided; else it was forced by a known clause.
#[derive(Clone, Copy, Debug, PartialEq, Eq)]
pub struct Mark {
    pub lit: Lit,
    pub decided: bool,
}

/// What stands behind the set literals, where there is room.
pub const NO_MARK: Mark = Mark {
    lit: Lit {
        var: 0,
        positive: false,
    },
    decided: false,
};
