ghost use Rattle.std.specs.Prelude.{◌≡◌};
ghost use Rattle.kconf_constr.specs.Levels as spec;

/// Which of the two formulas of an expression: that its value isn't n, or that it is y.
#[derive(Clone, Copy, Debug)]
pub enum Level {
    /// The value isn't n.
    NotN,
    /// The value is y.
    IsY,
}

impl Level {
    /// The other level: a negation swaps them.
    pub fn other(self) -> Level
        ensures { result ≡ spec.other_level self }
    {
        match self {
            Level::NotN => Level::IsY,
            Level::IsY => Level::NotN,
        }
    }
}
