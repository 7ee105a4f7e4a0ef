ghost use Rattle.std.specs.Prelude.{◌≡◌, option_to_list};
ghost use Rattle.undertaker.specs.Wishes as spec;
ghost use Rattle.undertaker.specs.Marks.{is_marked};

/// What the state of a macro at the start rests on, in a tree of bool symbols.
#[derive(Clone, Copy, Debug, PartialEq, Eq)]
pub enum Meaning {
    /// No `CONFIG_` name: it may start in any state.
    Free,
    /// `CONFIG_N` with N declared, by its number: defined exactly where N is y.
    Symbol(usize),
    /// `CONFIG_P_MODULE` with P alone declared: never defined, since P is bool.
    Module,
    /// Another `CONFIG_` name: undeclared.
    Undeclared,
}

/// That a macro of a source is defined, or that it isn't.
#[derive(Clone, Copy, Debug, PartialEq, Eq)]
pub struct Wish {
    /// The number of the macro in the source, by first appearance.
    pub name: usize,
    pub meaning: Meaning,
    pub defined: bool,
}

impl Wish {
    /// The contrary wish.
    pub fn turned(self) -> Wish
        ensures { result ≡ spec.turned self }
    {
        Wish {
            defined: !self.defined,
            ..self
        }
    }

    /// Whether the two ask the contrary of one macro.
    pub fn clashes_with(self, other: Wish) -> bool
        ensures { result ≡ spec.clash self other }
    {
        other.name == self.name && self.defined != other.defined
    }

    /// Whether it wants a macro that is never defined.
    pub fn wants_module(self) -> bool
        ensures { result ≡ spec.wants_module self }
    {
        self.defined && matches!(self.meaning, Meaning::Module)
    }

    /// Whether it wants a macro that is undeclared.
    pub fn wants_undeclared(self) -> bool
        ensures { result ≡ spec.wants_undeclared self }
    {
        self.defined && matches!(self.meaning, Meaning::Undeclared)
    }

    /// The symbol that it wants.
    pub fn wanted(self) -> Option<usize>
        ensures { option_to_list result ≡ spec.wanted_symbol self }
    {
        match self.meaning {
            Meaning::Symbol(symbol) if self.defined => Some(symbol),
            _ => None,
        }
    }

    /// Whether it asks that a marked symbol isn't there.
    pub fn is_hit(self, marks: &[bool]) -> bool
        ensures { result ≡ spec.is_hit (is_marked marks.now) self }
    {
        match self.meaning {
            Meaning::Symbol(symbol) => !self.defined && marks.get(symbol) == Some(&true),
            _ => false,
        }
    }
}
