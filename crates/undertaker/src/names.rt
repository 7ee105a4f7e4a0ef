ghost use Rattle.std.specs.Prelude.{◌≡◌, [], ◌++◌, IfSome, IfOk, OnErr, OnOk, Some, ◌<◌, length, slice_get};
ghost use Rattle.undertaker.specs.Names.{number_among, with_name};

use indexmap::IndexSet;
use std::alloc::{AllocError, Global};
use std::marker::Model;
use ut_logic::Text;

/// Names, numbered from 0 by first appearance.
#[derive(Drop)]
pub struct Names {
    set: IndexSet<Text>,
}

impl Model for Names {
    ghost use Rattle.std.specs.Prelude.{List, ℕ};

    ghost Value = { List (List ℕ) };

    ghost view = { λ n. n.set.keys };
}

impl Names {
    /// No names.
    pub fn new(alloc: Global) -> Names
        ensures { result ≡ [] }
    {
        Names {
            set: IndexSet::new(alloc),
        }
    }

    /// The number of a name, if it has one.
    pub fn number(&self, name: &Text) -> Option<usize>
        ensures number { result ≡ number_among self.now name.now }
    {
        self.set.get_index_of(name)
    }

    /// The number of a name, which is put after the others if it is new.
    pub fn add(&mut self, name: Text) -> Result<usize, AllocError>
        ensures number { IfOk result (λ k. slice_get self.new k ≡ Some name) }
        ensures within { IfOk result (λ k. k < length self.new) }
        ensures names { OnOk result (self.new ≡ with_name self.old name) }
        ensures err { OnErr result (self.new ≡ self.old) }
    {
        match self.set.insert_full(name) {
            Ok((k, _)) => Ok(k),
            Err(_) => Err(AllocError),
        }
    }
}
