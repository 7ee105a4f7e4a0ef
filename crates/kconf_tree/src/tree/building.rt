ghost use Rattle.std.specs.Prelude.{◌≡◌, IfOk, IfErr};
ghost use Rattle.kconf_tree.specs.Built.{HaveChoices, IsTreeOf, IsRefused};

use crate::bad::TreeBad;
use crate::limits::{Passed, past_symbols};
use crate::parts::Parts;
use crate::tree::Tree;
use crate::types::Types;
use kconf_entries::Entries;
use std::alloc::Global;

/// The refusal of a count that passes its limit.
fn too_many(passed: Passed) -> TreeBad
    ensures { result ≡ TreeBad.TooMany passed.what passed.count }
{
    TreeBad::TooMany {
        what: passed.what,
        count: passed.count,
    }
}

impl Tree {
    /// Numbers symbols and choices from 0 in order of first declaration, gathers their properties, and
    /// finds an order in which each stands after all that it refers to.
    ///
    /// The choice of each config is below the number of choices, which a u32 holds.
    pub fn build(alloc: Global, entries: Entries) -> Result<Tree, TreeBad>
        requires { HaveChoices entries }
        ensures built { IfOk result (IsTreeOf entries) }
        ensures refused { IfErr result (IsRefused entries) }
    {
        let types = Types::of(alloc, entries.configs.as_slice())?;
        match past_symbols(types.len()) {
            Some(passed) => return Err(too_many(passed)),
            None => {}
        }
        let parts = Parts::gathered(alloc, types, entries)?;
        match parts.passed() {
            Some(passed) => return Err(too_many(passed)),
            None => {}
        }
        let _count = parts.symbols();
        let links = parts.links(alloc)?;
        let order = parts.find_order(alloc, &links)?;
        Ok(Tree {
            parts,
            links,
            order,
        })
    }
}
