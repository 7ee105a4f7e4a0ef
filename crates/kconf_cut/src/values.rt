ghost use Rattle.std.specs.Prelude.{◌≡◌, IfOk};
ghost use Rattle.std.specs.Option.{option_map};
ghost use Rattle.kconf_cut.specs.Words as spec;

use indexmap::IndexMap;
use kconf_entries::Var;
use std::alloc::{AllocError, Global};
use std::marker::Model;

/// The values that are handed in for names of macros. Of two variables with one name the first counts.
#[derive(Drop)]
pub struct Values<'a> {
    vars: &'a [Var],
    map: IndexMap<&'a [u8], &'a [u8]>,
}

impl<'a> Model for Values<'a> {
    ghost use Rattle.std.specs.Prelude.{List};
    ghost use Rattle.kconf_cut.specs.ValueMap.{HoldsValues};
    ghost use Rattle.kconf_entries.specs.declared.entries.Var.{Var};

    ghost Value = { List Var };

    ghost view = { λ v. v.vars.now };

    ghost invariant = { λ v. HoldsValues v.map.entries v.vars.now };
}

impl<'a> Values<'a> {
    /// The values of these variables.
    pub fn new(alloc: Global, vars: &'a [Var]) -> Result<Values<'a>, AllocError>
        ensures { IfOk result (λ v. v ≡ vars.now) }
    {
        let mut map = IndexMap::new(alloc);
        let mut at = vars.len();
        'vars: while at > 0 {
            at -= 1;
            let var = &vars[at];
            map.insert(var.name.text().as_bytes(), var.value.text().as_bytes())?;
        }
        Ok(Values { vars, map })
    }

    /// The value for a name.
    pub fn get(&self, name: &[u8]) -> Option<&[u8]>
        ensures { option_map (λ t. t.now) result ≡ spec.value_of self.now name.now }
    {
        match self.map.get(name) {
            Some(value) => Some(*value),
            None => None,
        }
    }
}
