ghost use Rattle.std.specs.Prelude.{◌≡◌, ◌≤◌, length, IfOk};
ghost use Rattle.kconf_tree.specs.Gathered.{gathered};
ghost use Rattle.kconf_tree.specs.Limits.{max_symbols};
ghost use Rattle.kconf_tree.specs.Types.{types_of};
ghost use Rattle.kconf_tree.specs.Built.{HaveChoices};

use crate::choices::{choices_with, typed_kinds};
use crate::gather::symbols;
use crate::modules_symbol::modules_among;
use crate::outers::outers;
use crate::parts::Parts;
use crate::types::Types;
use kconf_entries::Entries;
use std::alloc::{AllocError, Global};

impl Parts {
    /// The symbols, choices and outer conditions of the entries. The only error is out of memory.
    pub(crate) fn gathered(
        alloc: Global,
        types: Types,
        entries: Entries,
    ) -> Result<Parts, AllocError>
        requires types { types ≡ types_of entries.configs }
        requires few { length types ≤ max_symbols }
        requires choices { HaveChoices entries }
        ensures { IfOk result (λ t. t ≡ gathered entries) }
    {
        let Entries { configs, choices } = entries;
        let outers = outers(alloc, &types, configs.as_slice(), choices.as_slice())?;
        let kinds = typed_kinds(alloc, &types, configs.as_slice(), choices.as_slice())?;
        let symbols = symbols(alloc, &types, configs.into_vec())?;
        let choices = choices_with(alloc, &kinds, choices.into_vec(), &symbols)?;
        let modules = modules_among(&types, &symbols);
        Ok(Parts {
            types,
            symbols,
            choices,
            outers,
            modules,
        })
    }
}
