ghost use Rattle.std.specs.Prelude.{◌≡◌, option_map, IfOk};
ghost use Rattle.undertaker.specs.On.{config_name, module_name};
ghost use Rattle.undertaker.specs.Meanings.{meaning_under, config_meaning_under, is_module_under};

use crate::dependencies::Dependencies;
use crate::wishes::Meaning;
use std::alloc::{AllocError, Global};
use ut_logic::Text;

/// The N of a macro `CONFIG_N`.
fn config_name(name: &str) -> Option<&str>
    ensures { option_map (λ n. n.now) result ≡ config_name name.now }
{
    name.strip_prefix("CONFIG_")
}

/// The P of a name `P_MODULE`.
fn module_name(name: &str) -> Option<&str>
    ensures { option_map (λ n. n.now) result ≡ module_name name.now }
{
    name.strip_suffix("_MODULE")
}

/// Whether this is the macro of a declared symbol as a module.
fn is_module(alloc: Global, graph: &Dependencies, name: &str) -> Result<bool, AllocError>
    ensures { IfOk result (λ b. b ≡ is_module_under graph.now.names name.now) }
{
    match module_name(name) {
        None => Ok(false),
        Some(module) => {
            let module = Text::new(alloc, module)?;
            Ok(graph.number(&module).is_some())
        }
    }
}

/// What the macro of a symbol of this name means.
fn config_meaning(alloc: Global, graph: &Dependencies, name: &str) -> Result<Meaning, AllocError>
    ensures { IfOk result (λ m. m ≡ config_meaning_under graph.now.names name.now) }
{
    let symbol = Text::new(alloc, name)?;
    match graph.number(&symbol) {
        Some(number) => Ok(Meaning::Symbol(number)),
        None if is_module(alloc, graph, name)? => Ok(Meaning::Module),
        None => Ok(Meaning::Undeclared),
    }
}

/// What the name of a macro means where these symbols are declared.
pub fn meaning_of(alloc: Global, graph: &Dependencies, name: &str) -> Result<Meaning, AllocError>
    ensures { IfOk result (λ m. m ≡ meaning_under graph.now.names name.now) }
{
    match config_name(name) {
        None => Ok(Meaning::Free),
        Some(symbol) => config_meaning(alloc, graph, symbol),
    }
}
