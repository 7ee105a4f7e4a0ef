ghost use Rattle.std.specs.Prelude.{◌≡◌, ◌<◌, ◌++◌, IfOk, OnOk, length};
ghost use Rattle.ut_logic.specs.Trit.{rank};
ghost use Rattle.complete_conf.specs.Config.{by_lists, configuration_of, FitsTree};
ghost use Rattle.complete_conf.specs.Text as spec;

use crate::config::Config;
use kconf_tree::{Counts, Tree};
use std::alloc::{AllocError, Global};
use ut_logic::Trit;

/// Writes a name between two words.
fn push_line(text: &mut Vec<u8>, front: &[u8], name: &str, end: &[u8]) -> Result<(), AllocError>
    ensures { OnOk result (text.new.items ≡ text.old.items ++ (front.now ++ name.now ++ end.now)) }
{
    text.extend_from_slice(front)?;
    text.extend_from_slice(name.as_bytes())?;
    text.extend_from_slice(end)
}

/// Writes the line of a symbol that counts as bool or tristate.
fn push_value(text: &mut Vec<u8>, name: &str, value: Trit) -> Result<(), AllocError>
    ensures { OnOk result (text.new.items ≡ text.old.items ++ spec.line_of name.now (rank value)) }
{
    match value {
        Trit::N => push_line(text, b"# CONFIG_", name, b" is not set\n"),
        Trit::M => push_line(text, b"CONFIG_", name, b"=m\n"),
        Trit::Y => push_line(text, b"CONFIG_", name, b"=y\n"),
    }
}

/// Writes the line of a symbol that counts as bool or tristate, and nothing for any other.
fn push_symbol(text: &mut Vec<u8>, tree: &Tree, config: &Config, sym: u32) -> Result<(), AllocError>
    requires sym { sym < length tree.now.shape.symbols }
    ensures { OnOk result (text.new.items ≡ text.old.items ++ spec.symbol_line tree.now.shape (by_lists config.now) sym) }
{
    match tree.counts_as(sym) {
        Counts::Neither => Ok(()),
        Counts::Bool | Counts::Tristate => push_value(text, tree.name(sym), config.value(sym)),
    }
}

/// The text of a configuration: a line for each symbol that counts as bool or tristate, in order. The
/// only error is out of memory.
pub fn config_text(alloc: Global, tree: &Tree, config: &Config) -> Result<Vec<u8>, AllocError>
    requires fits { FitsTree tree.now.shape config.now }
    ensures { IfOk result (λ text. text.items ≡ spec.text_of tree.now.shape (configuration_of tree.now.shape config.now)) }
{
    let mut text = Vec::new(alloc);
    for sym in 0..tree.symbols() {
        push_symbol(&mut text, tree, config, sym)?;
    }
    Ok(text)
}
