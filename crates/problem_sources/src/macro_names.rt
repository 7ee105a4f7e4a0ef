//! Which symbols a macro stands for.

ghost use Rattle.std.specs.Prelude.{◌≡◌, ◌<◌, IfSome, length, option_map};
ghost use Rattle.ut_case.specs.Names as spec;

use kconf_tree::Tree;

/// The N of a macro `CONFIG_N`.
pub fn config_name(name: &str) -> Option<&str>
    ensures { option_map (λ n. n.now) result ≡ spec.config_name name.now }
{
    name.strip_prefix("CONFIG_")
}

/// The P of a name `P_MODULE`.
fn module_name(name: &str) -> Option<&str>
    ensures { option_map (λ n. n.now) result ≡ spec.module_name name.now }
{
    name.strip_suffix("_MODULE")
}

/// The number of the declared symbol P for a name `P_MODULE`.
pub fn module_of(tree: &Tree, name: &str) -> Option<u32>
    ensures number { result ≡ spec.module_of tree.now.shape name.now }
    ensures within { IfSome result (λ k. k < length tree.now.shape.symbols) }
{
    match module_name(name) {
        Some(module) => tree.symbol(module),
        None => None,
    }
}
