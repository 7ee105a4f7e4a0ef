ghost use Rattle.std.specs.Prelude.{◌↔◌, ◌<◌, IsTrue};
ghost use Rattle.std.specs.Option.{IfSome};
ghost use Rattle.kconf_tree.specs.Built.{HaveChoices};

use kconf_entries::{ConfigEntry, Entries};

/// Whether the choice of a config, if it has one, is below the number of choices.
fn has_choice(config: &ConfigEntry, count: usize) -> bool
    ensures { IsTrue result ↔ IfSome config.now.choice (λ i. i < count) }
{
    match config.choice {
        None => true,
        Some(choice) => (choice as usize) < count,
    }
}

/// Whether each choice that a config names exists, and the numbers of choices fit a u32. `Tree::build` asks for
/// this.
pub fn have_choices(entries: &Entries) -> bool
    ensures { IsTrue result ↔ HaveChoices entries.now }
{
    let count = entries.choices.len();
    if count > u32::MAX as usize {
        return false;
    }
    for config in entries.configs.as_slice() {
        if !has_choice(config, count) {
            return false;
        }
    }
    true
}
