ghost use Rattle.std.specs.Prelude.{◌≡◌, ◌++◌, ◌∷◌, [], IfOk, map, not, if◌then◌else◌};
ghost use Rattle.ut_words.specs.Values as spec;

use indexmap::IndexSet;
use std::alloc::{AllocError, Global};
use ut_text::Text;

/// Whether no text stands twice. The only error is want of memory.
pub fn are_distinct(alloc: Global, texts: &[&str]) -> Result<bool, AllocError>
    ensures { IfOk result (λ b. b ≡ spec.are_distinct (map (λ t. t.now) texts.now)) }
{
    let mut seen = IndexSet::new(alloc);
    for text in texts {
        if !is_new(alloc, &mut seen, text)? {
            return Ok(false);
        }
    }
    Ok(true)
}

/// Whether a text wasn't seen before; from now on it was. The only error is want of memory.
pub fn is_new(alloc: Global, seen: &mut IndexSet<Text>, text: &str) -> Result<bool, AllocError>
    ensures new { IfOk result (λ new. new ≡ not (spec.is_one_of seen.old.keys text.now)) }
    ensures seen { IfOk result (λ new. seen.new.keys ≡ (if new then seen.old.keys ++ text.now ∷ [] else seen.old.keys)) }
{
    Ok(seen.insert(Text::new(alloc, text)?)?)
}
