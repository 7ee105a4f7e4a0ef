ghost use Rattle.std.specs.Prelude.{◌≡◌, ◌<◌, length, IfSome};
ghost use Rattle.kconf_tree.specs.Shape as spec;
ghost use Rattle.kconf_entries.specs.Written.{comparison_text};

use crate::asked_comparison::AskedComparison;
use crate::outer_text::AskedText;
use crate::parts::Parts;
use kconf_entries::{Side, Sign};

impl Parts {
    /// The number of the outer condition with this text, if any.
    pub fn outer_number(&self, text: &str) -> Option<u64>
        ensures number { result ≡ spec.outer_at self.now text.now }
        ensures within { IfSome result (λ n. n < length self.now.outers) }
    {
        match self.outers.get_index_of(AskedText(text)) {
            Some(number) => Some(number as u64),
            None => None,
        }
    }

    /// The number of the outer condition that is this comparison, if any.
    pub fn comparison_number(&self, left: &Side, sign: Sign, right: &Side) -> Option<u64>
        ensures number { result ≡ spec.outer_at self.now (comparison_text left.now sign right.now) }
        ensures within { IfSome result (λ n. n < length self.now.outers) }
    {
        match self
            .outers
            .get_index_of(AskedComparison::of(left, sign, right))
        {
            Some(number) => Some(number as u64),
            None => None,
        }
    }
}
