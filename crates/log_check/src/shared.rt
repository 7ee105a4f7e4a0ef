//! Derivations and what `check` says of them may be shared between threads, and handed from one to another.

use crate::checking::Checked;
use crate::derivations::{Chain, Derivation, DerivationLine, PivotOf};
use crate::known::KnownClauses;
use crate::texts::TextLineBad;

fn is_shared<T: Send + Sync>() {}

/// It is proved only where each of these types is `Send` and `Sync`.
pub fn are_shared() {
    is_shared::<PivotOf>();
    is_shared::<Chain>();
    is_shared::<DerivationLine>();
    is_shared::<Derivation>();
    is_shared::<Checked>();
    is_shared::<TextLineBad>();
    is_shared::<KnownClauses<'static>>();
}
