//! The types of this crate may be shared between threads.

use crate::indexed::IndexedFacts;
use crate::nodes::Slice;
use crate::room::SymbolRoom;

fn is_shared<T: Send + Sync>() {}

/// It is proved only where each of these types is `Send` and `Sync`.
pub fn are_shared() {
    is_shared::<IndexedFacts<'static>>();
    is_shared::<Slice>();
    is_shared::<SymbolRoom>();
}
