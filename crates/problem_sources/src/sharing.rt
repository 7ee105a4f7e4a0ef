//! The types of this crate that are proved to be fit for sharing between threads.

use crate::ground::NamedRules;
use crate::source::Source;

fn is_shared<T: Send + Sync>() {}

/// It is proved only where each of these types is `Send` and `Sync`.
pub fn are_shared() {
    is_shared::<NamedRules>();
    is_shared::<Source>();
}
