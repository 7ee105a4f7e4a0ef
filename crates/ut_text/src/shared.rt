//! A text may be shared between threads, and handed from one to another.

use crate::text::Text;

fn is_shared<T: Send + Sync>() {}

/// It is proved only where a `Text` is `Send` and `Sync`.
pub fn are_shared() {
    is_shared::<Text>();
}
