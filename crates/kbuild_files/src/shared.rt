//! The type of this crate may be shared between threads, and handed from one to another.

use crate::conds::FileConds;

fn is_shared<T: Send + Sync>() {}

/// It is proved only where it is `Send` and `Sync`.
pub fn are_shared() {
    is_shared::<FileConds>();
}
