//! Each type of this crate may be shared between threads, and handed from one to another.

use crate::path::{FileCond, Path, Paths};
use crate::step::Step;

fn is_shared<T: Send + Sync>() {}

/// It is proved only where each of these types is `Send` and `Sync`.
pub fn are_shared() {
    is_shared::<Step>();
    is_shared::<Path>();
    is_shared::<Paths>();
    is_shared::<FileCond>();
}
