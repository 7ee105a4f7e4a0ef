//! Each type of this crate may be shared between threads, and handed from one to another.

use crate::bad::CppBad;
use crate::condition::Cond;
use crate::directive::{Directive, Gives, What};

fn is_shared<T: Send + Sync>() {}

/// It is proved only where each of these types is `Send` and `Sync`.
pub fn are_shared() {
    is_shared::<Cond>();
    is_shared::<Gives>();
    is_shared::<What>();
    is_shared::<Directive>();
    is_shared::<CppBad>();
}
