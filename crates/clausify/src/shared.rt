//! The types of this crate may be shared between threads.

use crate::fact_form::FactForm;

fn is_shared<T: Send + Sync>() {}

/// It is proved only where each of these types is `Send` and `Sync`.
pub fn are_shared() {
    is_shared::<FactForm>();
}
