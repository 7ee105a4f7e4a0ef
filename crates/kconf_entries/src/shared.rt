//! The types of this crate may be shared between threads.

use crate::entries::{ChoiceEntry, ConfigEntry, DefaultOf, Entries, Kind, SelectOf, Var};
use crate::expr::{Expr, Side, Sign};

fn is_shared<T: Send + Sync>() {}

/// It is proved only where each of these types is `Send` and `Sync`.
pub fn are_shared() {
    is_shared::<Var>();
    is_shared::<Kind>();
    is_shared::<Side>();
    is_shared::<Sign>();
    is_shared::<Expr>();
    is_shared::<DefaultOf>();
    is_shared::<SelectOf>();
    is_shared::<ConfigEntry>();
    is_shared::<ChoiceEntry>();
    is_shared::<Entries>();
}
