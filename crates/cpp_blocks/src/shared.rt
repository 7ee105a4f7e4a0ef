//! Each public type of this crate may be shared between threads, and handed from one to another.

use crate::blocks::Blocks;
use crate::pieces::PieceOf;
use crate::running::RunStart;
use crate::starts::{BuiltOf, StartOf};
use crate::state::MacroState;

fn is_shared<T: Send + Sync>() {}

/// It is proved only where each of these types is `Send` and `Sync`.
pub fn are_shared() {
    is_shared::<PieceOf>();
    is_shared::<Blocks>();
    is_shared::<MacroState>();
    is_shared::<StartOf>();
    is_shared::<BuiltOf>();
    is_shared::<RunStart>();
}
