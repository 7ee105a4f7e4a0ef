//! Each type of this crate may be shared between threads, and handed from one to another.

use crate::question::{Ask, BlockId, Class, Family, Question};
use crate::verdict::Verdict;
use crate::whole::{Values, Whole};
use crate::wish::Wish;
use crate::word::Word;

fn is_shared<T: Send + Sync>() {}

/// It is proved only where each of these types is `Send` and `Sync`.
pub fn are_shared() {
    is_shared::<Family>();
    is_shared::<Ask>();
    is_shared::<BlockId>();
    is_shared::<Question>();
    is_shared::<Wish>();
    is_shared::<Class>();
    is_shared::<Word>();
    is_shared::<Values>();
    is_shared::<Whole>();
    is_shared::<Verdict>();
}
