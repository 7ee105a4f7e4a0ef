//! Each type of this crate may be shared between threads, and handed from one to another.

use crate::{
    Content, FailAt, FileRead, Limit, MemFile, MemFiles, MemSink, Meter, Name, PutEnd, TakeBad,
    Word,
};

fn is_shared<T: Send + Sync>() {}

/// It is proved only where each of these types is `Send` and `Sync`.
pub fn are_shared() {
    is_shared::<Word>();
    is_shared::<Name>();
    is_shared::<Limit>();
    is_shared::<FileRead>();
    is_shared::<PutEnd>();
    is_shared::<TakeBad>();
    is_shared::<Meter>();
    is_shared::<Content>();
    is_shared::<MemFile>();
    is_shared::<MemFiles>();
    is_shared::<FailAt>();
    is_shared::<MemSink>();
}
