ghost use Rattle.std.specs.Prelude.{◌≡◌, ◌++◌, OnOk, decimal};

use itoa::Buffer;
use std::alloc::AllocError;

/// Appends what stands before a number, and the number.
pub fn push_count(text: &mut Vec<u8>, what: &str, count: u64) -> Result<(), AllocError>
    ensures { OnOk result (text.new.items ≡ text.old.items ++ (what.now ++ decimal count)) }
{
    let mut digits = Buffer::new();
    text.extend_from_slice(what.as_bytes())?;
    text.extend_from_slice(digits.format(count).as_bytes())
}
