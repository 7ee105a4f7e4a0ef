ghost use Rattle.std.specs.Prelude.{◌≡◌, ◌<◌, ◌≤◌, ◌+◌, ◌∷◌, ◌++◌, ℕ, IfOk, OnOk, length, take, drop};
ghost use Rattle.std.specs.List.{prefix_len};
ghost use Rattle.ut_text.specs.Lines.{lines_of};
ghost use Rattle.ut_base.specs.Limits.{file_bytes};
ghost use Rattle.kbuild_text.specs.Lines as spec;

use std::alloc::AllocError;
use ut_text::split_line;

/// Appends a physical line to a logical one; a backslash at its end becomes a blank. The answer is whether it had one.
fn append(physical: &[u8], line: &mut Vec<u8>) -> Result<bool, AllocError>
    ensures goes_on { IfOk result (λ goes_on. goes_on ≡ spec.goes_on physical.now) }
    ensures line { OnOk result (line.new.items ≡ line.old.items ++ spec.part_of physical.now) }
{
    match physical.split_last() {
        None => Ok(false),
        Some((last, front)) => {
            line.extend_from_slice(front)?;
            if *last == b'\\' {
                line.push(b' ')?;
                Ok(true)
            } else {
                line.push(*last)?;
                Ok(false)
            }
        }
    }
}

/// Reads the first logical line after what stands in `line`. The answer is the text after it, and the number of its
/// physical lines.
pub fn read_line<'a>(text: &'a [u8], line: &mut Vec<u8>) -> Result<(&'a [u8], u32), AllocError>
    requires some { 0 < length text.now }
    requires within { length text.now ≤ file_bytes }
    ensures line { IfOk result (λ r. spec.Begins line.old.items text.now line.new.items r.1 r.0.now) }
    ensures shorter { IfOk result (λ r. length r.0.now + r.1 ≤ length text.now) }
    ensures counted { IfOk result (λ r. 0 < r.1) }
{
    let (physical, mut rest) = split_line(text);
    let mut goes_on = append(physical, line)?;
    let mut count = 1;
    while goes_on && !rest.is_empty() {
        let (physical, after) = split_line(rest);
        goes_on = append(physical, line)?;
        rest = after;
        count += 1;
    }
    Ok((rest, count))
}

/// The line up to its comment.
pub fn uncommented(line: &[u8]) -> &[u8]
    ensures value { result.now ≡ spec.uncommented line.now }
    ensures within { length result.now ≤ length line.now }
{
    let mut end = 0;
    for byte in line {
        if *byte == b'#' {
            break;
        }
        end += 1;
    }
    &line[..end]
}
