ghost use Rattle.std.specs.Prelude.{◌≡◌, ◌<◌, ◌+◌, IfSome, drop, length};
ghost use Rattle.std.specs.Option.{option_map};
ghost use Rattle.kconf_cut.specs.Words as spec;
ghost use Rattle.kconf_cut.specs.Reading as inner;

/// Whether a macro call begins at the front.
pub fn begins_call(text: &[u8]) -> bool
    ensures { result ≡ spec.begins_call text.now }
{
    text.starts_with(b"$(".as_slice())
}

/// The number of parentheses that are open after a byte.
fn depth_after(depth: usize, byte: u8) -> usize
    requires { depth < 18446744073709551615 }
    ensures { result ≡ spec.depth_after depth byte }
{
    match byte {
        b'(' => depth + 1,
        b')' => depth.saturating_sub(1),
        _ => depth,
    }
}

/// How many bytes stand before the `)` that closes a call.
fn closed_len(text: &[u8]) -> Option<usize>
    ensures value { result ≡ inner.closed_len 0 text.now }
    ensures within { IfSome result (λ n. n < length text.now) }
{
    let mut depth = 0;
    let mut count = 0;
    for byte in text {
        if *byte == b')' && depth == 0 {
            return Some(count);
        }
        depth = depth_after(depth, *byte);
        count += 1;
    }
    None
}

/// The text after its first byte.
fn after_first(text: &[u8]) -> &[u8]
    requires { 0 < length text.now }
    ensures { result.now ≡ drop 1 text.now }
{
    &text[1..]
}

/// What stands before the `)` that closes a call, and what stands after it.
#[tactic(auto, using(crate::proofs::CallLemmas::closed_at, crate::proofs::CallLemmas::not_closed))]
pub fn split_closed(text: &[u8]) -> Option<(&[u8], &[u8])>
    ensures { option_map inner.both_now result ≡ spec.closed 0 text.now }
{
    let count = closed_len(text)?;
    let (name, rest) = text.split_at(count);
    Some((name, after_first(rest)))
}

/// The text after its first two bytes.
#[tactic(auto, using(crate::proofs::CallLemmas::short_drop))]
pub fn after_two(text: &[u8]) -> &[u8]
    ensures { result.now ≡ drop 2 text.now }
{
    match text {
        [_, _, rest @ ..] => rest,
        _ => b"".as_slice(),
    }
}
