ghost use Rattle.std.specs.Prelude.{◌≡◌, ◌≢◌, ℕ, ◌<◌, ◌^◌, ◌↔◌, true, decimal, length, slice_index, IfNone, IfSome, IsTrue};
ghost use Rattle.std.specs.List.{list_all};
ghost use Rattle.std.specs.Option.{SomeIff};
ghost use Rattle.ut_text.specs.ByteClasses.{is_digit};
ghost use Rattle.ut_text.specs.Decimals.{IsNumberThen, value_after};

use crate::runs::digits_len;

/// The number that digits stand for, where it is below 2 ^ 64.
fn value_of(digits: &[u8]) -> Option<u64>
    requires { list_all is_digit digits.now ≡ true }
    ensures { SomeIff result (value_after 0 digits.now < 2 ^ 64) (value_after 0 digits.now) }
{
    let mut value: u64 = 0;
    for digit in digits {
        value = value
            .checked_mul(10)?
            .checked_add(u64::from(*digit - b'0'))?;
    }
    Some(value)
}

fn has_leading_zero(digits: &[u8]) -> bool
    ensures { IsTrue result ↔ (1 < length digits.now) × (slice_index digits.now 0 ≡ 48) }
{
    digits.len() > 1 && digits[0] == b'0'
}

/// The number that is written by just these digits; None where a number below 2 ^ 64 is written otherwise.
pub fn numeral(digits: &[u8]) -> Option<u64>
    requires { list_all is_digit digits.now ≡ true }
    ensures found { IfSome result (λ n. (n < 2 ^ 64) × (digits.now ≡ decimal n)) }
    ensures none { IfNone result ((n : ℕ) → n < 2 ^ 64 → digits.now ≢ decimal n) }
{
    if digits.is_empty() {
        return None;
    }
    if has_leading_zero(digits) {
        return None;
    }
    value_of(digits)
}

/// The decimal number at the front, up to the first byte that is no digit, and what stands after it; None where
/// no number below 2 ^ 64 stands there, and for a number with a leading zero. This project's rule.
pub fn split_number(text: &[u8]) -> Option<(u64, &[u8])>
    ensures found { IfSome result (λ found. IsNumberThen text.now found.0 found.1.now) }
    ensures none { IfNone result ((n rest : _) → ¬ IsNumberThen text.now n rest) }
{
    let (digits, rest) = text.split_at(digits_len(text));
    let number = numeral(digits)?;
    Some((number, rest))
}
