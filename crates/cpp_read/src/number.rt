ghost use Rattle.std.specs.Prelude.{◌≡◌, ℕ, ◌≤◌, ◌<◌, ◌+◌, ◌*◌, drop, length, true};
ghost use Rattle.std.specs.List.{list_all, prefix_len};
ghost use Rattle.cpp_read.specs.Numbers as spec;
ghost use Rattle.cpp_read.specs.NumberSteps.{capped, base_of, is_one_of};

/// Whether a text is a whole number, and what it comes to.
#[derive(Clone, Copy, Debug, PartialEq, Eq)]
pub enum Whole {
    NotWhole,
    Zero,
    Nonzero,
    /// Not 0, and more than 128 bits are needed for it.
    Wide,
}

/// What digits a number has.
#[derive(Clone, Copy)]
pub enum Base {
    Octal,
    Decimal,
    Hexadecimal,
}

/// A digit of the base.
fn is_digit(base: Base, byte: u8) -> bool
    ensures { result ≡ is_one_of base byte }
{
    match base {
        Base::Octal => b'0' <= byte && byte <= b'7',
        Base::Decimal => byte.is_ascii_digit(),
        Base::Hexadecimal => byte.is_ascii_hexdigit(),
    }
}

/// The base as a number.
fn value_of(base: Base) -> u128
    ensures { result ≡ base_of base }
{
    match base {
        Base::Octal => 8,
        Base::Decimal => 10,
        Base::Hexadecimal => 16,
    }
}

/// The value of a digit of any base.
fn digit_value(byte: u8) -> u8
    ensures { result ≡ spec.digit_value byte }
{
    if byte.is_ascii_digit() {
        byte - b'0'
    } else if byte >= b'a' {
        byte.saturating_sub(87)
    } else {
        byte.saturating_sub(55)
    }
}

/// `u`, `U`, `l` or `L`.
fn is_ending(byte: u8) -> bool
    ensures { result ≡ spec.is_ending byte }
{
    byte == b'u' || byte == b'U' || byte == b'l' || byte == b'L'
}

/// Whether each byte may stand in an ending.
fn are_endings(text: &[u8]) -> bool
    ensures { result ≡ list_all spec.is_ending text.now }
{
    text.iter().all(|b| is_ending(*b))
}

/// How many digits of the base stand at the front.
fn digits_len(base: Base, text: &[u8]) -> usize
    ensures value { result ≡ prefix_len (is_one_of base) text.now }
    ensures within { result ≤ length text.now }
{
    let mut count = 0;
    for byte in text {
        if !is_digit(base, *byte) {
            return count;
        }
        count += 1;
    }
    count
}

/// The value with one more digit.
fn appended(value: u128, base: u128, digit: u8) -> Option<u128>
    ensures { result ≡ capped (value * base + digit) }
{
    let more = value.checked_mul(base)?;
    more.checked_add(u128::from(digit))
}

/// The value of these digits, if it needs at most 128 bits.
fn digits_value(base: Base, text: &[u8]) -> Option<u128>
    ensures { result ≡ capped (spec.digits (base_of base) 0 text.now) }
{
    let mut value = 0;
    for byte in text {
        value = appended(value, value_of(base), digit_value(*byte))?;
    }
    Some(value)
}

/// Whether a value is 0; no value is one that needs more than 128 bits.
fn sized(value: Option<u128>) -> Whole
    ensures { (n : ℕ) → value ≡ capped n → result ≡ spec.whole_of (Some n) }
{
    match value {
        Some(value) => if value == 0 {
            Whole::Zero
        } else {
            Whole::Nonzero
        },
        None => Whole::Wide,
    }
}

/// What digits of a base with an ending are.
fn whole_to(base: Base, text: &[u8]) -> Whole
    ensures { result ≡ spec.whole_of (spec.value_to (base_of base) (is_one_of base) text.now) }
{
    let count = digits_len(base, text);
    let (front, ending) = text.split_at(count);
    if count == 0 || !are_endings(ending) {
        return Whole::NotWhole;
    }
    sized(digits_value(base, front))
}

/// Whether a text begins with `0x` or `0X`.
fn begins_hex(text: &[u8]) -> bool
    ensures { result ≡ spec.begins_hex text.now }
{
    match text {
        [b'0', mark, ..] => *mark == b'x' || *mark == b'X',
        _ => false,
    }
}

/// Whether a text begins with `0`.
fn begins_zero(text: &[u8]) -> bool
    ensures { result ≡ spec.begins_zero text.now }
{
    match text {
        [first, ..] => *first == b'0',
        [] => false,
    }
}

/// Whether a text is a whole number, and what it comes to.
pub fn read_whole(text: &[u8]) -> Whole
    ensures { result ≡ spec.whole text.now }
{
    if begins_hex(text) {
        whole_to(Base::Hexadecimal, after_two(text))
    } else if begins_zero(text) {
        whole_to(Base::Octal, text)
    } else {
        whole_to(Base::Decimal, text)
    }
}

/// The text after its first two bytes.
fn after_two(text: &[u8]) -> &[u8]
    requires { spec.begins_hex text.now ≡ true }
    ensures { result.now ≡ drop 2 text.now }
{
    match text {
        [_, _, rest @ ..] => rest,
        _ => text,
    }
}
