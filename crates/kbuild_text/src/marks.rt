ghost use Rattle.std.specs.Prelude.{◌≡◌, ◌<◌, ◌≤◌, ◌+◌, ◌-◌, ◌^◌, ◌++◌, OnOk, length, map};
ghost use Rattle.std.specs.List.{list_any};
ghost use Rattle.std.specs.Option.{option_copied};
ghost use Rattle.kbuild_text.specs.Marks as spec;

use std::alloc::AllocError;

/// The brackets of a macro call.
#[derive(Clone, Copy, Debug)]
pub enum Bracket {
    /// `$(` and `)`.
    Round,
    /// `${` and `}`.
    Curly,
}

/// Where the next byte of a line stands.
#[derive(Clone, Copy, Debug)]
pub enum Place {
    /// Outside of macro calls.
    Outside,
    /// The same, directly after a `$`.
    Dollar,
    /// In a macro call with these brackets, in so many further pairs of them.
    Inside { bracket: Bracket, depth: usize },
}

/// A byte of a line, and whether it stands in a macro call.
#[derive(Clone, Copy, Debug)]
pub struct Mark {
    pub byte: u8,
    pub in_call: bool,
}

impl Bracket {
    fn opening(self) -> u8
        ensures { result ≡ spec.opening self }
    {
        match self {
            Bracket::Round => b'(',
            Bracket::Curly => b'{',
        }
    }

    fn closing(self) -> u8
        ensures { result ≡ spec.closing self }
    {
        match self {
            Bracket::Round => b')',
            Bracket::Curly => b'}',
        }
    }

    /// Where the byte after this one of a call stands.
    fn after(self, depth: usize, byte: u8) -> Place
        requires { depth < 2 ^ 64 - 1 }
        ensures { result ≡ spec.after_inside self depth byte }
    {
        if byte == self.opening() {
            Place::Inside {
                bracket: self,
                depth: depth + 1,
            }
        } else if byte != self.closing() {
            Place::Inside {
                bracket: self,
                depth,
            }
        } else if depth == 0 {
            Place::Outside
        } else {
            Place::Inside {
                bracket: self,
                depth: depth - 1,
            }
        }
    }
}

/// Where the byte after this one stands, which is in no macro call.
fn after_outside(byte: u8) -> Place
    ensures { result ≡ spec.after_outside byte }
{
    if byte == b'$' {
        Place::Dollar
    } else {
        Place::Outside
    }
}

/// Where the byte after this one stands, which is directly after a `$`.
fn after_dollar(byte: u8) -> Place
    ensures { result ≡ spec.after_dollar byte }
{
    match byte {
        b'(' => Place::Inside {
            bracket: Bracket::Round,
            depth: 0,
        },
        b'{' => Place::Inside {
            bracket: Bracket::Curly,
            depth: 0,
        },
        _ => after_outside(byte),
    }
}

impl Place {
    /// Where the byte after this one stands.
    fn after(self, byte: u8) -> Place
        requires { spec.depth_of self < 2 ^ 64 - 1 }
        ensures { result ≡ spec.after self byte }
    {
        match self {
            Place::Outside => after_outside(byte),
            Place::Dollar => after_dollar(byte),
            Place::Inside { bracket, depth } => bracket.after(depth, byte),
        }
    }

    fn is_inside(self) -> bool
        ensures { result ≡ spec.is_inside self }
    {
        match self {
            Place::Outside | Place::Dollar => false,
            Place::Inside { .. } => true,
        }
    }
}

/// Marks the bytes of a line that stand in macro calls, after the marks that are there.
#[tactic(auto, using(crate::proofs::WordLaws::depth_after))]
pub fn push_marks(line: &[u8], marks: &mut Vec<Mark>) -> Result<(), AllocError>
    ensures { OnOk result (marks.new.items ≡ marks.old.items ++ spec.marks_of line.now) }
{
    marks.reserve(line.len())?;
    let mut place = Place::Outside;
    for byte in line {
        let next = place.after(*byte);
        let in_call = place.is_inside() || next.is_inside();
        marks.push(Mark {
            byte: *byte,
            in_call,
        })?;
        place = next;
    }
    Ok(())
}

/// Whether a macro call stands in these bytes.
pub fn has_call(marks: &[Mark]) -> bool
    ensures { result ≡ spec.has_call marks.now }
{
    marks.iter().any(|mark| mark.in_call)
}

/// The bytes, after those that are there.
pub fn push_bytes(marks: &[Mark], bytes: &mut Vec<u8>) -> Result<(), AllocError>
    ensures { OnOk result (bytes.new.items ≡ bytes.old.items ++ spec.bytes_of marks.now) }
{
    for mark in marks {
        bytes.push(mark.byte)?;
    }
    Ok(())
}

/// What stands after such bytes at the front.
pub fn after_front<'a>(marks: &'a [Mark], bytes: &[u8]) -> Option<&'a [Mark]>
    ensures { option_copied result ≡ spec.after_front marks.now bytes.now }
{
    let mut rest = marks;
    for byte in bytes {
        match rest {
            [] => return None,
            [mark, after @ ..] => {
                if mark.byte != *byte {
                    return None;
                }
                rest = after;
            }
        }
    }
    Some(rest)
}

/// Whether these are just such bytes.
pub fn are(marks: &[Mark], bytes: &[u8]) -> bool
    ensures { result ≡ spec.are marks.now bytes.now }
{
    match after_front(marks, bytes) {
        Some(rest) => rest.is_empty(),
        None => false,
    }
}
