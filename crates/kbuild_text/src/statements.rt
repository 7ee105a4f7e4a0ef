ghost use Rattle.std.specs.Prelude.{◌≡◌, ◌≤◌, IsTrue, length};
ghost use Rattle.std.specs.List.{prefix_len};
ghost use Rattle.kbuild_text.specs.Statements as spec;

use crate::marks::{Mark, are};
use crate::words::{only_word, split_word};

/// What a line says.
#[derive(Clone, Copy)]
pub enum Statement<'a> {
    /// An assignment: the variable, and what stands after the sign.
    Assigns {
        variable: &'a [Mark],
        values: &'a [Mark],
    },
    /// A line from `ifeq`, `ifneq`, `ifdef` or `ifndef`.
    Opens,
    /// An `else`, and what stands after it.
    Turns {
        rest: &'a [Mark],
    },
    /// An `endif`.
    Closes,
    /// Any other line, which is without effect.
    Other,
}

/// `=` outside of macro calls.
fn is_equals(mark: Mark) -> bool
    ensures { result ≡ spec.is_equals mark }
{
    !mark.in_call && mark.byte == b'='
}

/// A byte that belongs to the `=` after it: `:`, `+` or `?` outside of macro calls.
fn leads_equals(mark: Mark) -> bool
    ensures { result ≡ spec.leads_equals mark }
{
    !mark.in_call && (mark.byte == b':' || mark.byte == b'+' || mark.byte == b'?')
}

/// The number of marks before the first `=` outside of macro calls.
fn before_equals(line: &[Mark]) -> usize
    ensures value { result ≡ prefix_len spec.is_before_equals line.now }
    ensures within { result ≤ length line.now }
{
    let mut count = 0;
    for mark in line {
        if is_equals(*mark) {
            return count;
        }
        count += 1;
    }
    count
}

/// What stands before the sign, where the line up to its `=` is given.
fn without_lead(front: &[Mark]) -> &[Mark]
    ensures { result.now ≡ spec.without_lead front.now }
{
    match front.split_last() {
        None => front,
        Some((last, before)) => { if leads_equals(*last) { before } else { front } }
    }
}

/// The variable and what stands after the sign, where the line is an assignment.
fn assignment(line: &[Mark]) -> Option<(&[Mark], &[Mark])>
    ensures { spec.seen result ≡ spec.assignment_of line.now }
{
    let end = before_equals(line);
    if end == line.len() {
        return None;
    }
    let variable = only_word(without_lead(&line[..end]))?;
    Some((variable, &line[end + 1..]))
}

/// Whether a word begins a conditional line.
fn is_opener(word: &[Mark]) -> bool
    ensures { result ≡ spec.is_opener word.now }
{
    are(word, b"ifeq") || are(word, b"ifneq") || are(word, b"ifdef") || are(word, b"ifndef")
}

/// What a line that is no assignment says.
fn conditional(line: &[Mark]) -> Statement<'_>
    ensures { spec.said result ≡ spec.conditional_of line.now }
{
    match split_word(line) {
        None => Statement::Other,
        Some((word, _)) if is_opener(word) => Statement::Opens,
        Some((word, rest)) if are(word, b"else") => Statement::Turns { rest },
        Some((word, _)) if are(word, b"endif") => Statement::Closes,
        Some(_) => Statement::Other,
    }
}

/// What a line says.
pub fn read_statement(line: &[Mark]) -> Statement<'_>
    ensures { spec.said result ≡ spec.statement_of line.now }
{
    match assignment(line) {
        Some((variable, values)) => Statement::Assigns { variable, values },
        None => conditional(line),
    }
}
