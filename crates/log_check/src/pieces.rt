ghost use Rattle.std.specs.Prelude.{IfNone, IfSome};
ghost use Rattle.log_check.specs.Reading.{IsHeadThen, IsLiteralThen, IsPairThen, IsSignThen};

use crate::derivations::PivotOf;
use line_texts::Cursor;
use ut_logic::Lit;

// A reader that answers None may have passed a part of what it looked for.

/// The sign of a literal: whether no `-` is at the front.
fn read_sign(cursor: &mut Cursor<'_>) -> bool
    ensures { IsSignThen cursor.old result cursor.new }
{
    if cursor.word(b"-") {
        return false;
    }
    true
}

/// A literal and the blank after it.
pub fn read_literal(cursor: &mut Cursor<'_>) -> Option<Lit>
    ensures found { IfSome result (λ l. IsLiteralThen cursor.old l cursor.new) }
    ensures none { IfNone result ((l rest : _) → ¬ IsLiteralThen cursor.old l rest) }
{
    let positive = read_sign(cursor);
    let var = cursor.number()?;
    if var == 0 {
        return None;
    }
    if !cursor.word(b" ") {
        return None;
    }
    Some(Lit { var, positive })
}

/// A pivot and a clause's number, each after a blank.
pub fn read_pair(cursor: &mut Cursor<'_>) -> Option<PivotOf>
    ensures found { IfSome result (λ p. IsPairThen cursor.old p cursor.new) }
    ensures none { IfNone result ((p rest : _) → ¬ IsPairThen cursor.old p rest) }
{
    if !cursor.word(b" ") {
        return None;
    }
    let pivot = cursor.number()?;
    if !cursor.word(b" ") {
        return None;
    }
    let clause = cursor.number()?;
    Some(PivotOf { pivot, clause })
}

/// What comes before a step's literals: its number and the words round it.
pub fn read_head(cursor: &mut Cursor<'_>) -> Option<u64>
    ensures found { IfSome result (λ n. IsHeadThen cursor.old n cursor.new) }
    ensures none { IfNone result ((n rest : _) → ¬ IsHeadThen cursor.old n rest) }
{
    if !cursor.word(b" step ") {
        return None;
    }
    let number = cursor.number()?;
    if !cursor.word(b": ") {
        return None;
    }
    Some(number)
}
