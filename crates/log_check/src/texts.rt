ghost use Rattle.std.specs.Prelude.{◌≡◌, ◌↔◌, ◌≤◌, ℕ, length, Err, IfOk, IsTrue, MatchResult};
ghost use Rattle.line_texts.specs.Grammar.{Says};
ghost use Rattle.line_texts.specs.Lines.{whole_lines};
ghost use Rattle.log_check.specs.DerivationText.{Ends, IsFirstOutside, IsTextOf, MayFollow, Takes, at_start};

use crate::derivations::{Derivation, DerivationLine};
use crate::steps::read_step;
use line_texts::split_whole_line;
use std::alloc::{AllocError, AllocFailed, Global};
use thiserror::Error;
use ut_logic::Sequence;

/// Why a text is no derivation.
#[derive(Clone, Copy, Debug, PartialEq, Eq, Error)]
pub enum TextLineBad {
    /// The first line outside the grammar, counted from 1.
    #[error("line {number} is no line of a derivation")]
    Line { number: u32 },

    /// Memory ran out.
    #[error("out of memory")]
    Oom,
}

impl From<AllocError> for TextLineBad {
    ghost use Rattle.std.specs.Prelude.{◌≡◌};
    ghost use Rattle.log_check.specs.declared.texts.TextLineBad.TheVariants.{Oom};

    ghost from_gives = { λ _ bad. bad ≡ Oom };

    fn from(_: AllocError) -> TextLineBad {
        TextLineBad::Oom
    }
}

impl From<AllocFailed<DerivationLine>> for TextLineBad {
    ghost use Rattle.std.specs.Prelude.{◌≡◌};
    ghost use Rattle.log_check.specs.declared.texts.TextLineBad.TheVariants.{Oom};

    ghost from_gives = { λ _ bad. bad ≡ Oom };

    fn from(_: AllocFailed<DerivationLine>) -> TextLineBad {
        TextLineBad::Oom
    }
}

/// Whether a step with this number may come after one with the last number; 0 stands for no step before it.
fn may_follow(last: u64, number: u64) -> bool
    ensures { IsTrue result ↔ MayFollow last number }
{
    if number == 0 {
        return false;
    }
    last == 0 || number - 1 == last
}

fn read_lines(alloc: Global, bytes: &[u8]) -> Result<Vec<DerivationLine>, TextLineBad>
    requires { length bytes.now ≤ 16777216 }
    ensures reads { IfOk result (λ lines. Says Takes Ends at_start (whole_lines bytes.now) lines.items) }
    ensures line { (number : ℕ) → result ≡ Err (TextLineBad.Line number) → IsFirstOutside bytes.now number }
{
    let mut rest = bytes;
    let mut number: u32 = 1;
    let mut last = 0;
    let mut lines: Vec<DerivationLine> = Vec::new(alloc);
    while !rest.is_empty() {
        let Some((step, after)) = split_whole_line(rest) else {
            return Err(TextLineBad::Line { number });
        };
        let Some((step_number, line)) = read_step(alloc, step)? else {
            return Err(TextLineBad::Line { number });
        };
        if !may_follow(last, step_number) {
            return Err(TextLineBad::Line { number });
        }
        lines.push(line)?;
        last = step_number;
        rest = after;
        number += 1;
    }
    Ok(lines)
}

/// The derivation that this text stands for.
///
/// Each line has its newline, the number of the first is 1 or more, and each later one has the next
/// number. `Line` names the first line that is otherwise. This project's rule.
pub fn read_derivation(alloc: Global, bytes: &[u8]) -> Result<Derivation, TextLineBad>
    requires { length bytes.now ≤ 16777216 }
    ensures reads { IfOk result (λ d. (n : ℕ) × IsTextOf n d.lines bytes.now) }

    // So what is written is read back, and a text of the grammar is never refused.
    ensures only { (n : ℕ) (lines : _) → IsTextOf n lines bytes.now →
        MatchResult result (λ d. d.lines ≡ lines) (λ bad. bad ≡ TextLineBad.Oom) }
    ensures line { (number : ℕ) → result ≡ Err (TextLineBad.Line number) → IsFirstOutside bytes.now number }
{
    let lines = read_lines(alloc, bytes)?;
    Ok(Derivation {
        lines: Sequence::from_vec(lines),
    })
}
