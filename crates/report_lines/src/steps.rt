ghost use Rattle.std.specs.Prelude.{◌≡◌, ◌+◌, ◌<◌, ◌++◌, ◌^◌, All, OnOk, length};
ghost use Rattle.log_check.specs.DerivationText.{IsPrintable};
ghost use Rattle.ut_report.specs.Evidence.{step_lines};
ghost use Rattle.ut_report.specs.Lines.{text_of};

use log_check::{Derivation, push_step};
use std::alloc::AllocError;

/// Appends the steps of a derivation, each with its newline, which go on with the numbers of so many clauses.
pub fn push_steps(
    text: &mut Vec<u8>,
    clauses: u64,
    derivation: &Derivation,
) -> Result<(), AllocError>
    requires { clauses < 2 ^ 63 }
    ensures text { OnOk result (text.new.items ≡ text.old.items ++ text_of (step_lines (clauses + 1) derivation.now.lines)) }
    ensures numbers { OnOk result (clauses + length derivation.now.lines < 2 ^ 64) }
    ensures printable { OnOk result (All IsPrintable derivation.now.lines) }
{
    let lines = derivation.lines.as_slice();
    for at in 0..lines.len() {
        push_step(text, clauses + 1 + at as u64, &lines[at])?;
        text.extend_from_slice(b"\n")?;
    }
    Ok(())
}
