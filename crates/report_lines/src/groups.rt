ghost use Rattle.std.specs.Prelude.{◌≡◌, ◌++◌, IfOk, OnOk};
ghost use Rattle.ut_case.specs.Wholes.{Fits, case_of};
ghost use Rattle.ut_report.specs.Groups.{group_lines};
ghost use Rattle.ut_report.specs.Lines.{text_of};

use crate::environment::push_environment;
use crate::further::{push_choices, push_outers};
use crate::reported::Reported;
use crate::values::push_first_line;
use std::alloc::{AllocError, Global};
use ut_case::Whole;

/// Appends the lines of a group, each with its newline.
pub fn push_group<P: Reported>(
    text: &mut Vec<u8>,
    problem: &P,
    whole: &Whole,
    on: bool,
) -> Result<(), AllocError>
    requires { Fits (P.problem problem.now) whole.now }
    ensures { OnOk result (text.new.items ≡ text.old.items ++ text_of (group_lines (P.problem problem.now) on (case_of (P.problem problem.now) whole.now))) }
{
    push_first_line(text, problem, whole, on)?;
    push_choices(text, problem, whole, on)?;
    push_outers(text, problem, whole, on)?;
    push_environment(text, problem, whole, on)
}

/// The lines of the `on` group of a whole that fits the problem, or with false of its `off` group, each with its newline.
///
/// The only error is want of memory. This project's rule.
pub fn group_text<P: Reported>(
    alloc: Global,
    problem: &P,
    whole: &Whole,
    on: bool,
) -> Result<Vec<u8>, AllocError>
    requires { Fits (P.problem problem.now) whole.now }
    ensures { IfOk result (λ text. text.items ≡ text_of (group_lines (P.problem problem.now) on (case_of (P.problem problem.now) whole.now))) }
{
    let mut text = Vec::new(alloc);
    push_group(&mut text, problem, whole, on)?;
    Ok(text)
}
