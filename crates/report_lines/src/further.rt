//! The further lines of a group on what a configuration has: modes of choices, and outer conditions.

ghost use Rattle.std.specs.Prelude.{◌≡◌, ◌++◌, ◌∷◌, [], OnOk, codes, decimal, suc};
ghost use Rattle.ut_logic.specs.Trit.{rank};
ghost use Rattle.complete_conf.specs.Config.{by_lists};
ghost use Rattle.ut_case.specs.Problem as spec;
ghost use Rattle.ut_case.specs.Numbering.{outers_of};
ghost use Rattle.ut_case.specs.Wholes.{Fits, FitsValues, case_of};
ghost use Rattle.ut_report.specs.Groups.{choice_line, choice_lines, each_from, group_word, outer_line, where_so};
ghost use Rattle.report_lines.specs.Inside.{kind_text, mode_lines};

use crate::numbers::push_count;
use crate::reported::Reported;
use crate::values::word_of_group;
use complete_conf::Config;
use kconf_tree::Tree;
use std::alloc::AllocError;
use ut_case::{Values, Whole};
use ut_logic::{Item, Trit};

/// Appends what a further line of a group begins with.
pub fn push_tag(text: &mut Vec<u8>, on: bool, tag: &str) -> Result<(), AllocError>
    ensures { OnOk result (text.new.items ≡ text.old.items ++ (group_word on ++ codes "-" ++ tag.now ++ codes ": ")) }
{
    text.extend_from_slice(word_of_group(on).as_bytes())?;
    text.extend_from_slice(b"-")?;
    text.extend_from_slice(tag.as_bytes())?;
    text.extend_from_slice(b": ")
}

/// Appends the line of a choice with the word of its mode.
fn push_mode(text: &mut Vec<u8>, on: bool, choice: u32, mode: &str) -> Result<(), AllocError>
    ensures { OnOk result (text.new.items ≡ text.old.items ++ kind_text on (codes "choice") ((decimal (suc choice) ++ mode.now) ∷ [])) }
{
    push_tag(text, on, "choice")?;
    push_count(text, "", u64::from(choice) + 1)?;
    text.extend_from_slice(mode.as_bytes())?;
    text.extend_from_slice(b"\n")
}

/// Appends the line of a choice of this mode, if that isn't n.
fn push_choice(text: &mut Vec<u8>, on: bool, choice: u32, mode: Trit) -> Result<(), AllocError>
    ensures { OnOk result (text.new.items ≡ text.old.items ++ kind_text on (codes "choice") (mode_lines (rank mode) choice)) }
{
    match mode {
        Trit::N => Ok(()),
        Trit::M => push_mode(text, on, choice, " m"),
        Trit::Y => push_mode(text, on, choice, " y"),
    }
}

/// Appends the lines of the choices of a tree whose modes aren't n.
fn push_modes(text: &mut Vec<u8>, tree: &Tree, config: &Config, on: bool) -> Result<(), AllocError>
    ensures { OnOk result (text.new.items ≡ text.old.items ++ kind_text on (codes "choice") (each_from (choice_line (by_lists config.now)) 0 tree.now.shape.choices)) }
{
    for choice in 0..tree.choices() {
        push_choice(text, on, choice, config.mode(choice))?;
    }
    Ok(())
}

/// Appends the lines of all choices whose modes aren't n.
pub fn push_choices<P: Reported>(
    text: &mut Vec<u8>,
    problem: &P,
    whole: &Whole,
    on: bool,
) -> Result<(), AllocError>
    requires { Fits (P.problem problem.now) whole.now }
    ensures { OnOk result (text.new.items ≡ text.old.items ++ kind_text on (codes "choice") (choice_lines (P.problem problem.now).basis (case_of (P.problem problem.now) whole.now).configuration)) }
{
    match &whole.values {
        Values::Tree(config) => match problem.tree() {
            Some(tree) => push_modes(text, tree, config, on),
            None => Ok(()),
        },
        Values::Names(_) => Ok(()),
    }
}

/// Whether an outer condition is true.
fn is_outer_true(whole: &Whole, number: u64) -> bool
    ensures { (p : spec.Problem) → FitsValues p p.basis whole.now.values → result ≡ (case_of p whole.now).configuration.outer number }
{
    match &whole.values {
        Values::Tree(config) => config.outer(number),
        Values::Names(_) => whole.env.has(Item::Outer(number)),
    }
}

/// Appends the line of an outer condition, if it is true.
fn push_outer(text: &mut Vec<u8>, on: bool, outer: &str, is_true: bool) -> Result<(), AllocError>
    ensures { OnOk result (text.new.items ≡ text.old.items ++ kind_text on (codes "outer") (where_so is_true outer.now)) }
{
    if is_true {
        push_tag(text, on, "outer")?;
        text.extend_from_slice(outer.as_bytes())?;
        text.extend_from_slice(b"\n")
    } else {
        Ok(())
    }
}

/// Appends the lines of the outer conditions that are true.
pub fn push_outers<P: Reported>(
    text: &mut Vec<u8>,
    problem: &P,
    whole: &Whole,
    on: bool,
) -> Result<(), AllocError>
    requires { Fits (P.problem problem.now) whole.now }
    ensures { OnOk result (text.new.items ≡ text.old.items ++ kind_text on (codes "outer") (each_from (outer_line (case_of (P.problem problem.now) whole.now).configuration) 0 (outers_of (P.problem problem.now)))) }
{
    for number in 0..problem.outers() {
        push_outer(
            text,
            on,
            problem.outer(number),
            is_outer_true(whole, number),
        )?;
    }
    Ok(())
}
