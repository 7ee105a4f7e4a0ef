//! The first line of a group: all values that aren't n.

ghost use Rattle.std.specs.Prelude.{◌≡◌, ◌++◌, ◌∷◌, [], OnOk, codes, false, slice_index_or};
ghost use Rattle.ut_logic.specs.Trit.{rank};
ghost use Rattle.complete_conf.specs.Config.{by_lists};
ghost use Rattle.ut_case.specs.Wholes.{Fits, FitsValues, case_of, configuration_in, named_configuration};
ghost use Rattle.ut_report.specs.Groups.{each_from, group_word, name_value, symbol_value, values_text};
ghost use Rattle.ut_report.specs.Lines.{text_of};
ghost use Rattle.report_lines.specs.Inside.{name_text, value_text};

use crate::reported::Reported;
use complete_conf::Config;
use kconf_tree::Tree;
use std::alloc::AllocError;
use ut_case::{Values, Whole};
use ut_logic::{Text, Trit};

/// The word of a group: of the case that selects a block, or of the one that drops it.
pub fn word_of_group(on: bool) -> &'static str
    ensures { result.now ≡ group_word on }
{
    if on { " on" } else { " off" }
}

/// Appends a symbol with what stands after its name.
fn push_config(text: &mut Vec<u8>, name: &str, end: &str) -> Result<(), AllocError>
    ensures { OnOk result (text.new.items ≡ text.old.items ++ (codes " CONFIG_" ++ name.now ++ end.now)) }
{
    text.extend_from_slice(b" CONFIG_")?;
    text.extend_from_slice(name.as_bytes())?;
    text.extend_from_slice(end.as_bytes())
}

/// Appends a symbol of this value, if that isn't n.
fn push_value(text: &mut Vec<u8>, name: &str, value: Trit) -> Result<(), AllocError>
    ensures { OnOk result (text.new.items ≡ text.old.items ++ value_text (rank value) name.now) }
{
    match value {
        Trit::N => Ok(()),
        Trit::M => push_config(text, name, "=m"),
        Trit::Y => push_config(text, name, "=y"),
    }
}

/// Appends the symbols of a tree that aren't n.
fn push_symbols(text: &mut Vec<u8>, tree: &Tree, config: &Config) -> Result<(), AllocError>
    ensures { OnOk result (text.new.items ≡ text.old.items ++ each_from (symbol_value (by_lists config.now)) 0 tree.now.shape.symbols) }
{
    for sym in 0..tree.symbols() {
        push_value(text, tree.name(sym), config.value(sym))?;
    }
    Ok(())
}

/// The truth with this number, or false past the last one.
fn truth_at(truths: &[bool], number: usize) -> bool
    ensures { result ≡ slice_index_or truths.now number false }
{
    if number < truths.len() {
        truths[number]
    } else {
        false
    }
}

/// Appends a name, if it is true.
fn push_name(text: &mut Vec<u8>, name: &str, is_true: bool) -> Result<(), AllocError>
    ensures { OnOk result (text.new.items ≡ text.old.items ++ name_text is_true name.now) }
{
    if is_true {
        text.extend_from_slice(b" ")?;
        text.extend_from_slice(name.as_bytes())?;
        text.extend_from_slice(b"=y")
    } else {
        Ok(())
    }
}

/// Appends the names of a model text that are true.
fn push_names(text: &mut Vec<u8>, names: &[Text], truths: &[bool]) -> Result<(), AllocError>
    ensures { (env : _) → OnOk result (text.new.items ≡ text.old.items ++ each_from (name_value (named_configuration truths.now env)) 0 names.now) }
{
    for number in 0..names.len() {
        push_name(text, names[number].text(), truth_at(truths, number))?;
    }
    Ok(())
}

/// Appends all values that aren't n.
fn push_values<P: Reported>(
    text: &mut Vec<u8>,
    problem: &P,
    values: &Values,
) -> Result<(), AllocError>
    requires { FitsValues (P.problem problem.now) (P.problem problem.now).basis values.now }
    ensures { (env : _) → OnOk result (text.new.items ≡ text.old.items ++ values_text (P.problem problem.now).basis (configuration_in (P.problem problem.now).basis values.now env)) }
{
    match values {
        Values::Tree(config) => match problem.tree() {
            Some(tree) => push_symbols(text, tree, config),
            None => Ok(()),
        },
        Values::Names(truths) => push_names(text, problem.names(), truths.as_slice()),
    }
}

/// Appends the first line of a group with its newline.
pub fn push_first_line<P: Reported>(
    text: &mut Vec<u8>,
    problem: &P,
    whole: &Whole,
    on: bool,
) -> Result<(), AllocError>
    requires { Fits (P.problem problem.now) whole.now }
    ensures { OnOk result (text.new.items ≡ text.old.items ++ text_of ((group_word on ++ codes ":" ++ values_text (P.problem problem.now).basis (case_of (P.problem problem.now) whole.now).configuration) ∷ [])) }
{
    text.extend_from_slice(word_of_group(on).as_bytes())?;
    text.extend_from_slice(b":")?;
    push_values(text, problem, &whole.values)?;
    text.extend_from_slice(b"\n")
}
