ghost use Rattle.std.specs.Prelude.{◌≡◌, ◌++◌, IfOk, OnOk};
ghost use Rattle.std.specs.List.{flat_map};
ghost use Rattle.kconf_tree.specs.Gathered as spec;
ghost use Rattle.kconf_tree.specs.Types.{typed, outers_of_default, outers_with};
ghost use Rattle.kconf_entries.specs.declared.entries.SelectOf as declared;
ghost use Rattle.kconf_entries.specs.declared.expr.Expr.TheOpen.{Expr-F as step};

use crate::outer_text::OuterText;
use crate::types::Types;
use indexmap::IndexSet;
use kconf_entries::{
    ChoiceEntry, ConfigEntry, DefaultOf, Expr, SelectOf, Side, Sign, comparison_text,
};
use std::alloc::{AllocError, Global};
use ut_logic::Text;

/// Adds the text of the comparison where it is an outer condition.
fn push_comparison(
    alloc: Global,
    types: &Types,
    left: &Side,
    sign: Sign,
    right: &Side,
    texts: &mut Vec<Text>,
) -> Result<(), AllocError>
    ensures { OnOk result (texts.new.items ≡ texts.old.items ++ spec.outers_step (typed types.now) (step.Compare left.now sign right.now)) }
{
    if types.compares_trits(left, sign, right) {
        return Ok(());
    }
    texts.push(comparison_text(alloc, left, sign, right)?)?;
    Ok(())
}

/// Adds the texts of the outer conditions in an expression, in order.
#[cycle(outers)]
fn push_outers(
    alloc: Global,
    types: &Types,
    e: &Expr,
    texts: &mut Vec<Text>,
) -> Result<(), AllocError>
    ensures { OnOk result (texts.new.items ≡ texts.old.items ++ spec.outers_in (typed types.now) e.now) }
{
    match e {
        Expr::Const(_) | Expr::Name(_) => Ok(()),
        Expr::Outer(text) => {
            texts.push(text.copy(alloc)?)?;
            Ok(())
        }
        Expr::Compare { left, sign, right } => {
            push_comparison(alloc, types, left, *sign, right, texts)
        }
        Expr::Neg(inner) => push_outers(alloc, types, inner.get(), texts),
        Expr::And(list) => push_each(alloc, types, list.as_slice(), texts),
        Expr::Or(list) => push_each(alloc, types, list.as_slice(), texts),
    }
}

/// Adds those of each expression.
#[cycle(outers)]
fn push_each(
    alloc: Global,
    types: &Types,
    list: &[Expr],
    texts: &mut Vec<Text>,
) -> Result<(), AllocError>
    ensures { OnOk result (texts.new.items ≡ texts.old.items ++ flat_map (spec.outers_in (typed types.now)) list.now) }
{
    for e in list {
        push_outers(alloc, types, e, texts)?;
    }
    Ok(())
}

/// Adds those of defaults, the value before the condition.
fn push_defaults(
    alloc: Global,
    types: &Types,
    defaults: &[DefaultOf],
    texts: &mut Vec<Text>,
) -> Result<(), AllocError>
    ensures { OnOk result (texts.new.items ≡ texts.old.items ++ flat_map (outers_of_default (typed types.now)) defaults.now) }
{
    for default in defaults {
        push_outers(alloc, types, &default.value, texts)?;
        push_outers(alloc, types, &default.cond, texts)?;
    }
    Ok(())
}

/// Adds those of the conditions of selects, implies or choice defaults.
fn push_conditions(
    alloc: Global,
    types: &Types,
    selects: &[SelectOf],
    texts: &mut Vec<Text>,
) -> Result<(), AllocError>
    ensures { OnOk result (texts.new.items ≡ texts.old.items ++ flat_map (λ (s : declared.SelectOf). spec.outers_in (typed types.now) s.cond) selects.now) }
{
    for select in selects {
        push_outers(alloc, types, &select.cond, texts)?;
    }
    Ok(())
}

/// Adds those of a config, in the order of its properties.
fn push_config(
    alloc: Global,
    types: &Types,
    config: &ConfigEntry,
    texts: &mut Vec<Text>,
) -> Result<(), AllocError>
    ensures { OnOk result (texts.new.items ≡ texts.old.items ++ spec.outers_of_config (typed types.now) config.now) }
{
    push_outers(alloc, types, &config.depends, texts)?;
    push_each(alloc, types, config.prompts.as_slice(), texts)?;
    push_defaults(alloc, types, config.defaults.as_slice(), texts)?;
    push_conditions(alloc, types, config.selects.as_slice(), texts)?;
    push_conditions(alloc, types, config.implies.as_slice(), texts)
}

/// Adds those of a choice.
fn push_choice(
    alloc: Global,
    types: &Types,
    choice: &ChoiceEntry,
    texts: &mut Vec<Text>,
) -> Result<(), AllocError>
    ensures { OnOk result (texts.new.items ≡ texts.old.items ++ spec.outers_of_choice (typed types.now) choice.now) }
{
    push_each(alloc, types, choice.prompts.as_slice(), texts)?;
    push_conditions(alloc, types, choice.defaults.as_slice(), texts)
}

/// Adds those of all configs.
fn push_configs(
    alloc: Global,
    types: &Types,
    configs: &[ConfigEntry],
    texts: &mut Vec<Text>,
) -> Result<(), AllocError>
    ensures { OnOk result (texts.new.items ≡ texts.old.items ++ flat_map (spec.outers_of_config (typed types.now)) configs.now) }
{
    for config in configs {
        push_config(alloc, types, config, texts)?;
    }
    Ok(())
}

/// Adds those of all choices.
fn push_choices(
    alloc: Global,
    types: &Types,
    choices: &[ChoiceEntry],
    texts: &mut Vec<Text>,
) -> Result<(), AllocError>
    ensures { OnOk result (texts.new.items ≡ texts.old.items ++ flat_map (spec.outers_of_choice (typed types.now)) choices.now) }
{
    for choice in choices {
        push_choice(alloc, types, choice, texts)?;
    }
    Ok(())
}

/// The texts of a list, each at its first place.
fn distinct(alloc: Global, texts: Vec<Text>) -> Result<IndexSet<OuterText>, AllocError>
    ensures { IfOk result (λ s. s.keys ≡ spec.once texts.items) }
{
    let mut set = IndexSet::new(alloc);
    for text in texts {
        set.insert(OuterText::new(text))?;
    }
    Ok(set)
}

/// The outer conditions in the entries, by first appearance. The only error is out of memory.
pub fn outers(
    alloc: Global,
    types: &Types,
    configs: &[ConfigEntry],
    choices: &[ChoiceEntry],
) -> Result<IndexSet<OuterText>, AllocError>
    ensures { IfOk result (λ s. s.keys ≡ outers_with (typed types.now) configs.now choices.now) }
{
    let mut texts = Vec::new(alloc);
    push_configs(alloc, types, configs, &mut texts)?;
    push_choices(alloc, types, choices, &mut texts)?;
    distinct(alloc, texts)
}
