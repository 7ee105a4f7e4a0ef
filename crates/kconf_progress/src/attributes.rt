ghost use Rattle.std.specs.Prelude.{◌≡◌, IfOk};
ghost use Rattle.kconf_progress.specs.OpenEntries as spec;

use crate::kinds::first_type;
use crate::open_entries::{ChoiceLines, ConfigLines};
use kconf_entries::{Expr, Kind};
use kconf_statements::{ChoiceLine, ConfigLine};
use std::alloc::AllocError;

/// The type that a line of a config is for.
pub fn type_in(line: &ConfigLine) -> Option<Kind>
    ensures { result ≡ spec.type_in line.now }
{
    match line {
        ConfigLine::Typed(kind, _) => Some(*kind),
        ConfigLine::TypedDefault(kind, _) => Some(*kind),
        ConfigLine::Prompt(_) => None,
        ConfigLine::Default(_) => None,
        ConfigLine::DependsOn(_) => None,
        ConfigLine::Select(_) => None,
        ConfigLine::Imply(_) => None,
        ConfigLine::Range => None,
        ConfigLine::Modules => None,
        ConfigLine::AnyOption(_) => None,
        ConfigLine::Help => None,
    }
}

/// The config with the prompt of a type line.
fn with_prompt(mut config: ConfigLines, prompt: Option<Expr>) -> Result<ConfigLines, AllocError>
    ensures { IfOk result (λ c. c ≡ spec.with_prompt config prompt) }
{
    match prompt {
        Some(prompt) => {
            config.prompts.push(prompt)?;
            Ok(config)
        }
        None => Ok(config),
    }
}

/// The config with one more attribute.
pub fn config_with(mut config: ConfigLines, line: ConfigLine) -> Result<ConfigLines, AllocError>
    ensures { IfOk result (λ c. c ≡ spec.config_with config line) }
{
    match line {
        ConfigLine::Typed(kind, prompt) => {
            config.kind = first_type(config.kind, kind);
            with_prompt(config, prompt)
        }
        ConfigLine::TypedDefault(kind, default) => {
            config.kind = first_type(config.kind, kind);
            config.defaults.push(default)?;
            Ok(config)
        }
        ConfigLine::Prompt(prompt) => with_prompt(config, Some(prompt)),
        ConfigLine::Default(default) => {
            config.defaults.push(default)?;
            Ok(config)
        }
        ConfigLine::DependsOn(condition) => {
            config.depends.push(condition)?;
            Ok(config)
        }
        ConfigLine::Select(select) => {
            config.selects.push(select)?;
            Ok(config)
        }
        ConfigLine::Imply(imply) => {
            config.implies.push(imply)?;
            Ok(config)
        }
        ConfigLine::Range => Ok(config),
        ConfigLine::Modules => {
            config.modules = true;
            Ok(config)
        }
        ConfigLine::AnyOption(is_modules) => {
            config.modules = config.modules || is_modules;
            Ok(config)
        }
        ConfigLine::Help => Ok(config),
    }
}

/// The choice with the prompt of a type line.
fn with_choice_prompt(
    mut choice: ChoiceLines,
    prompt: Option<Expr>,
) -> Result<ChoiceLines, AllocError>
    ensures { IfOk result (λ c. c ≡ spec.with_choice_prompt choice prompt) }
{
    match prompt {
        Some(prompt) => {
            choice.prompts.push(prompt)?;
            Ok(choice)
        }
        None => Ok(choice),
    }
}

/// The choice with one more attribute, and the condition that belongs to its opener.
pub fn choice_with(
    mut choice: ChoiceLines,
    line: ChoiceLine,
) -> Result<(ChoiceLines, Option<Expr>), AllocError>
    ensures { IfOk result (λ c. c ≡ spec.choice_with choice line) }
{
    match line {
        ChoiceLine::Typed(kind, prompt) => {
            choice.kind = first_type(choice.kind, kind);
            let choice = with_choice_prompt(choice, prompt)?;
            Ok((choice, None))
        }
        ChoiceLine::Prompt(prompt) => {
            let choice = with_choice_prompt(choice, Some(prompt))?;
            Ok((choice, None))
        }
        ChoiceLine::Default(default) => {
            choice.defaults.push(default)?;
            Ok((choice, None))
        }
        ChoiceLine::DependsOn(condition) => Ok((choice, Some(condition))),
        ChoiceLine::Optional => {
            choice.optional = true;
            Ok((choice, None))
        }
        ChoiceLine::Help => Ok((choice, None)),
    }
}
