ghost use Rattle.std.specs.Prelude.{◌≡◌};
ghost use Rattle.kconf_statements.specs.Reading as inner;

use crate::keywords::Attribute;
use crate::lines::{ChoiceLine, ConfigLine, MenuLine};
use kconf_entries::{Expr, Kind};
use kconf_rests::{
    a_prompt, a_prompt_or_none, a_target, a_value, an_expression, is_modules, nothing, two_words,
};
use kconf_words::{LineBad, LineWord, SyntaxKind};
use std::alloc::Global;

/// A type line of a config.
fn typed(alloc: Global, kind: Kind, words: &[LineWord]) -> Result<ConfigLine, LineBad>
    ensures { inner.SaysBy (inner.typed kind) words.now result }
{
    let prompt = a_prompt_or_none(alloc, words)?;
    Ok(ConfigLine::Typed(kind, prompt))
}

/// A type line of a config with a default.
fn typed_default(alloc: Global, kind: Kind, words: &[LineWord]) -> Result<ConfigLine, LineBad>
    ensures { inner.SaysBy (inner.typed_default kind) words.now result }
{
    let default = a_value(alloc, words)?;
    Ok(ConfigLine::TypedDefault(kind, default))
}

/// What an attribute of a config says.
pub fn config_line(
    alloc: Global,
    attribute: Attribute,
    words: &[LineWord],
) -> Result<ConfigLine, LineBad>
    ensures { inner.SaysIf (inner.config_rest attribute) words.now result }
{
    match attribute {
        Attribute::Bool => typed(alloc, Kind::Bool, words),
        Attribute::Tristate => typed(alloc, Kind::Tristate, words),
        Attribute::Str => typed(alloc, Kind::Str, words),
        Attribute::Hex => typed(alloc, Kind::Hex, words),
        Attribute::Int => typed(alloc, Kind::Int, words),
        Attribute::Prompt => Ok(ConfigLine::Prompt(a_prompt(alloc, words)?)),
        Attribute::Default => Ok(ConfigLine::Default(a_value(alloc, words)?)),
        Attribute::DefBool => typed_default(alloc, Kind::Bool, words),
        Attribute::DefTristate => typed_default(alloc, Kind::Tristate, words),
        Attribute::DependsOn => Ok(ConfigLine::DependsOn(an_expression(alloc, words)?)),
        Attribute::Select => Ok(ConfigLine::Select(a_target(alloc, words)?)),
        Attribute::Imply => Ok(ConfigLine::Imply(a_target(alloc, words)?)),
        Attribute::VisibleIf => Err(LineBad::Syntax(SyntaxKind::Attribute)),
        Attribute::Range => {
            two_words(alloc, words)?;
            Ok(ConfigLine::Range)
        }
        Attribute::Help => {
            nothing(words)?;
            Ok(ConfigLine::Help)
        }
        Attribute::AnyOption => Ok(ConfigLine::AnyOption(is_modules(words))),
        Attribute::Modules => {
            nothing(words)?;
            Ok(ConfigLine::Modules)
        }
        Attribute::Optional => Err(LineBad::Syntax(SyntaxKind::Attribute)),
    }
}

/// A type line of a choice.
fn typed_choice(alloc: Global, kind: Kind, words: &[LineWord]) -> Result<ChoiceLine, LineBad>
    ensures { inner.SaysBy (inner.typed_choice kind) words.now result }
{
    let prompt = a_prompt_or_none(alloc, words)?;
    Ok(ChoiceLine::Typed(kind, prompt))
}

/// What an attribute of a choice says.
pub fn choice_line(
    alloc: Global,
    attribute: Attribute,
    words: &[LineWord],
) -> Result<ChoiceLine, LineBad>
    ensures { inner.SaysIf (inner.choice_rest attribute) words.now result }
{
    let refused = LineBad::Syntax(SyntaxKind::Attribute);
    match attribute {
        Attribute::Bool => typed_choice(alloc, Kind::Bool, words),
        Attribute::Tristate => typed_choice(alloc, Kind::Tristate, words),
        Attribute::Str => Err(refused),
        Attribute::Hex => Err(refused),
        Attribute::Int => Err(refused),
        Attribute::Prompt => Ok(ChoiceLine::Prompt(a_prompt(alloc, words)?)),
        Attribute::Default => Ok(ChoiceLine::Default(a_target(alloc, words)?)),
        Attribute::DefBool => Err(refused),
        Attribute::DefTristate => Err(refused),
        Attribute::DependsOn => Ok(ChoiceLine::DependsOn(an_expression(alloc, words)?)),
        Attribute::Select => Err(refused),
        Attribute::Imply => Err(refused),
        Attribute::VisibleIf => Err(refused),
        Attribute::Range => Err(refused),
        Attribute::Help => {
            nothing(words)?;
            Ok(ChoiceLine::Help)
        }
        Attribute::AnyOption => Err(refused),
        Attribute::Modules => Err(refused),
        Attribute::Optional => {
            nothing(words)?;
            Ok(ChoiceLine::Optional)
        }
    }
}

/// What an attribute of a menu says.
pub fn menu_line(
    alloc: Global,
    attribute: Attribute,
    words: &[LineWord],
) -> Result<MenuLine, LineBad>
    ensures { inner.SaysIf (inner.menu_rest attribute) words.now result }
{
    let refused = LineBad::Syntax(SyntaxKind::Attribute);
    match attribute {
        Attribute::Bool => Err(refused),
        Attribute::Tristate => Err(refused),
        Attribute::Str => Err(refused),
        Attribute::Hex => Err(refused),
        Attribute::Int => Err(refused),
        Attribute::Prompt => Err(refused),
        Attribute::Default => Err(refused),
        Attribute::DefBool => Err(refused),
        Attribute::DefTristate => Err(refused),
        Attribute::DependsOn => Ok(MenuLine::DependsOn(an_expression(alloc, words)?)),
        Attribute::Select => Err(refused),
        Attribute::Imply => Err(refused),
        Attribute::VisibleIf => Ok(MenuLine::VisibleIf(an_expression(alloc, words)?)),
        Attribute::Range => Err(refused),
        Attribute::Help => Err(refused),
        Attribute::AnyOption => Err(refused),
        Attribute::Modules => Err(refused),
        Attribute::Optional => Err(refused),
    }
}

/// The condition of a comment, its only attribute.
pub fn comment_line(
    alloc: Global,
    attribute: Attribute,
    words: &[LineWord],
) -> Result<Expr, LineBad>
    ensures { inner.SaysIf (inner.comment_rest attribute) words.now result }
{
    let refused = LineBad::Syntax(SyntaxKind::Attribute);
    match attribute {
        Attribute::Bool => Err(refused),
        Attribute::Tristate => Err(refused),
        Attribute::Str => Err(refused),
        Attribute::Hex => Err(refused),
        Attribute::Int => Err(refused),
        Attribute::Prompt => Err(refused),
        Attribute::Default => Err(refused),
        Attribute::DefBool => Err(refused),
        Attribute::DefTristate => Err(refused),
        Attribute::DependsOn => an_expression(alloc, words),
        Attribute::Select => Err(refused),
        Attribute::Imply => Err(refused),
        Attribute::VisibleIf => Err(refused),
        Attribute::Range => Err(refused),
        Attribute::Help => Err(refused),
        Attribute::AnyOption => Err(refused),
        Attribute::Modules => Err(refused),
        Attribute::Optional => Err(refused),
    }
}
