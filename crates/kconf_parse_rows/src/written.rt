//! Entries and refusals as texts.

use kconf_entries::{
    ChoiceEntry, ConfigEntry, DefaultOf, Entries, Expr, Kind, SelectOf, Side, sign_text, trit_text,
};
use kconf_texts::KconfBad;
use std::alloc::{AllocError, Global};
use std::fmt::Write;

fn kind_text(kind: Kind) -> &'static str {
    match kind {
        Kind::Bool => "bool",
        Kind::Tristate => "tristate",
        Kind::Str => "string",
        Kind::Hex => "hex",
        Kind::Int => "int",
        Kind::Untyped => "untyped",
    }
}

fn push_between(
    text: &mut String,
    before: &str,
    word: &str,
    after: &str,
) -> Result<(), AllocError> {
    text.push_str(before)?;
    text.push_str(word)?;
    text.push_str(after)
}

/// A literal has `#` before it, and a quoted word stands between `'`.
fn push_side(text: &mut String, side: &Side) -> Result<(), AllocError> {
    match side {
        Side::Const(value) => text.push_str(trit_text(*value)),
        Side::Name(name) => text.push_str(name.text()),
        Side::Literal(literal) => push_between(text, "#", literal.text(), ""),
        Side::Quoted(quoted) => push_between(text, "'", quoted.text(), "'"),
    }
}

/// An expression; an outer condition stands between `<` and `>`.
#[cycle(push_expr)]
fn push_expr(text: &mut String, expr: &Expr) -> Result<(), AllocError> {
    match expr {
        Expr::Const(value) => text.push_str(trit_text(*value)),
        Expr::Name(name) => text.push_str(name.text()),
        Expr::Outer(outer) => push_between(text, "<", outer.text(), ">"),
        Expr::Compare { left, sign, right } => {
            push_side(text, left)?;
            text.push_str(sign_text(*sign))?;
            push_side(text, right)
        }
        Expr::Neg(inner) => {
            text.push_str("!")?;
            push_expr(text, inner.get())
        }
        Expr::And(list) => push_list(text, "(and", list.as_slice()),
        Expr::Or(list) => push_list(text, "(or", list.as_slice()),
    }
}

/// A list: its word, and its members.
#[cycle(push_expr)]
fn push_list(text: &mut String, word: &str, list: &[Expr]) -> Result<(), AllocError> {
    text.push_str(word)?;
    for expr in list {
        text.push_str(" ")?;
        push_expr(text, expr)?;
    }
    text.push_str(")")
}

/// A word, and an expression.
fn push_with(text: &mut String, word: &str, expr: &Expr) -> Result<(), AllocError> {
    text.push_str(word)?;
    push_expr(text, expr)
}

fn push_prompts(text: &mut String, list: &[Expr]) -> Result<(), AllocError> {
    for prompt in list {
        push_with(text, " prompt ", prompt)?;
    }
    Ok(())
}

fn push_selects(text: &mut String, word: &str, list: &[SelectOf]) -> Result<(), AllocError> {
    for select in list {
        push_between(text, word, select.target.text(), "")?;
        push_with(text, " if ", &select.cond)?;
    }
    Ok(())
}

fn push_default(text: &mut String, default: &DefaultOf) -> Result<(), AllocError> {
    push_with(text, " default ", &default.value)?;
    if let Some(value) = &default.text {
        push_between(text, " '", value.text(), "'")?;
    }
    push_with(text, " if ", &default.cond)
}

fn push_defaults(text: &mut String, list: &[DefaultOf]) -> Result<(), AllocError> {
    for default in list {
        push_default(text, default)?;
    }
    Ok(())
}

/// The number of a member's choice.
fn push_choice_number(text: &mut String, choice: Option<u32>) -> Result<(), AllocError> {
    match choice {
        Some(number) => Ok(write!(text, " in {number}")?),
        None => Ok(()),
    }
}

fn push_config(text: &mut String, config: &ConfigEntry) -> Result<(), AllocError> {
    push_between(text, config.name.text(), " ", kind_text(config.kind))?;
    push_choice_number(text, config.choice)?;
    push_with(text, " depends ", &config.depends)?;
    push_prompts(text, config.prompts.as_slice())?;
    push_defaults(text, config.defaults.as_slice())?;
    push_selects(text, " select ", config.selects.as_slice())?;
    push_selects(text, " imply ", config.implies.as_slice())?;
    text.push_str(if config.modules { " modules" } else { "" })
}

fn push_choice(text: &mut String, choice: &ChoiceEntry) -> Result<(), AllocError> {
    push_between(text, "choice ", kind_text(choice.kind), "")?;
    text.push_str(if choice.optional { " optional" } else { "" })?;
    push_prompts(text, choice.prompts.as_slice())?;
    push_selects(text, " default ", choice.defaults.as_slice())
}

/// What stands between two entries; nothing before the first.
fn push_gap(text: &mut String, between: &str) -> Result<(), AllocError> {
    if text.is_empty() {
        Ok(())
    } else {
        text.push_str(between)
    }
}

/// The configs and then the choices, with a text between two entries.
pub fn entries_text(alloc: Global, entries: &Entries, between: &str) -> Result<String, AllocError> {
    let mut text = String::new(alloc);
    for config in entries.configs.as_slice() {
        push_gap(&mut text, between)?;
        push_config(&mut text, config)?;
    }
    for choice in entries.choices.as_slice() {
        push_gap(&mut text, between)?;
        push_choice(&mut text, choice)?;
    }
    Ok(text)
}

/// The refusal on one line: its file and line, and what is wrong there.
pub fn refusal_text(alloc: Global, bad: &KconfBad) -> Result<String, AllocError> {
    match bad {
        KconfBad::Syntax { file, line, kind } => {
            format!(in alloc; "{}:{}: {:?}", file.text(), *line, *kind)
        }
        KconfBad::Missing { file } => format!(in alloc; "{}: Missing", file.text()),
        KconfBad::ReadFault { file } => format!(in alloc; "{}: ReadFault", file.text()),
        KconfBad::Macro { file, line } => format!(in alloc; "{}:{}: Macro", file.text(), *line),
        KconfBad::Depth { file, line, what } => {
            format!(in alloc; "{}:{}: {}", file.text(), *line, what.word())
        }
        KconfBad::TooLarge { what, count } => format!(in alloc; "{} {}", what.word(), *count),
        KconfBad::Oom => String::from_str(alloc, "Oom"),
    }
}
