use kconf_entries::{DefaultOf, Expr, Kind, SelectOf};
use ut_base::Name;
use ut_logic::Text;

/// An attribute of a config. Each condition is that of the line's own `if`.
#[derive(Drop)]
pub enum ConfigLine {
    /// A type line, with its prompt.
    Typed(Kind, Option<Expr>),
    /// A type line with a default.
    TypedDefault(Kind, DefaultOf),
    Prompt(Expr),
    Default(DefaultOf),
    DependsOn(Expr),
    Select(SelectOf),
    Imply(SelectOf),
    Range,
    Modules,
    /// Any `option`, and whether it is `option modules`.
    AnyOption(bool),
    Help,
}

/// An attribute of a choice.
#[derive(Drop)]
pub enum ChoiceLine {
    /// A type line, with its prompt.
    Typed(Kind, Option<Expr>),
    Prompt(Expr),
    Default(SelectOf),
    DependsOn(Expr),
    Optional,
    Help,
}

/// An attribute of a menu.
#[derive(Drop)]
pub enum MenuLine {
    DependsOn(Expr),
    VisibleIf(Expr),
}

/// What encloses lines: what an end word ends, and the `source` line that leads to a text.
#[derive(Clone, Copy, Debug, PartialEq, Eq)]
pub enum Opens {
    Menu,
    Choice,
    If,
    Source,
}

/// An entry or an end word.
#[derive(Drop)]
pub enum EntryLine {
    MainMenu,
    Comment,
    Menu,
    Config(Text),
    Choice(Option<Text>),
    If(Expr),
    End(Opens),
    Source(Name),
}

/// The entry that attributes belong to.
#[derive(Clone, Copy, Debug, PartialEq, Eq)]
pub enum Owner {
    /// None: at the start of a text, and after `mainmenu`, `if`, `source` and end words.
    Nothing,
    Config,
    Choice,
    Menu,
    Comment,
}

/// What a line says.
#[derive(Drop)]
pub enum Says {
    Entry(EntryLine),
    OfConfig(ConfigLine),
    OfChoice(ChoiceLine),
    OfMenu(MenuLine),
    /// The condition of a comment, which has no effect.
    OfComment,
}
