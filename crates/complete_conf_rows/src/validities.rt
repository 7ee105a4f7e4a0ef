use crate::answers::validity_of;
use std::test::Fail;
use test_texts::check_lines;

/// What a user sets, and what a select raises.
const PROMPTS: &str = r#"
-- a prompt bounds what a user sets
nn - - | config A; bool "a"; config B; bool "b" if A => y
yn - - | config A; bool "a"; config B; bool "b" if A => y
yy - - | config A; bool "a"; config B; bool "b" if A => y
ny - - | config A; bool "a"; config B; bool "b" if A => n
-- a select raises past the dependencies
nyy - - | config A; bool "a"; config B; bool "b" if A; config C; bool "c"; config C; bool; select B => y
nny - - | config A; bool "a"; config B; bool "b" if A; config C; bool "c"; config C; bool; select B => n
yyn - - | config A; bool "a"; config B; bool "b" if A; config C; bool "c"; config C; bool; select B => y
"#;

#[test]
fn prompts_and_selects(rt: HostRuntime) -> Result<(), Fail> {
    check_lines(rt.alloc(), PROMPTS, validity_of)
}

/// Which symbols can be m.
const THREE_VALUES: &str = r#"
-- m needs the modules symbol, which is bool
m - - | config A; tristate "a" => n
y - - | config A; tristate "a" => y
ymy - - | config A; bool "a"; modules; config B; tristate "b"; config C; bool "c" if B; config C; bool; default y if B => y
ymn - - | config A; bool "a"; modules; config B; tristate "b"; config C; bool "c" if B; config C; bool; default y if B => y
ymm - - | config A; bool "a"; modules; config B; tristate "b"; config C; bool "c" if B; config C; bool; default y if B => n
nmy - - | config A; bool "a"; modules; config B; tristate "b"; config C; bool "c" if B; config C; bool; default y if B => n
mnn - - | config A; bool "a"; modules; config B; tristate "b"; config C; bool "c" if B; config C; bool; default y if B => n
-- a bare m is n without modules
y - - | config A; tristate "a" if m => n
ym - - | config A; bool "a"; modules; config B; tristate "b" if m => y
yy - - | config A; bool "a"; modules; config B; tristate "b" if m => n
"#;

#[test]
fn three_values(rt: HostRuntime) -> Result<(), Fail> {
    check_lines(rt.alloc(), THREE_VALUES, validity_of)
}

/// The first default whose condition is not n.
const DEFAULTS: &str = r#"
-- the default counts where nobody can set the symbol
y - - | config A; bool; default y => y
n - - | config A; bool; default y => n
n - - | config A; bool "a"; config A; bool; default y => y
yn - - | config A; bool "a"; config B; bool; default n if A; config B; bool; default y => y
ny - - | config A; bool "a"; config B; bool; default n if A; config B; bool; default y => y
yy - - | config A; bool "a"; config B; bool; default n if A; config B; bool; default y => n
ym - - | config A; bool "a"; modules; config B; tristate "b" if n; config B; bool; default m => y
yy - - | config A; bool "a"; modules; config B; tristate "b" if n; config B; bool; default m => n
ny - - | config A; bool "a"; modules; config B; tristate "b" if n; config B; bool; default m => y
"#;

#[test]
fn defaults(rt: HostRuntime) -> Result<(), Fail> {
    check_lines(rt.alloc(), DEFAULTS, validity_of)
}

/// What names and comparisons stand for.
const TYPES: &str = r#"
-- other types have n and stand for n
nn - - | config A; int "a" if n; config B; bool "b" if A => y
yn - - | config A; int "a" if n; config B; bool "b" if A => n
y - - | config A; prompt "a" => n
-- undeclared names are n
y - - | config A; bool "a" if Z => n
y - - | config A; bool "a" if !Z => y
-- comparisons of three values, and others
yy - - | config A; bool "a"; config B; bool "b" if A = n => n
ny - - | config A; bool "a"; config B; bool "b" if A != y => y
yy - 1 | config A; bool "a"; config B; bool "b" if A = 5 => y
yy - 0 | config A; bool "a"; config B; bool "b" if A = 5 => n
"#;

#[test]
fn types_and_names(rt: HostRuntime) -> Result<(), Fail> {
    check_lines(rt.alloc(), TYPES, validity_of)
}

/// Exactly one member of those that can be y.
const CHOICES: &str = r#"
yn y - | choice; bool "c"; config A; bool "a"; config B; bool "b"; endchoice => y
yy y - | choice; bool "c"; config A; bool "a"; config B; bool "b"; endchoice => n
nn y - | choice; bool "c"; config A; bool "a"; config B; bool "b"; endchoice => n
nn n - | choice; bool "c"; config A; bool "a"; config B; bool "b"; endchoice => n
mn y - | choice; bool "c"; config A; bool "a"; config B; bool "b"; endchoice => n
nn n - | choice; bool "c"; optional; config A; bool "a"; config B; bool "b"; endchoice => y
yn n - | choice; bool "c"; optional; config A; bool "a"; config B; bool "b"; endchoice => n
nn m - | choice; bool "c"; optional; config A; bool "a"; config B; bool "b"; endchoice => n
nny y - | config A; bool "a"; choice; bool "c"; config B; bool "b" if A; config C; bool "c"; endchoice => y
nyn y - | config A; bool "a"; choice; bool "c"; config B; bool "b" if A; config C; bool "c"; endchoice => n
n y - | choice; bool "c"; config A; bool "a" if n; endchoice => y
n n - | choice; bool "c" if n; config A; bool "a"; endchoice => y
y y - | choice; bool "c" if n; config A; bool "a"; endchoice => n
"#;

#[test]
fn choices(rt: HostRuntime) -> Result<(), Fail> {
    check_lines(rt.alloc(), CHOICES, validity_of)
}

/// What an imply gives.
const IMPLIES: &str = r#"
-- an implied symbol without a prompt follows what implies it, as far as its dependency goes
ny - - | imply; config A; bool "a"; select B; config B; bool => n
yy - - | imply; config A; bool "a"; select B; config B; bool => y
yn - - | imply; config A; bool "a"; select B; config B; bool => n
yyn - - | imply; config A; bool "a"; select B; config B; bool; depends on C; config C; bool "c" => n
ynn - - | imply; config A; bool "a"; select B; config B; bool; depends on C; config C; bool "c" => y
yyy - - | imply; config A; bool "a"; select B; config B; bool; depends on C; config C; bool "c" => y
-- a user may still set one with a prompt to n
yn - - | imply; config A; bool "a"; select B; config B; bool "b" => y
yy - - | imply; config A; bool "a"; select B; config B; bool "b" => y
-- an imply raises a default and doesn't lower it
yyy - - | imply; config M; bool "m"; modules; config A; tristate "a"; select B; config B; tristate; default m => y
ymm - - | imply; config M; bool "m"; modules; config A; tristate "a"; select B; config B; tristate; default m => y
ymn - - | imply; config M; bool "m"; modules; config A; tristate "a"; select B; config B; tristate; default m => n
ymy - - | imply; config M; bool "m"; modules; config A; tristate "a"; select B; config B; tristate; default y => y
"#;

#[test]
fn implies(rt: HostRuntime) -> Result<(), Fail> {
    check_lines(rt.alloc(), IMPLIES, validity_of)
}

/// The modes of a tristate choice.
const MODES: &str = r#"
-- in mode y one member is y and the others are n
yyn y - | tristate; config M; bool "m"; modules; choice; bool "c"; config X; tristate "x"; config Y; tristate "y"; endchoice => y
yyy y - | tristate; config M; bool "m"; modules; choice; bool "c"; config X; tristate "x"; config Y; tristate "y"; endchoice => n
ynn y - | tristate; config M; bool "m"; modules; choice; bool "c"; config X; tristate "x"; config Y; tristate "y"; endchoice => n
yym y - | tristate; config M; bool "m"; modules; choice; bool "c"; config X; tristate "x"; config Y; tristate "y"; endchoice => n
-- in mode m each tristate member is n or m
ymm m - | tristate; config M; bool "m"; modules; choice; bool "c"; config X; tristate "x"; config Y; tristate "y"; endchoice => y
ynm m - | tristate; config M; bool "m"; modules; choice; bool "c"; config X; tristate "x"; config Y; tristate "y"; endchoice => y
ynn m - | tristate; config M; bool "m"; modules; choice; bool "c"; config X; tristate "x"; config Y; tristate "y"; endchoice => y
yym m - | tristate; config M; bool "m"; modules; choice; bool "c"; config X; tristate "x"; config Y; tristate "y"; endchoice => n
ymn m - | tristate; config M; bool "m"; modules; choice; bool "c"; config X; bool "x"; config Y; tristate "y"; endchoice => n
ynm m - | tristate; config M; bool "m"; modules; choice; bool "c"; config X; bool "x"; config Y; tristate "y" if n; endchoice => n
-- mode n only where it is optional
ynn n - | tristate; config M; bool "m"; modules; choice; bool "c"; config X; tristate "x"; config Y; tristate "y"; endchoice => n
ynn n - | tristate; config M; bool "m"; modules; choice; bool "c"; optional; config X; tristate "x"; config Y; tristate "y"; endchoice => y
-- seen as m it has no mode y, and is not raised
ymyn y - | tristate; config M; bool "m"; modules; config P; tristate "p"; choice; bool "c" if P; config X; tristate "x"; config Y; tristate "y"; endchoice => n
ymmn m - | tristate; config M; bool "m"; modules; config P; tristate "p"; choice; bool "c" if P; config X; tristate "x"; config Y; tristate "y"; endchoice => y
-- of members seen as m a bool can be y, and a tristate can't
ymyn y - | tristate; config M; bool "m"; modules; config P; tristate "p"; choice; bool "c"; config X; bool "x" if P; config Y; tristate "y" if P; endchoice => y
ymny y - | tristate; config M; bool "m"; modules; config P; tristate "p"; choice; bool "c"; config X; bool "x" if P; config Y; tristate "y" if P; endchoice => n
-- without modules it counts as bool
nyn y - | tristate; config M; bool "m"; modules; choice; bool "c"; config X; tristate "x"; config Y; tristate "y"; endchoice => y
nmn m - | tristate; config M; bool "m"; modules; choice; bool "c"; config X; tristate "x"; config Y; tristate "y"; endchoice => n
nnn m - | tristate; config M; bool "m"; modules; choice; bool "c"; config X; tristate "x"; config Y; tristate "y"; endchoice => n
yn y - | tristate; choice; bool "c"; config X; tristate "x"; config Y; tristate "y"; endchoice => y
"#;

#[test]
fn modes_of_tristate_choices(rt: HostRuntime) -> Result<(), Fail> {
    check_lines(rt.alloc(), MODES, validity_of)
}
