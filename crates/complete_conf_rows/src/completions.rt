use crate::answers::completed;
use std::test::Fail;
use test_texts::check_lines;

/// What is known stays.
const SYMBOLS: &str = r#"
-- what is known stays, the rest gets its default, or n
yyn 110 - - | config A; bool "a"; config B; bool "b" if A; config C; bool; default y => yyy,
nnn 110 - - | config A; bool "a"; config B; bool "b" if A; config C; bool; default y => nny,
yyn 000 - - | config A; bool "a"; config B; bool "b" if A; config C; bool; default y => nny,
-- a select raises what is not known, and it comes after its selectors
ny 01 - - | config A; tristate "a" if n; config B; bool "b"; config B; bool; select A => yy,
-- a bool has no m
ymn 110 - - | config A; bool "a"; modules; config B; tristate "b"; config C; bool "c" if B; config C; bool; default y if B => ymy,
"#;

#[test]
fn symbols_are_completed(rt: HostRuntime) -> Result<(), Fail> {
    check_lines(rt.alloc(), SYMBOLS, completed)
}

/// The member that a choice picks.
const CHOICES: &str = r#"
-- the first member, or the first default that can be, or none
nn 00 n 0 | choice; bool "c"; config A; bool "a"; config B; bool "b"; endchoice => yn,y
ny 11 y 1 | choice; bool "c"; config A; bool "a"; config B; bool "b"; endchoice => ny,y
yn 00 y 0 | choice; bool "c"; optional; config A; bool "a"; config B; bool "b"; endchoice => nn,n
nnn 000 n 0 | config A; bool "a"; choice; bool "c"; config B; bool "b" if A; config C; bool "c"; endchoice => nny,y
nn 00 n 0 | choice; bool "c"; default B; config A; bool "a"; config B; bool "b"; endchoice => ny,y
nn 00 n 0 | choice; bool "c"; default B; config A; bool "a"; config B; bool "b" if n; endchoice => yn,y
nn 00 n 0 | choice; bool "c"; default B if n; config A; bool "a"; config B; bool "b"; endchoice => yn,y
"#;

#[test]
fn choices_are_completed(rt: HostRuntime) -> Result<(), Fail> {
    check_lines(rt.alloc(), CHOICES, completed)
}

/// Implied symbols, and tristate choices.
const NEWER: &str = r#"
-- an implied symbol follows what implies it, as far as its dependency goes
yn 10 - - | imply; config A; bool "a"; select B; config B; bool "b" => yy,
nn 10 - - | imply; config A; bool "a"; select B; config B; bool "b" => nn,
ynn 101 - - | imply; config A; bool "a"; select B; config B; bool "b"; depends on C; config C; bool "c" => ynn,
yny 101 - - | imply; config A; bool "a"; select B; config B; bool "b"; depends on C; config C; bool "c" => yyy,
-- the least mode: m with modules, y without, n where the choice is optional or not seen
ynn 100 n 0 | tristate; config M; bool "m"; modules; choice; bool "c"; config X; tristate "x"; config Y; tristate "y"; endchoice => ynn,m
nnn 100 n 0 | tristate; config M; bool "m"; modules; choice; bool "c"; config X; tristate "x"; config Y; tristate "y"; endchoice => nyn,y
ynn 100 n 0 | tristate; config M; bool "m"; modules; choice; bool "c"; optional; config X; tristate "x"; config Y; tristate "y"; endchoice => ynn,n
ynn 100 n 0 | tristate; config M; bool "m"; modules; choice; bool "c" if n; config X; tristate "x"; config Y; tristate "y"; endchoice => ynn,n
-- a known choice stays
yny 111 y 1 | tristate; config M; bool "m"; modules; choice; bool "c"; config X; tristate "x"; config Y; tristate "y"; endchoice => yny,y
ymm 111 m 1 | tristate; config M; bool "m"; modules; choice; bool "c"; config X; tristate "x"; config Y; tristate "y"; endchoice => ymm,m
"#;

#[test]
fn newer_forms_are_completed(rt: HostRuntime) -> Result<(), Fail> {
    check_lines(rt.alloc(), NEWER, completed)
}
