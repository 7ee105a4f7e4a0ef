use crate::answers::{numbers_of, selectors_of, undeclared_of};
use std::test::Fail;
use test_texts::check_lines;

/// What stands in outer conditions alone, and targets, are left out.
const UNDECLARED: &str = r#"
-- rising, and each once
config A; bool "a" if Z; config B; bool; default X => XZ
config A; bool "a" if Z; config B; bool "b" if Z => Z
config A; bool "a" if B; config B; bool "b" =>
config A; bool; default Z => Z
config A; bool; default y if Z => Z
config A; bool; depends on Z => Z
-- a select's condition, and not its target
config A; bool; select B if Z; config B; bool "b" => Z
config A; bool; select Z =>
config A; bool; imply B if Z; config B; bool "b" => Z
-- a side
config A; bool "a" if B = Z; config B; bool "b" => Z
config A; bool "a" if X = Z => XZ
-- an outer condition
config A; bool "a" if B < Z; config B; bool "b" =>
config A; bool "a" if Z = 5 =>
config A; bool "a" if B = Z; config B; int "b" =>
-- a choice
choice; bool "c" if Z; config A; bool "a"; endchoice => Z
choice; bool "c"; default A if Z; config A; bool "a"; endchoice => Z
choice; bool "c"; default Z; config A; bool "a"; endchoice =>
"#;

#[test]
fn undeclared_names_of_three_valued_expressions(rt: HostRuntime) -> Result<(), Fail> {
    check_lines(rt.alloc(), UNDECLARED, undeclared_of)
}

/// In order of declaration, for each select.
const SELECTORS: &str = r#"
config A; bool "a"; config B; bool; select A; config C; bool; select A if B => B0C0
config A; bool "a"; config B; bool; select A; config C; bool; select A; config B; bool; select A => B0B1C0
config A; bool "a"; config B; bool; select Z; config C; bool; select A; config B; bool; select A => B1C0
config A; bool "a"; config B; bool; imply A =>
config A; bool "a"; config B; bool; select Z; config C; bool; select A => C0
config A; bool "a"; config B; bool; select A; config C; bool; select B => B0
"#;

#[test]
fn who_selects(rt: HostRuntime) -> Result<(), Fail> {
    check_lines(rt.alloc(), SELECTORS, selectors_of)
}

/// By the text, and by its sides and sign.
const NUMBERS: &str = r#"
config A; bool "a" if B < C; config B; bool "b"; config C; bool "c" => 00
-- the sides in the other order
config A; bool "a" if C < B; config A; bool "a" if B < C; config B; bool "b"; config C; bool "c" => 11
config A; bool "a" if C < B; config B; bool "b"; config C; bool "c" => --
-- another sign
config A; bool "a" if B = 5; config A; bool "a" if B < C; config B; bool "b"; config C; bool "c" => 11
-- no outer condition
config A; bool "a" if B = C; config B; bool "b"; config C; bool "c" => --
config A; bool "a" if B = C; config B; int "b"; config A; bool "a" if B < C; config C; bool "c" => 11
"#;

#[test]
fn numbers_of_a_comparison(rt: HostRuntime) -> Result<(), Fail> {
    check_lines(rt.alloc(), NUMBERS, numbers_of)
}
