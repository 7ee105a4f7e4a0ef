use crate::answers::{text_of, value_of};
use std::test::Fail;
use test_texts::check_lines;

const VALUES: &str = r#"
-- a default of m is y for a bool
ymn - 2 | config A; bool "a"; modules; config B; tristate "b"; config C; bool; default B => y
-- the first member of a choice is y
ny y 0 | choice; bool "c"; config A; bool "a"; config B; bool "b"; endchoice => y
ny y 1 | choice; bool "c"; config A; bool "a"; config B; bool "b"; endchoice => n
"#;

#[test]
fn the_value_of_a_symbol(rt: HostRuntime) -> Result<(), Fail> {
    check_lines(rt.alloc(), VALUES, value_of)
}

/// A line for each symbol that counts as bool or tristate.
const TEXTS: &str = r##"
yn | config A; bool "a"; config B; bool "b" if A => CONFIG_A=y\n# CONFIG_B is not set\n
nny | config A; bool "a"; config B; int "b" if n; config C; bool "c" if A => # CONFIG_A is not set\nCONFIG_C=y\n
-- one of three values
ymn | config A; bool "a"; modules; config B; tristate "b"; config C; bool "c" if B => CONFIG_A=y\nCONFIG_B=m\n# CONFIG_C is not set\n
"##;

#[test]
fn the_text_of_a_configuration(rt: HostRuntime) -> Result<(), Fail> {
    check_lines(rt.alloc(), TEXTS, text_of)
}
