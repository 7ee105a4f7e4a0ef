use crate::answers::order_of;
use std::test::Fail;
use test_texts::check_lines;

/// The other symbol has a prompt if this one: a reference that counts makes a cycle.
const REFERENCES: &str = r#"
-- a prompt
config A; bool "a" if B; config B; bool "b" if A => ABA!
-- a default's value, and its condition
config A; bool; default B; config B; bool "b" if A => ABA!
config A; bool; default y if B; config B; bool "b" if A => ABA!
-- a select leads from its target to the symbol that has it
config A; bool; select B; config B; bool "b" if A => AB
config A; bool; select B; config A; bool "a" if B; config B; bool "b" => ABA!
-- and to what its condition names
config A; bool; select B if C; config B; bool "b" if A; config C; bool "c" if B => BCB!
-- so does an imply
config A; bool; imply B; config A; bool "a" if B; config B; bool "b" => ABA!
-- a dependency alone counts where some symbol implies
config A; bool; depends on B; config B; bool "b" if A => AB
config A; bool; depends on C; config B; bool; imply A; config C; bool "c" if A; config B; bool "b" => ACA!
-- what is undeclared is no symbol
config A; bool "a" if Z; config B; bool "b" if A => AB
config A; bool; select Z; config B; bool "b" if A => AB
"#;

#[test]
fn what_counts_as_a_reference(rt: HostRuntime) -> Result<(), Fail> {
    check_lines(rt.alloc(), REFERENCES, order_of)
}

/// Each property that counts, of one symbol.
const ITSELF: &str = r#"
config A; bool "a" if A => AA!
config A; bool; default A => AA!
config A; bool; default y if A => AA!
config A; bool; select A => AA!
config A; bool; imply A => AA!
config A; bool; depends on A => A
config A; bool; depends on A; config A; bool; imply A => AA!
config A; bool "a"; config A; bool; default A => AA!
"#;

#[test]
fn a_symbol_that_refers_to_itself(rt: HostRuntime) -> Result<(), Fail> {
    check_lines(rt.alloc(), ITSELF, order_of)
}

/// The sides of a comparison of two of the three values, and of no other.
const COMPARISONS: &str = r#"
config A; bool "a" if B = C; config B; bool "b" if A; config C; bool "c" if A => ABA!
config A; bool "a" if C != B; config B; bool "b" if A; config C; bool "c" if A => ABA!
-- an outer condition
config A; bool "a" if B < C; config B; bool "b" if A; config C; bool "c" if B => ABC
config A; bool "a" if B = 5; config B; bool "b" if A => AB
config A; bool "a" if B = y; config B; bool "b" if A => ABA!
config A; bool "a" if B = Z; config B; bool "b" if A => ABA!
-- a number
config A; bool "a" if B = C; config B; int "b" if A; config C; bool "c" if B => ABC
-- a symbol without a type
config A; bool "a" if B = C; config B; prompt "b" if A; config C; bool "c" if B => ABA!
"#;

#[test]
fn what_a_comparison_refers_to(rt: HostRuntime) -> Result<(), Fail> {
    check_lines(rt.alloc(), COMPARISONS, order_of)
}

/// B is the modules symbol, and has a prompt if A.
const MODULES: &str = r#"
-- a tristate symbol
config A; tristate "a"; config B; bool "b" if A; modules => ABA!
config A; bool "a"; config B; bool "b" if A; modules => AB
-- without a modules symbol
config A; tristate "a"; config B; bool "b" if A => AB
-- a bare m in a condition
config A; bool "a" if m; config B; bool "b" if A; modules => ABA!
config A; bool; default y if m; config B; bool "b" if A; modules => ABA!
-- as a default's value
config A; bool; default m; config B; bool "b" if A; modules => AB
-- the first type counts
config A; prompt "a"; config A; tristate "a"; config B; bool "b" if A; modules => ABA!
config A; bool "a"; config A; tristate "a"; config B; bool "b" if A; modules => AB
-- the modules symbol itself
config A; bool "a"; modules; config A; tristate "a" => A
"#;

#[test]
fn what_asks_for_the_modules_symbol(rt: HostRuntime) -> Result<(), Fail> {
    check_lines(rt.alloc(), MODULES, order_of)
}
