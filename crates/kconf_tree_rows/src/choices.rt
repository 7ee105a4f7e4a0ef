use crate::answers::order_of;
use std::test::Fail;
use test_texts::check_lines;

/// Its members stand beside it.
const MEMBERS: &str = r#"
-- what refers to a member
choice; bool "c"; config A; bool "a"; config B; bool "b"; endchoice; config C; bool "c" if A => aABC
-- the choice's prompt
choice; bool "c" if C; config A; bool "a"; config B; bool "b"; endchoice; config C; bool "c" if A => aCa!
-- a member's prompt
choice; bool "c"; config A; bool "a"; config B; bool "b" if C; endchoice; config C; bool "c" => CaAB
-- a member that names another, or itself
choice; bool "c"; config A; bool "a"; config B; bool "b" if A; endchoice => aa!
choice; bool "c"; config A; bool "a" if A; endchoice => aa!
choice; bool "c"; config A; bool "a"; config B; bool "b"; endchoice; config A; bool; default B => aa!
choice; bool "c"; config A; bool "a"; config B; bool "b"; endchoice; config A; bool; default y if B => aa!
-- a member's select
choice; bool "c"; config A; bool "a"; config B; bool "b"; endchoice; config A; bool; select C; config C; bool "c" => aABC
-- a select of a member
choice; bool "c"; config A; bool "a"; config B; bool "b"; endchoice; config C; bool; select A; config C; bool "c" if A => aABC
-- a choice without members
config A; bool "a"; choice; bool "c"; endchoice => Aa
"#;

#[test]
fn a_choice_and_its_members_are_one_node(rt: HostRuntime) -> Result<(), Fail> {
    check_lines(rt.alloc(), MEMBERS, order_of)
}

/// A default that picks a member is no reference, its condition is one.
const DEFAULTS: &str = r#"
choice; bool "c"; default A; config A; bool "a"; config B; bool "b"; endchoice; config C; bool "c" if B => aABC
choice; bool "c"; default C; config A; bool "a"; config B; bool "b"; endchoice; config C; bool "c" if B => aCa!
choice; bool "c"; default A if C; config A; bool "a"; config B; bool "b"; endchoice; config C; bool "c" if B => aCa!
choice; bool "c"; default Z; config A; bool "a"; config B; bool "b"; endchoice; config C; bool "c" if B => aABC
choice; bool "c"; default C; config A; bool "a"; config B; bool "b"; endchoice; config C; bool "c" => CaAB
"#;

#[test]
fn defaults_of_a_choice(rt: HostRuntime) -> Result<(), Fail> {
    check_lines(rt.alloc(), DEFAULTS, order_of)
}

/// Members of one refer to the other.
const TWO_CHOICES: &str = r#"
choice; bool "c"; config A; bool "a"; endchoice; choice; bool "c"; config B; bool "b" if A; endchoice => aAbB
choice; bool "c"; config A; bool "a" if B; endchoice; choice; bool "c"; config B; bool "b"; endchoice => bBaA
choice; bool "c"; config A; bool "a" if B; endchoice; choice; bool "c"; config B; bool "b" if A; endchoice => aba!
choice; bool "c"; config A; bool "a"; endchoice; choice; bool "c"; default A; config B; bool "b" if A; endchoice => aAbB
choice; bool "c"; default B; config A; bool "a"; endchoice; choice; bool "c"; config B; bool "b" if A; endchoice => aba!
"#;

#[test]
fn two_choices(rt: HostRuntime) -> Result<(), Fail> {
    check_lines(rt.alloc(), TWO_CHOICES, order_of)
}

/// B is the modules symbol, and has a prompt if the member A.
const TRISTATE: &str = r#"
choice; tristate "c"; config A; bool "a"; endchoice; config B; bool "b" if A; modules => aBa!
choice; bool "c"; config A; bool "a"; endchoice; config B; bool "b" if A; modules => aAB
"#;

#[test]
fn a_tristate_choice_asks_for_the_modules_symbol(rt: HostRuntime) -> Result<(), Fail> {
    check_lines(rt.alloc(), TRISTATE, order_of)
}
