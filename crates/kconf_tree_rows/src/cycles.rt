use crate::answers::order_of;
use std::test::Fail;
use test_texts::check_lines;

/// The first symbol that lies on one, its shortest, and of these the least.
const CYCLES: &str = r#"
config A; bool "a" if B; config B; bool "b" if C; config C; bool "c" if A => ABCA!
config A; bool "a" if B; config B; bool "b" if C; config C; bool "c" if D; config D; bool "d" if E; config E; bool "e" if A => ABCDEA!
-- two of one length
config A; bool "a" if B && C; config B; bool "b" if A; config C; bool "c" if A => ABA!
config A; bool "a" if C && B; config B; bool "b" if A; config C; bool "c" if A => ABA!
config A; bool "a" if B && C; config B; bool "b" if D; config C; bool "c" if D; config D; bool "d" if A => ABDA!
-- a shorter one by a later symbol
config A; bool "a" if B && D; config B; bool "b" if C; config C; bool "c" if A; config D; bool "d" if A => ADA!
-- a symbol that leads to a cycle and lies on none
config A; bool "a" if B; config B; bool "b" if C; config C; bool "c" if B => BCB!
config A; bool "a"; config B; bool "b" if A; config C; bool "c" if D; config D; bool "d" if C => CDC!
-- of two of one length the one by the lesser symbol, written second
config A; bool "a" if D && C; config B; bool "b" if B; config C; bool "c" if A; config D; bool "d" if A => ACA!
-- the first three of six symbols lie on none
config A; bool "a" if B; config B; bool "b" if F; config C; bool "c"; config D; bool "d" if E && F; config E; bool "e" if D; config F; bool "f" if E => DED!
config A; bool "a" if C; config B; bool "b" if C; config C; bool "c" if E && D; config D; bool "d" if B; config E; bool "e" if B => BCDB!
-- against the selects
config A; bool; select B; config B; bool; select C; config C; bool; select A => ACBA!
-- by a select and two prompts
config A; bool; select B; config B; bool "b"; config C; bool "c" if B; config A; bool "a" if C => ACBA!
"#;

#[test]
fn which_cycle_is_named(rt: HostRuntime) -> Result<(), Fail> {
    check_lines(rt.alloc(), CYCLES, order_of)
}

/// Each symbol after all that it refers to.
const CHAINS: &str = r#"
config A; bool "a" => A
config A; bool "a" if B; config B; bool "b" if C; config C; bool "c" => CBA
config A; bool "a"; config B; bool "b" if A; config C; bool "c" if B => ABC
-- one reference written twice, and two ways to one symbol
config A; bool "a"; config B; bool "b" if A && A; config C; bool "c" if B && A => ABC
config A; bool "a" if B && C; config B; bool "b" if D; config C; bool "c" if D && B; config D; bool "d" => DBCA
-- one symbol in two places
config A; bool "a" if B; config B; bool "b" if C; config C; bool "c"; config A; bool "a" if C => CBA
config A; bool "a"; config B; bool "b"; config A; bool; default B => BA
config A; bool "a" if C; config B; bool "b" if A; config C; bool "c" => CAB
config A; bool; select B; config B; bool "b"; config B; bool; select C; config C; bool "c" => ABC
"#;

#[test]
fn chains_have_one_order(rt: HostRuntime) -> Result<(), Fail> {
    check_lines(rt.alloc(), CHAINS, order_of)
}
