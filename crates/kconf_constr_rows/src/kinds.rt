use crate::answers::held_of;
use std::test::Fail;
use test_texts::check_blocks;

/// Without modules m is no value, and a bool takes y for the m of what it depends on.
const TRISTATES: &str = r#"config M
 bool "m"
 modules
config A
 tristate "a"
config B
 tristate "b" if A
=>
yes yes yes
(!y1|!m1) (!m1|y0) yes yes yes yes yes yes
(!y2|!m2) (!m2|y0) yes (!(y2|m2)|(y1|m1)) yes yes (!y2|y1|!y0) yes
--
config M
 bool "m"
 modules
config A
 tristate "a"
config B
 bool "b" if A
=>
yes yes yes
(!y1|!m1) (!m1|y0) yes yes yes yes yes yes
yes (!y2|(y1|m1)) yes
--
config A
 tristate "a"
=>
(!y0|!m0) !m0 yes yes yes yes yes yes
--
config S
 int "s"
config N
 prompt "n"
config A
 bool "a" if S
=>


yes !y2 yes
"#;

#[test]
fn tristate_symbols_hold_both_values(rt: HostRuntime) -> Result<(), Fail> {
    check_blocks(rt.alloc(), TRISTATES, held_of)
}

/// In mode y one visible member is y; an optional choice may have mode n.
const CHOICES: &str = r#"choice
 bool "c"
config X
 bool "x"
config Y
 bool "y"
endchoice
=>


yes c0 (!y0|c0) yes (!y1|c0) yes (!y0|!y1) (!c0|y0|y1) (!c0|y0|y1)
--
choice
 bool "c"
 optional
config X
 bool "x"
config Y
 bool "y"
endchoice
=>


yes (!y0|c0) yes (!y1|c0) yes (!y0|!y1) (!c0|y0|y1) (!c0|y0|y1)
--
config A
 bool "a"
choice
 bool "c" if A
config X
 bool "x" if A
endchoice
=>
yes yes yes

(!c0|y0) (!y0|c0) (!y1|c0) (!y1|y0) (!c0|!y0|y1)
"#;

#[test]
fn a_choice_holds_what_its_members_do(rt: HostRuntime) -> Result<(), Fail> {
    check_blocks(rt.alloc(), CHOICES, held_of)
}
