use crate::answers::{held_tristate_of, named_tristate_of};
use std::test::Fail;
use test_texts::check_blocks;

/// Two tristate members; an optional choice that is seen as far as a symbol, with a bool member and one that is seen as far
/// as another; and a tristate choice without modules.
const CHOICES: &str = r#"config M
 bool "m"
 modules
choice
 bool "c"
config X
 tristate "x"
config Y
 tristate "y"
endchoice
=>
yes yes yes


(!c0|!d0) (!d0|y0) yes yes yes (c0|d0) (!y1|c0) yes (!y2|c0) yes (!m1|d0) yes (!m2|d0) yes (!y1|!y2) (!c0|y1|y2) (!c0|y1|y2)
--
config M
 bool "m"
 modules
config P
 tristate "p"
choice
 bool "c" if P
 optional
config X
 bool "x"
config Y
 tristate "y" if P
endchoice
=>
yes yes yes
(!y1|!m1) (!m1|y0) yes yes yes yes yes yes


(!c0|!d0) (!d0|y0) (!c0|(y1|m1)) (!c0|y1|!y0) (!d0|(y1|m1)) (!y2|c0) yes (!y3|c0) (!y3|(y1|(!y0&(y1|m1)))) (!m3|d0) (!m3|(y1|m1)) (!y2|!y3) (!c0|y2|y3) (!c0|!(y1|(!y0&(y1|m1)))|y2|y3)
--
choice
 bool "c"
config X
 tristate "x"
endchoice
=>

(!c0|!d0) !d0 yes yes yes (c0|d0) (!y0|c0) yes (!m0|d0) yes (!c0|y0)
"#;

#[test]
fn modes_and_members(rt: HostRuntime) -> Result<(), Fail> {
    check_blocks(rt.alloc(), CHOICES, held_tristate_of)
}

/// A tristate choice has two items, and so has a member that is no bool.
const NAMES: &str = r#"config M
 bool "m"
 modules
choice
 bool "c"
config X
 bool "x"
config Y
 tristate "y"
endchoice
=>
s0::y0
s1:c0:y1
s2:c0:y2m2
c0:s1s2s0s0:c0d0
"#;

#[test]
fn items_and_names(rt: HostRuntime) -> Result<(), Fail> {
    check_blocks(rt.alloc(), NAMES, named_tristate_of)
}
