use crate::answers::{held_implied_of, named_implied_of};
use std::test::Fail;
use test_texts::check_blocks;

/// An imply, one of a symbol with a dependency, and one of a tristate by another.
const IMPLIES: &str = r#"config A
 bool "a"
 select B
config B
 bool
=>
yes yes yes
yes (!y1|y0) (!y0|y1)
--
config A
 bool "a"
 select B
config B
 bool
 depends on C
config C
 bool "c"
=>
yes yes yes
yes (!y1|(y0&y2)) (!(y0&y2)|y1)
yes yes yes
--
config A
 bool "a"
 select B
config B
 bool "b"
 default y
=>
yes yes yes
yes yes yes
--
config M
 bool "m"
 modules
config A
 tristate "a"
 select B
config B
 tristate
 default m
 depends on C
config C
 bool "c"
=>
yes yes yes
(!y1|!m1) (!m1|y0) yes yes yes yes yes yes
(!y2|!m2) (!m2|y0) yes (!(y2|m2)|(((y1|m1)&y3)|(!(y1|m1)&y3))) (!(((y1|m1)&y3)|(!(y1|m1)&y3))|(y2|m2)) yes (!y2|((y1|m1)&y1&y3)|!y0) (!((y1|m1)&y1&y3)|y2)
yes yes yes
"#;

#[test]
fn an_implied_symbol_has_a_default_that_gives_way(rt: HostRuntime) -> Result<(), Fail> {
    check_blocks(rt.alloc(), IMPLIES, held_implied_of)
}

/// An implied symbol names what its places depend on, and who implies it.
const NAMES: &str = r#"config A
 bool "a"
 select B if D
config B
 bool
 depends on C
config C
 bool "c"
config D
 bool "d"
=>
s0::y0
s1:s2s0s3:y1
s2::y2
s3::y3
"#;

#[test]
fn an_implied_symbol_names_its_places(rt: HostRuntime) -> Result<(), Fail> {
    check_blocks(rt.alloc(), NAMES, named_implied_of)
}
