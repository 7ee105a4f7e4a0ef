use crate::answers::held_of;
use std::test::Fail;
use test_texts::check_blocks;

/// A select, a select against a dependency, and a default without a prompt.
const BOOLS: &str = r#"config A
 bool "a"
 select B
config B
 bool
=>
yes yes yes
(!y0|y1) (!y1|y0) yes
--
config C
 bool "c"
config B
 bool "b" if C
config A
 bool "a"
 select B
=>
yes yes yes
(!y2|y1) (!y1|y0|y2) yes
yes yes yes
--
config A
 bool "a"
config B
 bool "b" if A
config Z
 def_bool y
=>
yes yes yes
yes (!y1|y0) yes
yes yes y2
--
config P
 bool "p"
config Q
 bool "q"
config D
 def_bool y if P
 default Q
=>
yes yes yes
yes yes yes
yes (!y2|(y0|(!y0&y1))) (!(y0|(!y0&y1))|y2)
"#;

#[test]
fn bool_symbols_hold_what_their_properties_ask(rt: HostRuntime) -> Result<(), Fail> {
    check_blocks(rt.alloc(), BOOLS, held_of)
}
