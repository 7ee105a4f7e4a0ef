use crate::answers::named_of;
use std::test::Fail;
use test_texts::check_blocks;

/// A fact names what its node refers to, members and choice both ways; its items are its own and the loose ones.
const NAMES: &str = r#"config A
 bool "a"
 select B
config B
 bool
=>
s0::y0
s1:s0:y1
--
config M
 bool "m"
 modules
config A
 tristate "a"
config B
 bool "b" if A
=>
s0::y0
s1:s0:y1m1
s2:s1:y2
--
config A
 bool "a" if X
choice
 bool "c"
config X
 bool "x"
config Y
 bool "y"
endchoice
=>
s0:c0:y0
s1:c0:y1
s2:c0:y2
c0:s1s2:c0
--
config A
 bool "a" if $(X)
config S
 int "s" if A
=>
s0::y0o0
s1:s0:
"#;

#[test]
fn facts_name_what_their_nodes_refer_to(rt: HostRuntime) -> Result<(), Fail> {
    check_blocks(rt.alloc(), NAMES, named_of)
}
