use crate::answers::{free_formula_of, held_free_of, held_of};
use std::alloc::Global;
use std::test::Fail;
use test_texts::{check_blocks, check_lines, tree_of};

/// An undeclared name is n.
const FIXED: &str = r#"config A
 bool "a" if Z
=>
yes !y0 yes
--
config A
 bool "a" if Z = y
=>
yes !y0 yes
--
config A
 bool "a" if Z && B
 default y if Q
config B
 bool "b"
=>
yes !y0 yes
yes yes yes
"#;

/// Or it has an item by its place among the undeclared names in order of bytes.
const FREE: &str = r#"config A
 bool "a" if Z
=>
yes (!y0|u0) yes
--
config A
 bool "a" if Z = y
=>
yes (!y0|u0) yes
--
config A
 bool "a" if Z && B
 default y if Q
config B
 bool "b"
=>
yes (!y0|(u1&y1)|u0) ((u1&y1)|!u0|y0)
yes yes yes
"#;

#[test]
fn undeclared_names_are_n_or_free(rt: HostRuntime) -> Result<(), Fail> {
    check_blocks(rt.alloc(), FIXED, held_of)?;
    check_blocks(rt.alloc(), FREE, held_free_of)
}

/// Conditions of declared and undeclared names.
const CONDITIONS: &str = "
Z => u1
!Q => !u0
A && Z => (y0&u1)
";

#[test]
fn a_condition_names_what_is_free(rt: HostRuntime) -> Result<(), Fail> {
    let text = "config A\n bool \"a\" if Z\nconfig B\n bool \"b\" if Q";
    let tree = tree_of(rt.alloc(), text)?;
    let answer = |alloc: Global, condition: &str| free_formula_of(alloc, &tree, condition);
    check_lines(rt.alloc(), CONDITIONS, answer)
}
