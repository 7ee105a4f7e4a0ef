use crate::readings::read_alone;
use std::test::Fail;
use test_rows::check_lines;

// In a row `\\n` is a backslash and then `n`, so a backslash and a newline are `\\\n`.
const LINES: &str = r"
obj-y += a.o \\\n b.o => a y;b y
obj-y += a.o\\\nb.o => a y;b y
obj-y \\\n+= a.o => a y
obj-y += a.o \\\r\n b.o\r\n => a y;b y
obj-y += a.o \\\n => a y
obj-y += a.o\\ => a y
obj-y += a.o \\ \nb.o => a y
obj-y += a.o # b.o => a y
obj-y += a.o # b.o \\\n c.o\nobj-y += d.o => a y;d y
# obj-y += a.o =>
obj-y += a.o#b.o => a y
obj-y += $(x # y) a.o =>
obj-y += a.o\nobj-y += b.o => a y;b y
\tobj-y\t+=\ta.o\tb.o => a y;b y
obj-y += a.o\rb.o => a.o\rb y
 =>
\n\n =>
";

#[test]
fn lines_are_joined_and_comments_cut(rt: HostRuntime) -> Result<(), Fail> {
    check_lines(rt.alloc(), LINES, read_alone)
}

const ASSIGNMENTS: &str = r#"
obj-y = a.o => a y
obj-y := a.o => a y
obj-y += a.o => a y
obj-y ?= a.o => a y
obj-y=a.o => a y
obj-y:=a.o => a y
obj-y+=a.o => a y
obj-y?=a.o => a y
obj-y =a.o => a y
obj-y = a.o\nobj-y := b.o\nobj-y ?= c.o => a y;b y;c y
obj-y a.o =>
obj-y : a.o =>
obj-y x = a.o =>
= a.o =>
+= a.o =>
override obj-y += a.o =>
export obj-y := a.o =>
obj-y += a=b.o => a=b y
obj-$(x=y) += a.o => a "$(x=y)"
$(obj)-y += a.o =>
obj-y += =>
obj-y != a.o =>
obj-y ::= a.o =>
include obj-y =>
"#;

#[test]
fn an_assignment_has_one_variable_and_a_sign(rt: HostRuntime) -> Result<(), Fail> {
    check_lines(rt.alloc(), ASSIGNMENTS, read_alone)
}

const CALLS: &str = r#"
obj-y += $(a b.o) c.o => c y
obj-y += $(a $(b c.o) d.o) e.o => e y
obj-y += ${a b.o} c.o => c y
obj-y += $(a {b) c.o => c y
obj-y += $(a ${b) c.o} d.o => d y
obj-y += $(a (b) c.o) d.o => d y
obj-y += $(a b.o =>
obj-y += a.o $(b c.o => a y
obj-y += ${a b.o =>
obj-y += x$(a).o b.o => b y
obj-y += $x.o => $x y
obj-y += $( =>
obj-y += a.o $) b.o => a y;b y
obj-$(a += b.o =>
obj-$$(a) += b.o => b "$$(a)"
"#;

#[test]
fn a_macro_call_belongs_to_its_word(rt: HostRuntime) -> Result<(), Fail> {
    check_lines(rt.alloc(), CALLS, read_alone)
}
