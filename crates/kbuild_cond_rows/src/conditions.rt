use crate::readings::read_alone;
use std::test::Fail;
use test_rows::check_lines;

const STEPS: &str = r#"
ifdef CONFIG_A\nobj-y += a.o\nendif => a "ifdef CONFIG_A"
ifndef CONFIG_A\nobj-y += a.o\nendif => a "ifndef CONFIG_A"
ifeq ($(A),y)\nobj-y += a.o\nendif => a "ifeq ($(A),y)"
ifneq ($(A), y)\nobj-y += a.o\nendif => a "ifneq ($(A), y)"
ifeq  "a"\t"b"\nobj-y += a.o\nendif => a "ifeq "a" "b""
ifdef CONFIG_A # c\nobj-$(CONFIG_B) += a.o\nendif\nobj-y += b.o => a "ifdef CONFIG_A" && CONFIG_B;b y
ifdef A\nobj-y += a.o\nelse\nobj-y += b.o\nendif => a "ifdef A";b "else ifdef A"
ifdef A\nelse ifdef B\nobj-y += b.o\nendif => b "else ifdef A ifdef B"
ifdef A\nelse ifdef B\nelse\nobj-y += b.o\nendif => b "else ifdef A"
ifdef A\nelse\nelse ifdef C\nobj-y += b.o\nendif => b "else ifdef A ifdef C"
ifdef A\nifdef B\nobj-y += a.o\nendif\nobj-y += b.o\nendif => a "ifdef A" && "ifdef B";b "ifdef A"
ifdef A\nifdef B\nelse\nobj-y += a.o\nendif\nelse\nobj-y += b.o\nendif => a "ifdef A" && "else ifdef B";b "else ifdef A"
ifdef A\nw-$(CONFIG_B) += p.o\nendif\nobj-$(CONFIG_C) += w.o => p CONFIG_C && "ifdef A" && CONFIG_B;w CONFIG_C
ifdef A\nobj-$(CONFIG_C) += w.o\nendif\nw-y += p.o => w "ifdef A" && CONFIG_C;p "ifdef A" && CONFIG_C
  ifdef A\n  obj-y += a.o\n  endif => a "ifdef A"
ifdef A\\\nB\nobj-y += a.o\nendif => a "ifdef A B"
ifdef A\nobj-y += a.o\nendif x => a "ifdef A"
ifdef = x\nobj-y += a.o => a y
endif = x\nobj-y += a.o => a y
"#;

#[test]
fn conditional_lines_give_a_free_step(rt: HostRuntime) -> Result<(), Fail> {
    check_lines(rt.alloc(), STEPS, read_alone)
}

const PARTNERS: &str = r"
endif => Makefile:1: kbuild
else => Makefile:1: kbuild
ifdef A => Makefile:1: kbuild
obj-y += a.o\nendif => Makefile:2: kbuild
ifdef A\nendif\nendif => Makefile:3: kbuild
ifdef A\nendif\nelse => Makefile:3: kbuild
ifdef A\nifdef B\nendif => Makefile:1: kbuild
ifdef A\nendif\nifdef B\nifdef C => Makefile:3: kbuild
endif\nifdef A => Makefile:1: kbuild
\\\n\\\nendif => Makefile:1: kbuild
a \\\nb\nendif => Makefile:3: kbuild
ifdef A\nelse\nelse\nendif\nobj-y += a.o => a y
ifeq(a,b)\nobj-y += a.o => a y
ifdefA\nobj-y += a.o => a y
else:\nendifx\nobj-y += a.o => a y
elseif =>
";

#[test]
fn conditional_lines_have_partners(rt: HostRuntime) -> Result<(), Fail> {
    check_lines(rt.alloc(), PARTNERS, read_alone)
}
