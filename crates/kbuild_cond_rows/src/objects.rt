use crate::readings::read_alone;
use std::test::Fail;
use test_rows::check_lines;

const ENDINGS: &str = r#"
obj-y += a.o => a y
obj-m += a.o => a y
lib-y += a.o => a y
lib-m += a.o => a y
obj-$(CONFIG_A) += a.o => a CONFIG_A
obj-${CONFIG_A} += a.o => a CONFIG_A
lib-$(CONFIG_A) += a.o => a CONFIG_A
obj-$(CONFIG_a_9) += a.o => a CONFIG_a_9
obj-$(CONFIG_A-B) += a.o => a "$(CONFIG_A-B)"
obj-$(CONFIG_) += a.o => a "$(CONFIG_)"
obj-$(CONFIG_A)y += a.o => a "$(CONFIG_A)y"
obj-x$(CONFIG_A) += a.o => a "x$(CONFIG_A)"
obj-$(CONFIG_A)$(CONFIG_B) += a.o => a "$(CONFIG_A)$(CONFIG_B)"
obj-$(A) += a.o => a "$(A)"
obj-$(CONFIG_A} += a.o =>
obj-$(subst m,y,$(CONFIG_A)) += a.o => a "$(subst m,y,$(CONFIG_A))"
obj-n += a.o =>
obj- += a.o =>
obj += a.o =>
obj-yy += a.o =>
obj-x-y += a.o =>
lib-x-y += a.o =>
objs-y += a.o =>
always-y += a.o =>
"#;

#[test]
fn the_ending_of_a_variable_gives_a_step(rt: HostRuntime) -> Result<(), Fail> {
    check_lines(rt.alloc(), ENDINGS, read_alone)
}

const WORDS: &str = r"
obj-y += a.o b.o => a y;b y
obj-y += a.c b.h c =>
obj-y += .o a.o => a y
obj-y += ..o => . y
obj-y += d/a.o => d/a y
obj-y += ../a.o b.o => b y
obj-y += d/../a.o b.o => b y
obj-y += ..a.o => ..a y
obj-y += a..o => a. y
obj-y += d/..b/a.o => d/..b/a y
obj-y += /a.o b.o => b y
obj-y += ./a.o => ./a y
obj-y += a.o a.o => a y
obj-$(CONFIG_A) += a.o\nobj-$(CONFIG_B) += a.o => a CONFIG_A || CONFIG_B
obj-$(CONFIG_A) += a.o\nobj-y += a.o => a CONFIG_A || y
obj-$(CONFIG_A) += a.o\nobj-${CONFIG_A} += a.o => a CONFIG_A
obj-$(CONFIG_B) += b.o\nobj-$(CONFIG_A) += a.o b.o => b CONFIG_B || CONFIG_A;a CONFIG_A
lib-y += d/ a.o => a y
";

#[test]
fn words_name_objects(rt: HostRuntime) -> Result<(), Fail> {
    check_lines(rt.alloc(), WORDS, read_alone)
}

const PARTS: &str = r#"
w-y += p.o\nobj-$(CONFIG_A) += w.o => p CONFIG_A;w CONFIG_A
w-objs += p.o\nobj-$(CONFIG_A) += w.o => p CONFIG_A;w CONFIG_A
w-objs := p.o q.o\nobj-m += w.o => p y;q y;w y
w-m += p.o\nobj-$(CONFIG_A) += w.o => p CONFIG_A;w CONFIG_A
w-$(CONFIG_B) += p.o\nobj-$(CONFIG_A) += w.o => p CONFIG_A && CONFIG_B;w CONFIG_A
w-$(f x) += p.o\nobj-$(CONFIG_A) += w.o => p CONFIG_A && "$(f x)";w CONFIG_A
w-n += p.o\nobj-$(CONFIG_A) += w.o => w CONFIG_A
w-y += p.o =>
w-objs += p.o\nlib-$(CONFIG_A) += w.o => p CONFIG_A;w CONFIG_A
obj-$(CONFIG_A) += w.o\nobj-$(CONFIG_B) += w.o\nw-$(CONFIG_C) += p.o => w CONFIG_A || CONFIG_B;p CONFIG_A && CONFIG_C || CONFIG_B && CONFIG_C
obj-$(CONFIG_A) += w.o\nobj-$(CONFIG_B) += v.o\nv-y += p.o\nw-y += p.o => w CONFIG_A;v CONFIG_B;p CONFIG_B || CONFIG_A
obj-$(CONFIG_A) += w.o\nw-y += w.o => w CONFIG_A
obj-$(CONFIG_A) += w.o\nw-$(CONFIG_B) += w.o => w CONFIG_A || CONFIG_A && CONFIG_B
obj-$(CONFIG_A) += w.o\nw-y += v.o\nv-y += p.o => w CONFIG_A;v CONFIG_A
obj-$(CONFIG_A) += w.o\nobj-$(CONFIG_B) += v.o\nw-y += v.o\nv-y += p.o => w CONFIG_A;v CONFIG_B || CONFIG_A;p CONFIG_B
obj-$(CONFIG_A) += a-b.o\na-b-y += p.o => a-b CONFIG_A;p CONFIG_A
obj-$(CONFIG_A) += a.o\na-b-y += p.o => a CONFIG_A
obj-$(CONFIG_A) += w.o\nw-$(x-y) += p.o => w CONFIG_A;p CONFIG_A && "$(x-y)"
obj-$(CONFIG_A) += d/w.o\nd/w-y += d/p.o => d/w CONFIG_A;d/p CONFIG_A
obj-$(CONFIG_A) += w.o\nw-y += d/ p.o => w CONFIG_A;p CONFIG_A
obj-$(CONFIG_A) += w.o\nw-objs-y += p.o => w CONFIG_A
obj-$(CONFIG_A) += w.o\nobj-w-y += p.o => w CONFIG_A
"#;

#[test]
fn parts_have_the_paths_of_their_whole(rt: HostRuntime) -> Result<(), Fail> {
    check_lines(rt.alloc(), PARTS, read_alone)
}
