use crate::runs::run_block;
use std::alloc::Global;
use std::test::Fail;
use test_rows::check_blocks;

const GOLEM: &str = r#"-j golem --kbuild Makefile
@Makefile
obj-$(CONFIG_A) += a.o d/
@d/Makefile
obj-y += b.o
=>
a CONFIG_A
d/b CONFIG_A
status 0
--
-j golem --kbuild Makefile
@Makefile
ifdef CONFIG_A
obj-y += a.o
endif
=>
a "ifdef CONFIG_A"
status 0
--
-j golem --kbuild Makefile
@Makefile
w-y += p.o
obj-$(CONFIG_A) += w.o
=>
p CONFIG_A
w CONFIG_A
status 0
--
-j golem --kbuild Makefile
@Makefile
=>
status 0
--
-jgolem --kbuild=arch/x86/Kbuild
@arch/x86/Kbuild
obj-y := a.o b.o
obj-$(CONFIG_B) += b.o core/
@arch/x86/core/Kbuild
lib-m += c.o
=>
a y
b y || CONFIG_B
core/c CONFIG_B
status 0
--
-j golem --kbuild Makefile -t 64 --steps 0 --evidence a.c
@Makefile
obj-$(CONFIG_A) += a.o
=>
a CONFIG_A
status 0
"#;

#[test]
fn golem_prints_the_paths_of_each_object(rt: HostRuntime) -> Result<(), Fail> {
    let answer = |alloc: Global, given: &str| run_block(&rt, alloc, given);
    check_blocks(rt.alloc(), GOLEM, answer)
}
