use crate::readings::{read_among, read_block};
use kbuild_cond::read_kbuild;
use std::test::Fail;
use test_rows::{check_blocks, files_of};
use ut_base::{Meter, Name};

const FOLDERS: &str = r#"@Makefile
obj-$(CONFIG_A) += a.o d/
@d/Makefile
obj-y += b.o
=>
a CONFIG_A
d/b CONFIG_A
--
@Makefile
obj-y += d/
=>
d/Makefile: missing
--
@Makefile
obj-y += d/
@d/Kbuild
obj-y += k.o
@d/Makefile
obj-y += m.o
=>
d/k y
--
@Makefile
obj-$(CONFIG_A) += d/
obj-$(CONFIG_B) += d/
@d/Makefile
obj-$(CONFIG_C) += a.o
obj-$(CONFIG_D) += a.o
=>
d/a CONFIG_A && CONFIG_C || CONFIG_B && CONFIG_C || CONFIG_A && CONFIG_D || CONFIG_B && CONFIG_D
--
@Makefile
obj-$(CONFIG_A) += a/b/
obj-$(CONFIG_B) += a/
@a/Makefile
obj-$(CONFIG_C) += b/ x.o
@a/b/Makefile
obj-y += y.o
=>
a/b/y CONFIG_A || CONFIG_B && CONFIG_C
a/x CONFIG_B && CONFIG_C
--
@Makefile
obj-y += a/b/ a/
@a/b/Makefile
obj-$(CONFIG_A) += c/
@a/Makefile
obj-$(CONFIG_B) += b/c/
@a/b/c/Makefile
obj-y += z.o
=>
a/b/c/z CONFIG_A || CONFIG_B
--
@Makefile
obj-$(CONFIG_A) += a/b/
obj-$(CONFIG_B) += a/
obj-$(CONFIG_C) += a/b/
@a/b/Makefile
obj-y += y.o
@a/Makefile
obj-y += b/
obj-$(CONFIG_A) += b/
=>
a/b/y CONFIG_A || CONFIG_C || CONFIG_B || CONFIG_B && CONFIG_A
--
@Makefile
obj-y += a/ b/
@a/Makefile
obj-y += c/
@b/Makefile
obj-y += x.o
@a/c/Makefile
obj-y += y.o
=>
b/x y
a/c/y y
--
@Makefile
obj-y += d/a.o d/
@d/Makefile
obj-$(CONFIG_A) += a.o
=>
d/a y || CONFIG_A
--
@Makefile
obj-y += ./ ../ /x/ d/../e/ $(f)/
@./Makefile
obj-y += a.o
=>
./a y
--
@Makefile
obj-y += d/
ifdef A
@d/Makefile
obj-y += a.o
=>
Makefile:2: kbuild
--
@Makefile
obj-y += d/ e/
@d/Makefile
endif
=>
d/Makefile:1: kbuild
--
@Makefile
obj-y += d/ e/
@d/Kbuild
endif
@e/Kbuild
obj-y += a.o
=>
d/Kbuild:1: kbuild
--
@Makefile
ifdef A
obj-y += d/
endif
@d/Makefile
obj-$(CONFIG_A) += w.o
w-y += p.o
=>
d/w "ifdef A" && CONFIG_A
d/p "ifdef A" && CONFIG_A
--
@Makefile
lib-y += d/ a.o
=>
a y
--
@Makefile
obj-$(CONFIG_A) += w.o d/
@d/Makefile
w-y += p.o
obj-y += x.o
=>
w CONFIG_A
d/x CONFIG_A
"#;

#[test]
fn folders_are_read_in_order_of_first_mention(rt: HostRuntime) -> Result<(), Fail> {
    check_blocks(rt.alloc(), FOLDERS, read_block)
}

#[test]
fn a_failed_read_is_told_at_once(rt: HostRuntime) -> Result<(), Fail> {
    let alloc = rt.alloc();
    let texts = [
        ("Makefile", "obj-y += d/ e/"),
        ("d/Makefile", "obj-y += a.o"),
        ("e/Kbuild", "obj-y += b.o"),
    ];
    // Read 1 is the root text, 2 asks for the first text of `d/`, 3 takes its second, 4 asks for the first of `e/`.
    let rows = [
        (0, "d/a y\ne/b y\n"),
        (1, "Makefile: read fault"),
        (2, "d/Kbuild: read fault"),
        (3, "d/Makefile: read fault"),
        (4, "e/Kbuild: read fault"),
        (5, "d/a y\ne/b y\n"),
    ];
    for (fails, want) in rows {
        let shown = read_among(alloc, texts.as_slice(), &[fails])?;
        if shown.as_str() != want {
            return Err(Fail::new(format_args!("{fails}: {shown}")));
        }
    }
    Ok(())
}

#[test]
fn the_meter_holds_the_bytes_taken(rt: HostRuntime) -> Result<(), Fail> {
    let alloc = rt.alloc();
    let texts = [
        ("Makefile", "obj-y += d/ e/\n"),
        ("d/Makefile", "obj-y += a.o\n"),
        ("e/Kbuild", "endif\n"),
    ];
    // The texts have 15, 13 and 6 bytes; reads are counted as above, and the last text is refused.
    for (fails, used) in [(0, 34), (1, 0), (2, 15), (3, 15), (4, 28)] {
        let mut files = files_of(alloc, texts.as_slice(), &[fails])?;
        let root = Name::new(alloc, "Makefile")?.ok_or("a name")?;
        let mut meter = Meter::new();
        let read = read_kbuild(alloc, &mut files, &root, &mut meter);
        assert!(rt; read.is_err(), "{fails}");
        assert!(rt; meter.used() == used, "{fails}: {}", meter.used());
    }
    Ok(())
}
