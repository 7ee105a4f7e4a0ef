use crate::readings::read_from;
use kbuild_cond::{FileConds, Step, cond_of};
use std::alloc::Global;
use std::test::Fail;
use test_rows::{check_lines, files_of};
use ut_base::Name;

/// The paths of a source, each step by its kind and text.
fn paths_of(alloc: Global, conds: &FileConds, source: &str) -> Result<String, Fail> {
    let source = Name::new(alloc, source)?.ok_or("a name")?;
    let mut text = String::new(alloc);
    for path in cond_of(conds, &source).paths.as_slice() {
        text.push('[')?;
        for step in path.as_slice() {
            match step {
                Step::On(name) => write!(text, " on {}", name.text())?,
                Step::Free(free) => write!(text, " free {}", free.text())?,
            }
        }
        text.push(']')?;
    }
    Ok(text)
}

const SOURCES: &str = r"
l/a.c => [ on A][]
l/a.S => [ on A][]
l/d/b.c => [ on A free ifdef X on B]
l/a.h => []
l/b.c => []
a.c => []
l/a.o.c => []
l/d/b.cc => []
x/l/a.c => []
l/.c => []
";

#[test]
fn a_source_has_the_paths_of_its_object(rt: HostRuntime) -> Result<(), Fail> {
    let alloc = rt.alloc();
    let texts = [
        ("l/Makefile", "obj-$(CONFIG_A) += a.o d/\nobj-y += a.o\n"),
        ("l/d/Kbuild", "ifdef X\nobj-$(CONFIG_B) += b.o\nendif\n"),
    ];
    let mut files = files_of(alloc, texts.as_slice(), &[])?;
    let conds = read_from(alloc, &mut files, "l/Makefile")?.map_err(|_| "refused")?;
    let answer = |alloc: Global, source: &str| paths_of(alloc, &conds, source);
    check_lines(alloc, SOURCES, answer)
}

#[test]
fn without_texts_each_source_is_always_built(rt: HostRuntime) -> Result<(), Fail> {
    let alloc = rt.alloc();
    let conds = FileConds::nothing(alloc)?;
    let paths = paths_of(alloc, &conds, "a.c")?;
    assert!(rt; paths.as_str() == "[]");
    Ok(())
}
