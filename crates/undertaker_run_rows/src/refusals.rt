use crate::fakes::LongFiles;
use crate::runs::{SOUND, run_block, run_over};
use std::alloc::Global;
use std::test::Fail;
use std::thread::Threads;
use test_rows::{check_blocks, check_lines, files_of};

const WORDS: &str = r"
-j nosuch => job
-j nosuch --kbuild Makefile => job
-x -j golem --kbuild Makefile => words
-j golem --kbuild => words
-j golem --kbuild Makefile --kbuild Makefile => words
-j golem --kbuild Makefile -t 65 => number
-j golem --kbuild Makefile --style max => style
-j golem --kbuild Makefile --var y=1 => var
-j golem => needs
-j golem --kbuild= => file
-- two faults: the one that is tested first
-j golem -t 65 => number
";

/// The usage kind of a run of these words over one file, or all that it writes where its line is another one.
fn usage<R: Threads + Sync>(rt: &R, alloc: Global, words: &str) -> Result<String, Fail> {
    let mut held = files_of(alloc, &[("Makefile", "obj-y += a.o\n")], &[])?;
    let text = run_over(rt, alloc, words, &mut held, SOUND)?;
    let kind = text
        .strip_prefix("status 2\nundertaker: usage: ")
        .unwrap_or(text.as_str());
    Ok(String::from_str(alloc, kind.trim_end())?)
}

#[test]
fn words_of_another_form_have_their_usage_kind(rt: HostRuntime) -> Result<(), Fail> {
    let answer = |alloc: Global, words: &str| usage(&rt, alloc, words);
    check_lines(rt.alloc(), WORDS, answer)
}

const TEXTS: &str = r"-j golem --kbuild Makefile
@Makefile
endif
=>
status 3
Makefile:1: kbuild
--
-j golem --kbuild Makefile
@Makefile
obj-y += d/
=>
status 4
d/Makefile: missing
--
-j golem --kbuild Makefile
=>
status 4
Makefile: missing
--
-j golem --kbuild Makefile
@Makefile
obj-y += d/ e/
@d/Makefile
obj-y += a.o
ifdef A
@e/Makefile
endif
=>
status 3
d/Makefile:2: kbuild
--
-j golem --kbuild Makefile
@Makefile
obj-y += d/ e/
@e/Makefile
endif
=>
status 4
d/Makefile: missing
";

#[test]
fn the_first_refusal_ends_the_run(rt: HostRuntime) -> Result<(), Fail> {
    let answer = |alloc: Global, given: &str| run_block(&rt, alloc, given);
    check_blocks(rt.alloc(), TEXTS, answer)
}

const GOLEM: &str = "-j golem --kbuild Makefile";

/// What a run writes over a text in which an object has so many paths.
fn run_on_paths<R: Threads + Sync>(rt: &R, alloc: Global, count: u32) -> Result<String, Fail> {
    let mut text = String::new(alloc);
    for number in 0..count {
        write!(text, "obj-$(CONFIG_{number}) += a.o\n")?;
    }
    let mut held = files_of(alloc, &[("Makefile", text.as_str())], &[])?;
    run_over(rt, alloc, GOLEM, &mut held, SOUND)
}

#[test]
fn a_limit_that_is_passed_has_its_line(rt: HostRuntime) -> Result<(), Fail> {
    let alloc = rt.alloc();
    let most = run_on_paths(&rt, alloc, 1024)?;
    assert!(rt; most.as_str().ends_with("\nstatus 0\n"));
    let more = run_on_paths(&rt, alloc, 1025)?;
    assert!(rt; more.as_str() == "status 8\nlimit: paths 1025\n");
    let mut long = LongFiles { long: 0 };
    let shown = run_over(&rt, alloc, GOLEM, &mut long, SOUND)?;
    assert!(rt; shown.as_str() == "status 8\nlimit: filebytes 16777217\n");
    Ok(())
}
