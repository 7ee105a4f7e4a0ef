use crate::fakes::LoggedFiles;
use crate::runs::{Puts, SOUND, run_over};
use std::alloc::Global;
use std::test::Fail;
use std::thread::Threads;
use test_rows::{check_lines, files_of};
use ut_base::FailAt;

/// A tree of three texts. The reads are: the root text, `d/Kbuild` which isn't there, `d/Makefile`, and `e/Kbuild`.
const TEXTS: [(&str, &str); 3] = [
    ("Makefile", "obj-y += a.o d/ e/\n"),
    ("d/Makefile", "obj-y += b.o\n"),
    ("e/Kbuild", "obj-y += c.o\n"),
];

/// What golem writes over the tree where the read with this number fails, and the names of all reads.
fn reading<R: Threads + Sync>(rt: &R, alloc: Global, row: &str) -> Result<String, Fail> {
    let number = row.parse::<u64>()?;
    let mut logged = LoggedFiles {
        files: files_of(alloc, TEXTS.as_slice(), &[number])?,
        names: String::new(alloc),
    };
    let text = run_over(rt, alloc, "-j golem --kbuild Makefile", &mut logged, SOUND)?;
    Ok(format!(in alloc; "{text}{}", logged.names)?)
}

const READS: &str = r"
0 => a y\nd/b y\ne/c y\nstatus 0\nMakefile d/Kbuild d/Makefile e/Kbuild 
1 => status 5\nMakefile: read fault\nMakefile 
2 => status 5\nd/Kbuild: read fault\nMakefile d/Kbuild 
3 => status 5\nd/Makefile: read fault\nMakefile d/Kbuild d/Makefile 
4 => status 5\ne/Kbuild: read fault\nMakefile d/Kbuild d/Makefile e/Kbuild 
5 => a y\nd/b y\ne/c y\nstatus 0\nMakefile d/Kbuild d/Makefile e/Kbuild 
";

#[test]
fn a_read_that_fails_is_the_last_one(rt: HostRuntime) -> Result<(), Fail> {
    let answer = |alloc: Global, row: &str| reading(&rt, alloc, row);
    check_lines(rt.alloc(), READS, answer)
}

/// What golem writes over the tree where a put on the output fails, or one on the error output; it takes two bytes.
fn writing<R: Threads + Sync>(rt: &R, alloc: Global, row: &str) -> Result<String, Fail> {
    let mut held = files_of(alloc, TEXTS.as_slice(), &[])?;
    let (sink, number) = row.split_once(' ').ok_or("a sink and a number")?;
    let fails = [FailAt {
        call: number.parse::<u64>()?,
        taken: 2,
    }];
    let first = [FailAt { call: 1, taken: 2 }];
    let puts = if sink == "out" {
        Puts {
            out: &fails,
            err: &[],
        }
    } else {
        Puts {
            out: &first,
            err: &fails,
        }
    };
    run_over(rt, alloc, "-j golem --kbuild Makefile", &mut held, puts)
}

const PUTS: &str = r"
out 1 => a status 6\noutput: write fault\n
out 2 => a y\nd/status 6\noutput: write fault\n
out 3 => a y\nd/b y\ne/status 6\noutput: write fault\n
out 4 => a y\nd/b y\ne/c y\nstatus 0\n
err 1 => a status 6\nou
";

#[test]
fn a_put_that_fails_ends_the_writing(rt: HostRuntime) -> Result<(), Fail> {
    let answer = |alloc: Global, row: &str| writing(&rt, alloc, row);
    check_lines(rt.alloc(), PUTS, answer)
}
