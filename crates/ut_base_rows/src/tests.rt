use crate::{Folder, JobBad, Texts, Wanted, Wholes, read_wholes};
use std::alloc::Global;
use std::test::Fail;
use ut_base::{
    FailAt, FileRead, Files, Limit, MemFile, MemFiles, MemSink, Meter, Name, PutEnd, Sink, TakeBad,
    Word, take,
};

#[test]
fn a_name_is_short_and_on_one_line(rt: HostRuntime) -> Result<(), Fail> {
    let alloc = rt.alloc();
    let longest = "x".repeat(alloc, 4096)?;
    let too_long = "x".repeat(alloc, 4097)?;
    let rows = [
        ("a.c", true),
        (longest.as_str(), true),
        (too_long.as_str(), false),
        ("", false),
        ("a\0c", false),
        ("a\nc", false),
    ];
    for (text, want) in rows {
        assert!(rt; Name::new(alloc, text)?.is_some() == want, "{text}");
    }
    assert!(rt; Word::new(alloc, "")?.text().is_empty());
    assert!(rt; Limit::SourceDepth.word() == "sourcedepth");
    Ok(())
}

fn name(alloc: Global, text: &str) -> Result<Name, Fail> {
    Ok(Name::new(alloc, text)?.ok_or("a name")?)
}

#[test]
fn a_path_stands_beside_a_name(rt: HostRuntime) -> Result<(), Fail> {
    let alloc = rt.alloc();
    let rows = [
        ("Kconfig", "arch/x86/Kconfig", "arch/x86/Kconfig"),
        ("a/b/Kconfig", "net/Kconfig", "a/b/net/Kconfig"),
        ("a/b/", "K", "a/b/K"),
        ("a/K", "", "a/"),
        ("K", "", ""),
        ("a/K", "x\ny", ""),
    ];
    for (root, path, want) in rows {
        let beside = name(alloc, root)?.beside(alloc, path)?;
        let text = beside.as_ref().map_or("", |found| found.text());
        assert!(rt; text == want, "{root} {path}");
    }
    Ok(())
}

#[test]
fn files_in_memory_fail_as_planned(rt: HostRuntime) -> Result<(), Fail> {
    let alloc = rt.alloc();
    let held = name(alloc, "a")?;
    let absent = name(alloc, "b")?;
    let bytes = Vec::from_slice(alloc, b"xyz")?;
    let list = vec![in alloc;
        MemFile {
            name: held.copy(alloc)?,
            bytes
        },
    ]?;
    let mut files = MemFiles::new(alloc, list, vec![in alloc; 2]?)?;
    let mut meter = Meter::new();
    let first = take(alloc, &mut files, &held, &mut meter)?;
    assert!(rt; first.as_slice() == b"xyz".as_slice());
    let second = take(alloc, &mut files, &held, &mut meter);
    assert!(rt; matches!(second, Err(TakeBad::Fault)));
    let third = take(alloc, &mut files, &absent, &mut meter);
    assert!(rt; matches!(third, Err(TakeBad::Missing)));
    assert!(rt; matches!(files.read(alloc, &held, 2), FileRead::Long));
    assert!(rt; meter.used() == 3);
    Ok(())
}

#[test]
fn a_sink_in_memory_takes_what_it_has_room_for(rt: HostRuntime) -> Result<(), Fail> {
    let alloc = rt.alloc();
    let fails = vec![in alloc; FailAt { call: 2, taken: 1 }, FailAt { call: 3, taken: 9 }]?;
    let mut sink = MemSink::new(alloc, fails)?;
    sink.reserve(8)?;
    let ends = [
        sink.put(b"abc"),
        sink.put(b"de"),
        sink.put(b"fg"),
        sink.put(b"hijk"),
    ];
    let want = [PutEnd::Done, PutEnd::Failed, PutEnd::Failed, PutEnd::Failed];
    assert!(rt; ends == want);
    assert!(rt; sink.bytes() == b"abcdfghi".as_slice());
    Ok(())
}

/// The text of `a` is in its second file, that of `b` in its first.
fn held(alloc: Global, fails: Vec<u64>) -> Result<MemFiles, Fail> {
    let rows = [
        ("a/Makefile", b"am"),
        ("b/Kbuild", b"bk"),
        ("b/Makefile", b"bm"),
        ("s.c", b"sc"),
    ];
    let mut files = Vec::new(alloc);
    for (file, text) in rows {
        files.push(MemFile {
            name: name(alloc, file)?,
            bytes: Vec::from_slice(alloc, text.as_slice())?,
        })?;
    }
    Ok(MemFiles::new(alloc, files, fails)?)
}

fn folder(alloc: Global, folder: &str) -> Result<Folder, Fail> {
    let first = format!(in alloc; "{folder}/Kbuild")?;
    let second = format!(in alloc; "{folder}/Makefile")?;
    Ok(Folder {
        first: name(alloc, &first)?,
        second: name(alloc, &second)?,
    })
}

/// Folders `a` and `b`, and one source.
fn wanted(alloc: Global, source: &str) -> Result<Wanted, Fail> {
    Ok(Wanted {
        folders: vec![in alloc; folder(alloc, "a")?, folder(alloc, "b")?]?,
        sources: vec![in alloc; name(alloc, source)?]?,
    })
}

fn read(alloc: Global, source: &str, fails: Vec<u64>) -> Result<Result<Wholes, JobBad>, Fail> {
    let mut files = held(alloc, fails)?;
    let mut meter = Meter::new();
    Ok(read_wholes(alloc, &mut files, &wanted(alloc, source)?, &mut meter))
}

fn push_texts(line: &mut String, texts: &Texts) -> Result<(), Fail> {
    for text in texts.list() {
        for byte in text.bytes() {
            line.push(char::from(*byte))?;
        }
        line.push(' ')?;
    }
    Ok(())
}

/// All texts that were read, or the refusal.
fn shown(alloc: Global, read: &Result<Wholes, JobBad>) -> Result<String, Fail> {
    let mut line = String::new(alloc);
    match read {
        Ok(wholes) => {
            push_texts(&mut line, &wholes.folders)?;
            push_texts(&mut line, &wholes.sources)?;
        }
        Err(JobBad::Folder { file }) => write!(line, "folder {}", file.text())?,
        Err(JobBad::Missing { file }) => write!(line, "missing {}", file.text())?,
        Err(JobBad::ReadFault { file }) => write!(line, "fault {}", file.text())?,
        Err(JobBad::TooLarge { what, count }) => write!(line, "{} {}", what.word(), *count)?,
        Err(JobBad::Oom) => line.push_str("memory")?,
    }
    Ok(line)
}

#[test]
fn a_job_reads_its_files_in_order(rt: HostRuntime) -> Result<(), Fail> {
    let alloc = rt.alloc();
    // Read 1 asks for the first file of `a`, read 2 takes its second, read 3 the first of `b`, read 4 the source.
    let rows = [
        ("s.c", 0, "am bk sc "),
        ("t.c", 0, "missing t.c"),
        ("s.c", 1, "fault a/Kbuild"),
        ("s.c", 2, "fault a/Makefile"),
        ("s.c", 3, "fault b/Kbuild"),
        ("s.c", 4, "fault s.c"),
        ("s.c", 5, "am bk sc "),
    ];
    for (source, fails, want) in rows {
        let read = read(alloc, source, vec![in alloc; fails]?)?;
        let line = shown(alloc, &read)?;
        assert!(rt; line.as_str() == want, "{line}");
    }
    Ok(())
}
