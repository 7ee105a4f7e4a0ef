ghost use Rattle.std.specs.Prelude.{None};

use crate::readings::{read_alone, read_among, read_from, shown};
use kbuild_cond::read_kbuild;
use std::alloc::Global;
use std::test::Fail;
use test_rows::check_lines;
use ut_base::{FileRead, Files, MemFile, MemFiles, Meter, Name};

const BYTES: &str = r#"
obj-y += a\0b.o c.o => c y
obj-$(\0) += c.o\n => c "$(\0)"
obj-y += ä.o => ä y
obj-$(ä) += a.o => a "$(\\xc3\\xa4)"
"#;

#[test]
fn odd_bytes_are_without_effect_or_kept(rt: HostRuntime) -> Result<(), Fail> {
    check_lines(rt.alloc(), BYTES, read_alone)
}

/// One text of these bytes.
fn text_of(alloc: Global, bytes: Vec<u8>) -> Result<MemFiles, Fail> {
    let name = Name::new(alloc, "Makefile")?.ok_or("a name")?;
    let list = vec![in alloc; MemFile { name, bytes }]?;
    Ok(MemFiles::new(alloc, list, Vec::new(alloc))?)
}

/// What bytes of one text come to.
fn shown_of(alloc: Global, bytes: Vec<u8>) -> Result<String, Fail> {
    let mut files = text_of(alloc, bytes)?;
    shown(alloc, &read_from(alloc, &mut files, "Makefile")?)
}

/// The same bytes many times, and then more.
fn repeated(alloc: Global, part: &[u8], times: u32, end: &[u8]) -> Result<Vec<u8>, Fail> {
    let mut bytes = Vec::new(alloc);
    for _ in 0..times {
        bytes.extend_from_slice(part)?;
    }
    bytes.extend_from_slice(end)?;
    Ok(bytes)
}

#[test]
fn bytes_that_are_no_text_name_nothing(rt: HostRuntime) -> Result<(), Fail> {
    let alloc = rt.alloc();
    let bytes = Vec::from_slice(alloc, b"obj-y += \xff.o \xff/ a.o".as_slice())?;
    let shown = shown_of(alloc, bytes)?;
    assert!(rt; shown.as_str() == "a y\n");
    Ok(())
}

#[test]
fn a_long_line_is_read_through(rt: HostRuntime) -> Result<(), Fail> {
    let alloc = rt.alloc();
    let rows: [(&[u8], u32, &[u8], &str); 5] = [
        (b"obj-y += a.o \\\n", 4_000, b"", "a y\n"),
        (b"$(", 40_000, b"", ""),
        (b"a", 80_000, b"= b", ""),
        (b"./", 3_000, b" += d.o", ""),
        (b"ifdef A\n", 8_000, b"endif", "Makefile:1: kbuild"),
    ];
    for (part, times, end, want) in rows {
        let shown = shown_of(alloc, repeated(alloc, part, times, end)?)?;
        assert!(rt; shown.as_str() == want, "{shown}");
    }
    Ok(())
}

/// A word under so many symbols, from this one on.
fn under_symbols(
    alloc: Global,
    text: &mut String,
    word: &str,
    first: u32,
    symbols: u32,
) -> Result<(), Fail> {
    for symbol in first..first.saturating_add(symbols) {
        write!(text, "obj-$(CONFIG_X{symbol}) += {word}\n")?;
    }
    Ok(())
}

/// What a text comes to that names an object under so many symbols.
fn object_under(alloc: Global, symbols: u32) -> Result<String, Fail> {
    let mut text = String::new(alloc);
    under_symbols(alloc, &mut text, "a.o", 0, symbols)?;
    read_among(alloc, &[("Makefile", text.as_str())], &[])
}

#[test]
fn a_file_has_at_most_1024_paths(rt: HostRuntime) -> Result<(), Fail> {
    let alloc = rt.alloc();
    let most = object_under(alloc, 1024)?;
    assert!(rt; most.as_str().starts_with("a CONFIG_X0 || CONFIG_X1 || "));
    assert!(rt; most.as_str().ends_with(" || CONFIG_X1023\n"));
    let more = object_under(alloc, 1025)?;
    assert!(rt; more.as_str() == "limit: paths 1025");
    Ok(())
}

/// What a text comes to that names a folder under so many symbols, whose text names an object under so many others.
fn folder_under(alloc: Global, folder: u32, object: u32) -> Result<String, Fail> {
    let mut outer = String::new(alloc);
    under_symbols(alloc, &mut outer, "d/", 0, folder)?;
    let mut inner = String::new(alloc);
    under_symbols(alloc, &mut inner, "a.o", 2000, object)?;
    let texts = [("Makefile", outer.as_str()), ("d/Makefile", inner.as_str())];
    read_among(alloc, texts.as_slice(), &[])
}

#[test]
fn a_folder_has_at_most_1024_paths(rt: HostRuntime) -> Result<(), Fail> {
    let alloc = rt.alloc();
    let none = folder_under(alloc, 1024, 0)?;
    assert!(rt; none.as_str() == "");
    let more = folder_under(alloc, 1025, 0)?;
    assert!(rt; more.as_str() == "limit: paths 1025");
    let most = folder_under(alloc, 32, 32)?;
    assert!(rt;
        most.as_str().starts_with("d/a CONFIG_X0 && CONFIG_X2000 || CONFIG_X1 && CONFIG_X2000 || ")
    );
    let product = folder_under(alloc, 33, 32)?;
    assert!(rt; product.as_str() == "limit: paths 1025");
    Ok(())
}

#[test]
fn a_refused_text_counts_before_the_limit_on_paths(rt: HostRuntime) -> Result<(), Fail> {
    let alloc = rt.alloc();
    let mut outer = String::new(alloc);
    under_symbols(alloc, &mut outer, "a.o", 0, 1025)?;
    outer.push_str("obj-y += d/\n")?;
    let texts = [("Makefile", outer.as_str()), ("d/Makefile", "endif")];
    let shown = read_among(alloc, texts.as_slice(), &[])?;
    assert!(rt; shown.as_str() == "d/Makefile:1: kbuild");
    Ok(())
}

#[test]
fn a_path_that_is_too_long_is_without_effect(rt: HostRuntime) -> Result<(), Fail> {
    let alloc = rt.alloc();
    let mut text = Vec::from_slice(alloc, b"obj-y += a.o ".as_slice())?;
    text.extend_from_slice(repeated(alloc, b"d", 4095, b".o ")?.as_slice())?;
    text.extend_from_slice(repeated(alloc, b"e", 4089, b"/")?.as_slice())?;
    let shown = shown_of(alloc, text)?;
    assert!(rt; shown.as_str() == "a y\n");
    Ok(())
}

/// Every file has this text.
#[derive(Drop)]
struct SameText {
    text: &'static str,
}

impl Files for SameText {
    ghost held = { λ _. None };

    ghost faults = { λ _. 0 };

    ghost missing = { λ _. 0 };

    ghost long = { λ _. 0 };

    fn read(&mut self, alloc: Global, _name: &Name, most: u32) -> FileRead {
        if self.text.len() > most as usize {
            return FileRead::Oom;
        }
        match Vec::from_slice(alloc, self.text.as_bytes()) {
            Ok(bytes) => FileRead::Bytes(bytes),
            Err(_) => FileRead::Oom,
        }
    }
}

const DEEPER: &str =
    "obj-y += a.o dddddddddddddddddddddddddddddddddddddddddddddddddddddddddddddddddddddddddddddddddddddddddddddddd/";

#[test]
fn a_folder_in_itself_is_read_until_its_name_is_too_long(rt: HostRuntime) -> Result<(), Fail> {
    let alloc = rt.alloc();
    let root = Name::new(alloc, "Makefile")?.ok_or("a name")?;
    let mut files = SameText { text: DEEPER };
    let mut meter = Meter::new();
    let read = read_kbuild(alloc, &mut files, &root, &mut meter);
    let shown = shown(alloc, &read)?;
    // A folder's name is 97 bytes longer than that round it, and the name of its `Makefile` has at most 4,096 bytes.
    assert!(rt; shown.as_str().lines().count() == 43);
    assert!(rt; meter.used() == 43 * DEEPER.len() as u64);
    Ok(())
}
