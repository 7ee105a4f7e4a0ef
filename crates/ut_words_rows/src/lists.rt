use std::alloc::{AllocError, Global};
use std::test::Fail;
use ut_base::Name;
use ut_words::{ListBad, ListKind, ListWish, WishList, WishesBad, all_wishes, read_list};

/// The most bytes of a file.
const MOST_BYTES: usize = 16_777_216;

/// A kind, the text of a list, and its wishes (`+` before a symbol that is to be on, `-` before one that is to be off),
/// or the first line that isn't of the list.
const LISTS: [(ListKind, &str, &str); 37] = [
    (ListKind::White, "", ""),
    (ListKind::Black, "CONFIG_A\n", "-A"),
    (ListKind::White, "CONFIG_A\nCONFIG_B\n", "+A +B"),
    (ListKind::White, "CONFIG_B\nCONFIG_A", "+B +A"),
    (
        ListKind::White,
        "CONFIG_y\nCONFIG_9_a\nCONFIG_CONFIG_A\nCONFIG__\n",
        "+y +9_a +CONFIG_A +_",
    ),
    (
        ListKind::Trace,
        "t.c:2\nt.c:5\nt.c:8\nno.c:1\n",
        "t.c:2 t.c:5 t.c:8 no.c:1",
    ),
    (ListKind::Trace, "d/t.c:999999999", "d/t.c:999999999"),
    // The line stands after the last colon, and a name may hold what it likes.
    (
        ListKind::Trace,
        "a:3:4\na b.c:7\n #x:1\n-t:1\nä.c:2\n",
        "a:3:4 a b.c:7  #x:1 -t:1 ä.c:2",
    ),
    // Empty lines, and lines that begin with `#`, are skipped.
    (
        ListKind::White,
        "\n# CONFIG_A\n\n#\nCONFIG_A\n#CONFIG_B",
        "+A",
    ),
    (ListKind::Trace, "#t.c:1\n\n\n", ""),
    // A line that repeats an earlier one is dropped.
    (
        ListKind::White,
        "CONFIG_B\nCONFIG_A\nCONFIG_B\nCONFIG_BB\nCONFIG_A\n",
        "+B +A +BB",
    ),
    (
        ListKind::Trace,
        "t.c:2\nu.c:2\nt.c:2\nt.c:22\n#\nu.c:2",
        "t.c:2 u.c:2 t.c:22",
    ),
    // Lines that aren't of the list; the first one counts.
    (ListKind::White, "A\n", "line 1"),
    (ListKind::White, "CONFIG_\n", "line 1"),
    (ListKind::White, "config_A", "line 1"),
    (ListKind::White, "CONFIG_A\r\n", "line 1"),
    (ListKind::White, "\r\n", "line 1"),
    (ListKind::White, "CONFIG_A\n\nCONFIG_A-B\nx", "line 3"),
    (ListKind::White, " CONFIG_A", "line 1"),
    (ListKind::White, "CONFIG_A ", "line 1"),
    (ListKind::White, "CONFIG_A=y", "line 1"),
    (ListKind::Black, "CONFIG_A\nCONFIG_A\nt.c:1\n", "line 3"),
    (ListKind::Black, "CONFIG_Ä", "line 1"),
    (ListKind::Trace, "CONFIG_A", "line 1"),
    (ListKind::Trace, "t.c\n", "line 1"),
    (ListKind::Trace, "t.c:\n", "line 1"),
    (ListKind::Trace, ":1", "line 1"),
    (ListKind::Trace, "t.c:0", "line 1"),
    (ListKind::Trace, "t.c:01", "line 1"),
    (ListKind::Trace, "t.c:+1", "line 1"),
    (ListKind::Trace, "t.c:1000000000", "line 1"),
    (ListKind::Trace, "t.c:99999999999999999999", "line 1"),
    (ListKind::Trace, "t.c:1\r\n", "line 1"),
    (ListKind::Trace, "t.c:1 ", "line 1"),
    (ListKind::Trace, "t\0.c:1", "line 1"),
    (ListKind::Trace, "t.c;1", "line 1"),
    (ListKind::Trace, "t.c:1\n\n#\nt.c:x\nt.c", "line 4"),
];

fn push_wish(text: &mut String, wish: &ListWish) -> Result<(), Fail> {
    match wish {
        ListWish::On(name) => write!(text, "+{}", name.text())?,
        ListWish::Off(name) => write!(text, "-{}", name.text())?,
        ListWish::Traced { file, line } => write!(text, "{}:{line}", file.text())?,
    }
    Ok(())
}

fn shown(alloc: Global, wishes: &[ListWish]) -> Result<String, Fail> {
    let mut text = String::new(alloc);
    for wish in wishes {
        if !text.is_empty() {
            text.push_str(" ")?;
        }
        push_wish(&mut text, wish)?;
    }
    Ok(text)
}

/// The wishes of a list, or its first line that isn't of the list.
fn answer(alloc: Global, kind: ListKind, bytes: &[u8]) -> Result<String, Fail> {
    if bytes.len() > MOST_BYTES {
        return Err(Fail::new(format_args!("a text that no file may have")));
    }
    match read_list(alloc, kind, &[], bytes) {
        Ok(list) => shown(alloc, list.as_slice()),
        Err(ListBad::Line { number }) => Ok(format!(in alloc; "line {number}")?),
        Err(ListBad::Oom) => Err(AllocError.into()),
    }
}

#[test]
fn lists_have_the_wishes_of_their_lines(rt: HostRuntime) -> Result<(), Fail> {
    for (kind, text, want) in LISTS {
        let found = answer(rt.alloc(), kind, text.as_bytes())?;
        assert_eq!(rt; found.as_str(), want, "{text}");
    }
    Ok(())
}

#[test]
fn bytes_that_are_no_text_are_no_line(rt: HostRuntime) -> Result<(), Fail> {
    let alloc = rt.alloc();
    let traced = answer(alloc, ListKind::Trace, b"a.c:1\n\xff.c:1\n")?;
    assert_eq!(rt; traced.as_str(), "line 2");
    let white = answer(alloc, ListKind::White, b"# \xff\nCONFIG_A\nCONFIG_\xc3\n")?;
    assert_eq!(rt; white.as_str(), "line 3");
    let skipped = answer(alloc, ListKind::White, b"# \xff\nCONFIG_A\n")?;
    assert_eq!(rt; skipped.as_str(), "+A");
    Ok(())
}

/// A white or black list of this many symbols, each twice.
fn symbols(alloc: Global, kind: ListKind, count: u32) -> Result<WishList, Fail> {
    let mut text = String::new(alloc);
    for number in 0..count {
        write!(text, "CONFIG_S{number}\nCONFIG_S{number}\n")?;
    }
    let files = vec![in alloc; Name::new(alloc, "a.c")?.ok_or("a name")?]?;
    let bytes = text.as_bytes();
    if bytes.len() > MOST_BYTES {
        return Err(Fail::new(format_args!("a text that no file may have")));
    }
    Ok(read_list(alloc, kind, files.as_slice(), bytes)?)
}

fn total(alloc: Global, white: WishList, black: WishList, trace: WishList) -> Result<String, Fail> {
    match all_wishes(white, black, trace) {
        Ok(all) => Ok(format!(in alloc; "{} wishes", all.len())?),
        Err(WishesBad::TooMany { count }) => Ok(format!(in alloc; "too many: {count}")?),
        Err(WishesBad::Oom) => Err(AllocError.into()),
    }
}

#[test]
fn all_wishes_are_counted_together(rt: HostRuntime) -> Result<(), Fail> {
    let alloc = rt.alloc();
    let white = symbols(alloc, ListKind::White, 40_000)?;
    let black = symbols(alloc, ListKind::Black, 25_536)?;
    let most = total(alloc, white, black, WishList::new(alloc))?;
    assert_eq!(rt; most.as_str(), "65536 wishes");
    let white = symbols(alloc, ListKind::White, 40_000)?;
    let black = symbols(alloc, ListKind::Black, 25_536)?;
    let trace = read_list(alloc, ListKind::Trace, &[], b"a.c:1\n")?;
    let more = total(alloc, white, black, trace)?;
    assert_eq!(rt; more.as_str(), "too many: 65537");
    Ok(())
}

#[test]
fn wishes_stand_in_the_order_of_the_lists(rt: HostRuntime) -> Result<(), Fail> {
    let alloc = rt.alloc();
    let white = read_list(alloc, ListKind::White, &[], b"CONFIG_B\nCONFIG_A\n")?;
    let black = read_list(alloc, ListKind::Black, &[], b"CONFIG_A\n")?;
    let trace = read_list(alloc, ListKind::Trace, &[], b"b.c:2\na.c:1\n")?;
    let all = all_wishes(white, black, trace)?;
    let text = shown(alloc, all.as_slice())?;
    assert_eq!(rt; text.as_str(), "+B +A -A b.c:2 a.c:1");
    Ok(())
}
