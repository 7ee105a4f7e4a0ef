use crate::{Cursor, Tail, split_line, split_whole_line};
use std::alloc::AllocError;

#[test]
fn a_line_keeps_its_carriage_return(rt: HostRuntime) {
    assert_eq!(rt;
        split_line(b"a\r\nb\n"),
        (b"a\r".as_slice(), b"b\n".as_slice())
    );
    assert_eq!(rt; split_line(b"b"), (b"b".as_slice(), b"".as_slice()));
    assert_eq!(rt;
        split_whole_line(b"a\nb"),
        Some((b"a".as_slice(), b"b".as_slice()))
    );
    assert_eq!(rt; split_whole_line(b"b"), None);
}

#[test]
fn a_cursor_reads_from_the_front(rt: HostRuntime) -> Result<(), AllocError> {
    let mut cursor = Cursor::new(b"USB_2 12 \"a\\\"\\\\\\t\\n\" x");
    assert_eq!(rt; cursor.name(), Some(b"USB_2".as_slice()));
    assert_eq!(rt; cursor.name(), None);
    assert!(rt; !cursor.word(b"-") && cursor.word(b" "));
    assert_eq!(rt; cursor.number(), Some(12));
    assert!(rt; cursor.word(b" "));
    assert!(rt; cursor.quoted(rt.alloc())?.is_none());
    assert_eq!(rt; cursor.rest(), b"\"a\\\"\\\\\\t\\n\" x".as_slice());
    let mut quoted = Cursor::new(b"\"a\\\"\\\\\\t\" x");
    let text = quoted.quoted(rt.alloc())?;
    assert!(rt; text.is_some_and(|text| text.as_slice() == b"a\"\\\t".as_slice()));
    assert_eq!(rt; quoted.rest(), b" x".as_slice());
    assert!(rt; quoted.word(b" x") && quoted.is_at_end());
    Ok(())
}

#[test]
fn a_tail_reads_from_the_end(rt: HostRuntime) {
    let mut tail = Tail::new(b"a.c:07:120");
    assert_eq!(rt; tail.number(), Some(120));
    assert!(rt; !tail.word(b";") && tail.word(b":"));
    assert_eq!(rt; tail.number(), None);
    assert_eq!(rt; tail.rest(), b"a.c:07".as_slice());
}
