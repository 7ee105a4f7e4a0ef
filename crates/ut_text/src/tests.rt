use crate::{
    Text, are_name_bytes, begins_names, blanks, digits_len, is_blank, is_capital, is_digit,
    is_hex_digit, is_letter, is_name_byte, line_size, name_len, numeral, split_line, split_number,
    unblanked,
};
use std::alloc::AllocError;

#[test]
fn texts_keep_their_bytes_and_escape_those_past_ascii(rt: HostRuntime) -> Result<(), AllocError> {
    let text = Text::new(rt.alloc(), "CONFIG_A")?;
    assert_eq!(rt; text.copy(rt.alloc())?.text(), "CONFIG_A");
    assert_eq!(rt; Text::of_bytes(rt.alloc(), b"caf\xe9")?.text(), "caf\\xe9");
    assert_eq!(rt; Text::of_name(rt.alloc(), b"USB_2")?.text(), "USB_2");
    Ok(())
}

#[test]
fn bytes_are_of_their_classes(rt: HostRuntime) {
    assert!(rt; is_capital(b'Z') && !is_capital(b'a'));
    assert!(rt; is_letter(b'z') && !is_letter(b'_'));
    assert!(rt; is_digit(b'9') && !is_digit(b'a'));
    assert!(rt; is_hex_digit(b'F') && !is_hex_digit(b'g'));
    assert!(rt; begins_names(b'_') && !begins_names(b'9'));
    assert!(rt; is_name_byte(b'9') && !is_name_byte(b'-'));
    assert!(rt; is_blank(b'\t') && !is_blank(b'\n'));
    assert!(rt; are_name_bytes(b"_A1") && !are_name_bytes(b"A-1"));
    assert_eq!(rt; blanks(b" \t x"), 3);
    assert_eq!(rt; unblanked(b"\t x"), b"x".as_slice());
    assert_eq!(rt; name_len(b"USB_2+"), 5);
    assert_eq!(rt; digits_len(b"10x"), 2);
}

#[test]
fn lines_end_at_newlines_with_their_carriage_returns(rt: HostRuntime) {
    assert_eq!(rt; split_line(b"a\r\nb"), (b"a".as_slice(), b"b".as_slice()));
    assert_eq!(rt; line_size(b"a\r\nb"), 3);
}

#[test]
fn decimal_numbers_have_no_leading_zero(rt: HostRuntime) {
    assert_eq!(rt;
        numeral(b"18446744073709551615"),
        Some(18446744073709551615)
    );
    assert_eq!(rt; numeral(b"18446744073709551616"), None);
    assert_eq!(rt; numeral(b"07"), None);
    assert_eq!(rt; split_number(b"12 x"), Some((12, b" x".as_slice())));
}
