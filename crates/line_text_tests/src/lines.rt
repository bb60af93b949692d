//! The values of lines and words that come from elsewhere.
use line_text::hex::parse_bytes;
use line_text::line::read_line;
use line_text::number::{parse_signed, parse_unsigned};
use std::test::Fail;

#[test]
fn numbers_are_read(rt: HostRuntime) {
    for (text, number) in &[
        ("0", Some(0)),
        ("007", Some(7)),
        ("18446744073709551615", Some(18446744073709551615)),
        ("18446744073709551616", None),
        ("", None),
        ("+1", None),
        ("-1", None),
        ("1 ", None),
        ("1:", None),
        ("0x1e", None),
    ] {
        assert_eq!(rt; parse_unsigned(text.as_bytes()), *number, "at {text:?}");
    }
}

#[test]
fn signed_numbers_are_read(rt: HostRuntime) {
    for (text, number) in &[
        ("128", Some(128)),
        ("-128", Some(-128)),
        ("-0", Some(0)),
        ("9223372036854775807", Some(9223372036854775807)),
        ("-9223372036854775808", Some(-9223372036854775808)),
        ("9223372036854775808", None),
        ("-9223372036854775809", None),
        ("-", None),
        ("--1", None),
        ("+1", None),
    ] {
        assert_eq!(rt; parse_signed(text.as_bytes()), *number, "at {text:?}");
    }
}

#[test]
fn bytes_are_read(rt: HostRuntime) -> Result<(), Fail> {
    for (text, wanted) in &[
        ("-", Some(b"".as_slice())),
        ("00", Some(b"\x00")),
        ("0a0B", Some(b"\x0a\x0b")),
        ("fF", Some(b"\xff")),
        ("", None),
        ("0", None),
        ("012", None),
        ("0g", None),
        ("--", None),
        ("00 11", None),
    ] {
        let read = parse_bytes(rt.alloc(), text.as_bytes())?;
        assert_eq!(rt; read.as_deref(), *wanted, "at {text:?}");
    }
    Ok(())
}

#[test]
fn lines_are_read_without_their_ends(rt: HostRuntime) -> Result<(), Fail> {
    let mut input = b"one\t\ntwo\r\n\nthree\r".as_slice();
    let mut line = Vec::new(rt.alloc());
    for wanted in [b"one\t".as_slice(), b"two", b"", b"three\r"] {
        assert!(rt; read_line(&mut input, &mut line)?);
        assert_eq!(rt; line.as_slice(), wanted);
    }
    assert!(rt; !read_line(&mut input, &mut line)?);
    Ok(())
}
