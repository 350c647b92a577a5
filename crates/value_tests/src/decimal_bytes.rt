//! Decimals that are kept as bytes, and their texts: the ends of 1 and of 16 bytes, and of the scale. The expected bytes and texts are Python's
//! (`int.to_bytes`, `decimal`).

use leaftext::{Form, form_bytes_read, form_bytes_text};
use std::test::*;

/// Bytes with their texts.
const TEXTS: [(Form, &[u8], &str); 39] = [
    (Form::ShortestBytes(0), b"\x00", "0"),
    (Form::ShortestBytes(0), b"\xff", "-1"),
    (Form::ShortestBytes(0), b"\x7f", "127"),
    (Form::ShortestBytes(0), b"\x00\x80", "128"),
    (Form::ShortestBytes(0), b"\x80", "-128"),
    (Form::ShortestBytes(0), b"\xff\x7f", "-129"),
    (Form::ShortestBytes(0), b"\x00\xff", "255"),
    (Form::ShortestBytes(0), b"\x01\x00", "256"),
    (Form::ShortestBytes(0), b"\x7f\xff", "32767"),
    (Form::ShortestBytes(0), b"\x00\x80\x00", "32768"),
    (Form::ShortestBytes(0), b"\x80\x00", "-32768"),
    (Form::ShortestBytes(0), b"\xff\x7f\xff", "-32769"),
    (
        Form::ShortestBytes(0),
        b"\x7f\xff\xff\xff\xff\xff\xff\xff",
        "9223372036854775807",
    ),
    (
        Form::ShortestBytes(0),
        b"\x00\x80\x00\x00\x00\x00\x00\x00\x00",
        "9223372036854775808",
    ),
    (
        Form::ShortestBytes(0),
        b"\x80\x00\x00\x00\x00\x00\x00\x00",
        "-9223372036854775808",
    ),
    (
        Form::ShortestBytes(0),
        b"\xff\x7f\xff\xff\xff\xff\xff\xff\xff",
        "-9223372036854775809",
    ),
    (
        Form::ShortestBytes(0),
        b"\x7f\xff\xff\xff\xff\xff\xff\xff\xff\xff\xff\xff\xff\xff\xff\xff",
        "170141183460469231731687303715884105727",
    ),
    (
        Form::ShortestBytes(0),
        b"\x80\x00\x00\x00\x00\x00\x00\x00\x00\x00\x00\x00\x00\x00\x00\x00",
        "-170141183460469231731687303715884105728",
    ),
    (
        Form::ShortestBytes(38),
        b"\x00",
        "0.00000000000000000000000000000000000000",
    ),
    (
        Form::ShortestBytes(38),
        b"\x01",
        "0.00000000000000000000000000000000000001",
    ),
    (
        Form::ShortestBytes(38),
        b"\xff",
        "-0.00000000000000000000000000000000000001",
    ),
    (
        Form::ShortestBytes(38),
        b"\x00\x80",
        "0.00000000000000000000000000000000000128",
    ),
    (
        Form::ShortestBytes(38),
        b"\xff\x7f",
        "-0.00000000000000000000000000000000000129",
    ),
    (
        Form::ShortestBytes(38),
        b"\x7f\xff\xff\xff\xff\xff\xff\xff\xff\xff\xff\xff\xff\xff\xff\xff",
        "1.70141183460469231731687303715884105727",
    ),
    (
        Form::ShortestBytes(38),
        b"\x80\x00\x00\x00\x00\x00\x00\x00\x00\x00\x00\x00\x00\x00\x00\x00",
        "-1.70141183460469231731687303715884105728",
    ),
    (Form::ShortestBytes(2), b"\x01\xcb\x6e", "1176.14"),
    (Form::ShortestBytes(2), b"\xfb", "-0.05"),
    (Form::FixedBytes(0, 1), b"\x7f", "127"),
    (Form::FixedBytes(0, 1), b"\x80", "-128"),
    (Form::FixedBytes(0, 1), b"\xff", "-1"),
    (
        Form::FixedBytes(0, 16),
        b"\xff\xff\xff\xff\xff\xff\xff\xff\xff\xff\xff\xff\xff\xff\xff\xff",
        "-1",
    ),
    (
        Form::FixedBytes(0, 16),
        b"\x7f\xff\xff\xff\xff\xff\xff\xff\xff\xff\xff\xff\xff\xff\xff\xff",
        "170141183460469231731687303715884105727",
    ),
    (
        Form::FixedBytes(38, 16),
        b"\x80\x00\x00\x00\x00\x00\x00\x00\x00\x00\x00\x00\x00\x00\x00\x00",
        "-1.70141183460469231731687303715884105728",
    ),
    (
        Form::FixedBytes(38, 16),
        b"\x00\x00\x00\x00\x00\x00\x00\x00\x00\x00\x00\x00\x00\x00\x00\x01",
        "0.00000000000000000000000000000000000001",
    ),
    (Form::FixedBytes(2, 4), b"\x00\x01\xcb\x6e", "1176.14"),
    (Form::FixedBytes(2, 4), b"\xff\xfe\x34\x92", "-1176.14"),
    (Form::FixedBytes(2, 4), b"\x7f\xff\xff\xff", "21474836.47"),
    (Form::FixedBytes(2, 4), b"\x80\x00\x00\x00", "-21474836.48"),
    (Form::FixedBytes(3, 2), b"\x00\x00", "0.000"),
];

/// Bytes without a text: none, too many, another length, and those that are not the shortest of their number.
const NONE: [(Form, &[u8]); 11] = [
    (Form::ShortestBytes(0), b""),
    (Form::ShortestBytes(0), b"\x00\x7f"),
    (Form::ShortestBytes(0), b"\xff\x80"),
    (Form::ShortestBytes(0), b"\x00\x00"),
    (Form::ShortestBytes(2), b"\xff\xff"),
    (
        Form::ShortestBytes(0),
        b"\x00\x80\x00\x00\x00\x00\x00\x00\x00\x00\x00\x00\x00\x00\x00\x00\x00",
    ),
    (
        Form::ShortestBytes(0),
        b"\x7f\xff\xff\xff\xff\xff\xff\xff\xff\xff\xff\xff\xff\xff\xff\xff\xff",
    ),
    (Form::FixedBytes(0, 2), b"\x01"),
    (Form::FixedBytes(0, 2), b"\x00\x00\x01"),
    (Form::FixedBytes(0, 2), b""),
    (Form::Decimal(0), b"\x01"),
];

/// Texts that are read as another form of a number's text.
const READ: [(Form, &[u8], &str); 4] = [
    (Form::ShortestBytes(2), b"\x01\xcb\x60", "1176"),
    (Form::ShortestBytes(2), b"\x01\xcb\x6a", "1176.1"),
    (Form::FixedBytes(2, 4), b"\x00\x01\xcb\x60", "1176"),
    (
        Form::FixedBytes(38, 16),
        b"\x4b\x3b\x4c\xa8\x5a\x86\xc4\x7a\x09\x8a\x22\x40\x00\x00\x00\x00",
        "1",
    ),
];

/// Texts that are read as no bytes.
const REFUSED: [(Form, &str); 16] = [
    (Form::FixedBytes(0, 1), "128"),
    (Form::FixedBytes(0, 1), "-129"),
    (Form::FixedBytes(2, 4), "21474836.48"),
    (Form::FixedBytes(2, 4), "-21474836.49"),
    (Form::FixedBytes(2, 4), "1176.141"),
    (Form::ShortestBytes(2), "1176.140"),
    (
        Form::ShortestBytes(0),
        "170141183460469231731687303715884105728",
    ),
    (
        Form::ShortestBytes(0),
        "-170141183460469231731687303715884105729",
    ),
    (Form::ShortestBytes(38), "2"),
    (Form::ShortestBytes(0), ""),
    (Form::ShortestBytes(0), "7f"),
    (Form::ShortestBytes(0), "1.0"),
    (Form::ShortestBytes(0), "01"),
    (Form::ShortestBytes(0), "-0"),
    (
        Form::FixedBytes(0, 16),
        "170141183460469231731687303715884105728",
    ),
    (Form::Decimal(0), "1"),
];

/// Whether the bytes have this text.
fn is_text(form: Form, bytes: &[u8], text: &str) -> bool {
    match form_bytes_text(form, bytes) {
        Some(printed) => printed.as_str() == text,
        None => false,
    }
}

/// Whether the text is read as these bytes.
fn is_read(form: Form, bytes: &[u8], text: &str) -> bool {
    match form_bytes_read(form, text.as_bytes()) {
        Some(found) => found.as_slice() == bytes,
        None => false,
    }
}

#[test]
fn bytes_have_their_texts_and_are_read_from_them(rt: HostRuntime) {
    for (form, bytes, text) in TEXTS {
        assert!(rt; is_text(form, bytes, text) && is_read(form, bytes, text));
    }
}

#[test]
fn other_bytes_have_no_text(rt: HostRuntime) {
    for (form, bytes) in NONE {
        assert!(rt; form_bytes_text(form, bytes).is_none());
    }
}

#[test]
fn other_forms_of_a_text_are_read_as_bytes(rt: HostRuntime) {
    for (form, bytes, text) in READ {
        assert!(rt; is_read(form, bytes, text));
    }
}

#[test]
fn other_texts_are_read_as_no_bytes(rt: HostRuntime) {
    for (form, text) in REFUSED {
        assert!(rt; form_bytes_read(form, text.as_bytes()).is_none());
    }
}
