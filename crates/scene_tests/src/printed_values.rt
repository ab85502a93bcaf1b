//! Values as they are printed.
use json::Writer;
use scene::snapshot::text::put_value;
use scene_document::has_float;
use serde_json::Value;
use std::alloc::Global;

/// Values, each with blanks where it may have some, and what is printed of it.
const ROWS: [(&str, &str); 9] = [
    ("0", "0"),
    ("18446744073709551615", "18446744073709551615"),
    ("-9223372036854775808", "-9223372036854775808"),
    ("null", "null"),
    ("true", "true"),
    (" \"a\\\"b\\n\\u0041\" ", "\"a\\\"b\\nA\""),
    ("[ ]", "[]"),
    ("{ \"b\": [1, -2], \"a\": {} }", "{\"a\":{},\"b\":[1,-2]}"),
    (
        "[false, [[\"x\"], {\"k\": null}], 7]",
        "[false,[[\"x\"],{\"k\":null}],7]",
    ),
];

/// What is printed of a value without a float, behind what is there.
fn printed(alloc: Global, there: &[u8], text: &str) -> Option<Vec<u8>> {
    let value = Value::from_str(alloc, text).ok()?;
    if has_float(&value) {
        return None;
    }
    let mut first = Vec::new(alloc);
    first.extend_from_slice(there).ok()?;
    let mut out = Writer::new(first);
    put_value(alloc, &value, &mut out).ok()?;
    Some(out.into_inner())
}

/// Whether that is what is expected.
fn prints(alloc: Global, there: &[u8], text: &str, expected: &[u8]) -> bool {
    match printed(alloc, there, text) {
        Some(bytes) => bytes.as_slice() == expected,
        None => false,
    }
}

#[test]
fn a_value_is_printed_as_its_text(rt: HostRuntime) {
    for (text, expected) in &ROWS {
        assert!(rt; prints(rt.alloc(), &[], text, expected.as_bytes()));
    }
}

#[test]
fn a_value_is_printed_behind_what_is_there(rt: HostRuntime) {
    assert!(rt; prints(rt.alloc(), b"x", "[\"y\"]", b"x[\"y\"]"));
}
