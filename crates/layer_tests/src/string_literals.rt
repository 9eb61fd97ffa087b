//! Literals with their values by `string_value`.

use std::test::Fail;
use string_value::string_value;

/// Each escape, and literals from the Go specification ("String literals"), with the bytes that they stand for.
#[test]
fn values_of_literals(rt: HostRuntime) -> Result<(), Fail> {
    let rows: [(&[u8], &[u8]); 26] = [
        (b"\"\"", b""),
        (b"\"a\tb // ' `\"", b"a\tb // ' `"),
        (b"\"\\a\\b\\f\"", b"\x07\x08\x0c"),
        (b"\"\\n\\r\\t\\v\"", b"\x0a\x0d\x09\x0b"),
        (b"\"\\\\\\\"\"", b"\\\""),
        (b"\"\\000\\377\\1018\"", b"\x00\xffA8"),
        (b"\"\\x00\\xfF\\x414\"", b"\x00\xffA4"),
        (b"\"\\u0000\\u007f\\u0080\"", b"\x00\x7f\xc2\x80"),
        (b"\"\\u07ff\\u0800\"", b"\xdf\xbf\xe0\xa0\x80"),
        (b"\"\\ud7ff\\uE000\"", b"\xed\x9f\xbf\xee\x80\x80"),
        (b"\"\\uffff\"", b"\xef\xbf\xbf"),
        (
            b"\"\\U00010000\\U0010ffff\"",
            b"\xf0\x90\x80\x80\xf4\x8f\xbf\xbf",
        ),
        (b"\"\\u00e99\"", b"\xc3\xa99"),
        (b"\"\\\\n\\\\\\n\"", b"\\n\\\n"),
        (b"\"\xe6\x97\xa5\"", b"\xe6\x97\xa5"),
        (b"\"Hello, world!\\n\"", b"Hello, world!\n"),
        (b"\"\\u65e5\xe6\x9c\xac\\U00008a9e\"", "日本語".as_bytes()),
        (b"\"\\U000065e5\\U0000672c\\U00008a9e\"", "日本語".as_bytes()),
        (
            b"\"\\xe6\\x97\\xa5\\xe6\\x9c\\xac\\xe8\\xaa\\x9e\"",
            "日本語".as_bytes(),
        ),
        (b"\"\\xff\\u00FF\"", b"\xff\xc3\xbf"),
        (b"\"\\q\\400\\ud800\"", b"q400ud800"),
        (b"\"\\U00110000\\xg0\"", b"U00110000xg0"),
        (b"\"\\0\\08a\\8\"", b"008a8"),
        (b"\"a\\\"", b"a"),
        (b"\"", b""),
        (b"", b""),
    ];
    for (spelling, want) in rows {
        let value = string_value(rt.alloc(), spelling)?;
        assert_eq!(rt; value.as_slice(), want);
    }
    Ok(())
}
