//! Texts with what `scan_go` makes of them: tokens and their places, or a fault.

use base::Pos;
use scan_go::{FaultKind, KEYWORDS, Keyword, Kind, OPERATORS, Op, ScanFault, Token, scan};
use std::alloc::Global;
use std::test::Fail;

const SEMICOLON: Kind = Kind::Op(Op::Semicolon);

/// The tokens of a small program, by Go's lexical grammar: kind, offset, line, column, end.
#[test]
fn tokens_of_a_program(rt: HostRuntime) -> Result<(), Fail> {
    let text = b"package main // main\nfunc main() {\n\tx := 1_0 /* a\n b */ y &^= x\r\n}";
    let want = [
        (Kind::Keyword(Keyword::Package), 0, 1, 1, 7),
        (Kind::Name, 8, 1, 9, 12),
        (SEMICOLON, 20, 1, 21, 20),
        (Kind::Keyword(Keyword::Func), 21, 2, 1, 25),
        (Kind::Name, 26, 2, 6, 30),
        (Kind::Op(Op::LeftParen), 30, 2, 10, 31),
        (Kind::Op(Op::RightParen), 31, 2, 11, 32),
        (Kind::Op(Op::LeftBrace), 33, 2, 13, 34),
        (Kind::Name, 36, 3, 2, 37),
        (Kind::Op(Op::Define), 38, 3, 4, 40),
        (Kind::Number(10), 41, 3, 7, 44),
        (SEMICOLON, 49, 3, 15, 49),
        (Kind::Name, 56, 4, 7, 57),
        (Kind::Op(Op::AndNotAssign), 58, 4, 9, 61),
        (Kind::Name, 62, 4, 13, 63),
        (SEMICOLON, 64, 4, 15, 64),
        (Kind::Op(Op::RightBrace), 65, 5, 1, 66),
        (SEMICOLON, 66, 5, 2, 66),
    ];
    let tokens = scan(rt.alloc(), text)?;
    assert_eq!(rt; tokens.text(), text.as_slice());
    assert_eq!(rt; tokens.list().len(), want.len());
    for (token, (kind, offset, line, col, end)) in tokens.list().iter().zip(want) {
        let pos = Pos { offset, line, col };
        assert_eq!(rt; *token, Token { kind, pos, end });
    }
    Ok(())
}

// Whether the text is refused with this number at this offset, line and column.
fn is_refused(alloc: Global, text: &[u8], number: u32, place: (u32, u32, u32)) -> bool {
    let (offset, line, col) = place;
    match scan(alloc, text) {
        Ok(_) => false,
        Err(fault) => {
            fault.number() == Some(number) && fault.pos() == Some(Pos { offset, line, col })
        }
    }
}

/// What Go's lexical grammar refuses, and what is left out here: number, offset, line, column.
#[test]
fn faults_and_their_places(rt: HostRuntime) -> Result<(), Fail> {
    let most = "170141183460469231731687303715884105728";
    let rows: [(&[u8], u32, (u32, u32, u32)); 38] = [
        (b"a\n\xc3(", 2, (2, 2, 1)),
        (b"\"\xed\xa0\x80\"", 2, (1, 1, 2)),
        (b"a \0", 3, (2, 1, 3)),
        (b"/* a\n\0 */", 3, (5, 2, 1)),
        (b"// \0", 3, (3, 1, 4)),
        (b"\"a\0\"", 3, (2, 1, 3)),
        (b"x #", 4, (2, 1, 3)),
        (b"x\n \xe2\x82\xac \0", 4, (3, 2, 2)),
        (b"\xef\xbb\xbfa \xef\xbb\xbf", 4, (5, 1, 6)),
        (b"x + \xd9\xa3", 4, (4, 1, 5)),
        (b" 08", 5, (1, 1, 2)),
        (b"0x", 5, (0, 1, 1)),
        (b"0b102", 5, (0, 1, 1)),
        (b"0o8", 5, (0, 1, 1)),
        (b"0xg", 5, (0, 1, 1)),
        (b"1__0", 5, (0, 1, 1)),
        (b"1_ 2", 5, (0, 1, 1)),
        (b"0_", 5, (0, 1, 1)),
        (b"0x__1", 5, (0, 1, 1)),
        (most.as_bytes(), 6, (0, 1, 1)),
        (b"a\n  /* \0 ", 7, (4, 2, 3)),
        (b"/*/", 7, (0, 1, 1)),
        (b"a \"b\\q\n\"", 8, (2, 1, 3)),
        (b"\"a\0", 8, (0, 1, 1)),
        (b"\"a\\\n\"", 8, (0, 1, 1)),
        (b"\"a\\\"", 8, (0, 1, 1)),
        (b"\"a\\\0\"", 9, (2, 1, 3)),
        (b"\n\"a\\'\"", 9, (3, 2, 3)),
        (b"a 1p5", 10, (2, 1, 3)),
        (b"0b1e2", 10, (0, 1, 1)),
        (b"0x1p2", 10, (0, 1, 1)),
        (b"08.5", 10, (0, 1, 1)),
        (b"3i", 10, (0, 1, 1)),
        (b"1...", 10, (0, 1, 1)),
        (b"(.5", 10, (1, 1, 2)),
        (b"a\n'", 10, (2, 2, 1)),
        (b"'a'", 10, (0, 1, 1)),
        (b"x `a`", 10, (2, 1, 3)),
    ];
    for (text, number, place) in rows {
        assert!(rt;
            is_refused(rt.alloc(), text, number, place),
            "kind {number}"
        );
    }
    Ok(())
}

/// Numbers in each form, as the Go specification reads them.
#[test]
fn forms_of_numbers(rt: HostRuntime) -> Result<(), Fail> {
    let rows: [(&[u8], u128); 20] = [
        (b"0", 0),
        (b"42", 42),
        (b"4_2", 42),
        (b"0600", 384),
        (b"0_600", 384),
        (b"00", 0),
        (b"0o600", 384),
        (b"0O600", 384),
        (b"0xBadFace", 195951310),
        (b"0xBad_Face", 195951310),
        (b"0x_67_7a_2f_cc_40_c6", 113774485586118),
        (b"0X1e", 30),
        (b"0b101", 5),
        (b"0B_1", 1),
        (
            b"170_141183460469231731687303715884105727",
            170141183460469231731687303715884105727,
        ),
        (
            b"0x7fffffffffffffffffffffffffffffff",
            170141183460469231731687303715884105727,
        ),
        (b"0b1F", 1),
        (b"12abc", 12),
        (b"0x1g", 1),
        (b"7_5x", 75),
    ];
    for (text, value) in rows {
        let tokens = scan(rt.alloc(), text)?;
        assert_eq!(rt;
            tokens.list().first().map(|t| t.kind),
            Some(Kind::Number(value))
        );
    }
    Ok(())
}

/// What stands between quotes, and whether it is a string, or the kind of the first fault and the bytes before it.
#[test]
fn escapes_in_strings(rt: HostRuntime) -> Result<(), Fail> {
    let rows: [(&[u8], Option<(u32, u32)>); 28] = [
        (b"", None),
        (b"a\tb // /* ' `", None),
        (b"\\a\\b\\f\\n\\r\\t\\v\\\\\\\"", None),
        (b"\\000\\377", None),
        (b"\\x00\\xfF", None),
        (b"\\u00e9\\uFFFD\\ud7ff\\ue000", None),
        (b"\\U0010ffff\\U00000000", None),
        (b"\xe6\x97\xa5\xef\xbb\xbf\\\\", None),
        (b"\\'", Some((9, 1))),
        (b"\\q", Some((9, 1))),
        (b"\\8", Some((9, 1))),
        (b"\\0", Some((9, 1))),
        (b"\\08a", Some((9, 1))),
        (b"\\400", Some((9, 1))),
        (b"\\xa", Some((9, 1))),
        (b"\\xg0", Some((9, 1))),
        (b"\\X00", Some((9, 1))),
        (b"\\u00e", Some((9, 1))),
        (b"\\ud800", Some((9, 1))),
        (b"\\uDFFF", Some((9, 1))),
        (b"\\U0010fff", Some((9, 1))),
        (b"\\U00110000", Some((9, 1))),
        (b"\\Uffffffff", Some((9, 1))),
        (b"\xc3\xa9\\\xc3\xa9", Some((9, 3))),
        (b"ab\\\\\\z", Some((9, 5))),
        (b"\\n\0\\q", Some((3, 3))),
        (b"\\x\0", Some((9, 1))),
        (b"\\q\0", Some((9, 1))),
    ];
    for (content, want) in rows {
        let mut text = vec![in rt.alloc(); b'"'; 1]?;
        text.extend_from_slice(content)?;
        text.push(b'"')?;
        match want {
            None => {
                let tokens = scan(rt.alloc(), &text)?;
                assert_eq!(rt; tokens.list().len(), 2);
                assert_eq!(rt; tokens.list().first().map(|t| t.kind), Some(Kind::String));
                assert_eq!(rt;
                    tokens.list().first().map(|t| t.end as usize),
                    Some(text.len())
                );
            }
            Some((number, offset)) => assert!(rt;
                is_refused(
                    rt.alloc(),
                    &text,
                    number,
                    (offset, 1, offset.saturating_add(1))
                ),
                "kind {number} at {offset}"
            ),
        }
    }
    Ok(())
}

/// Names by the categories of their characters: the offsets after them.
#[test]
fn names(rt: HostRuntime) -> Result<(), Fail> {
    let rows: [(&str, u32); 9] = [
        ("_x9 ", 3),
        ("α+", 2),
        ("ThisVariableIsExported", 22),
        ("été1)", 6),
        ("ǅ ", 2),
        ("ʰa-", 3),
        ("日本語٣=", 11),
        ("𝒳𝟙.", 8),
        ("aٟ", 1),
    ];
    for (text, end) in rows {
        if end == 1 {
            assert!(rt;
                is_refused(rt.alloc(), text.as_bytes(), 4, (1, 1, 2)),
                "a mark"
            );
        } else {
            let tokens = scan(rt.alloc(), text.as_bytes())?;
            assert_eq!(rt; tokens.list().first().map(|t| t.kind), Some(Kind::Name));
            assert_eq!(rt; tokens.list().first().map(|t| t.end), Some(end));
        }
    }
    Ok(())
}

/// Texts that are accepted, and the kinds and offsets of their tokens.
#[test]
fn kinds_and_offsets(rt: HostRuntime) -> Result<(), Fail> {
    let rows: [(&[u8], &[(Kind, u32)]); 11] = [
        (b"", &[]),
        (b"\xef\xbb\xbfx", &[(Kind::Name, 3), (SEMICOLON, 4)]),
        (b"x // end", &[(Kind::Name, 0), (SEMICOLON, 8)]),
        (b"x /* \n */ // \n", &[(Kind::Name, 0), (SEMICOLON, 5)]),
        (
            b"+ /* \n */ -",
            &[(Kind::Op(Op::Plus), 0), (Kind::Op(Op::Minus), 10)],
        ),
        (
            b"a /**/ b",
            &[(Kind::Name, 0), (Kind::Name, 7), (SEMICOLON, 8)],
        ),
        (
            b"returns return",
            &[
                (Kind::Name, 0),
                (Kind::Keyword(Keyword::Return), 8),
                (SEMICOLON, 14),
            ],
        ),
        (
            b"...5x<<=",
            &[
                (Kind::Op(Op::Ellipsis), 0),
                (Kind::Number(5), 3),
                (Kind::Name, 4),
                (Kind::Op(Op::ShlAssign), 5),
            ],
        ),
        (
            b"170_141183460469231731687303715884105727",
            &[
                (Kind::Number(170141183460469231731687303715884105727), 0),
                (SEMICOLON, 40),
            ],
        ),
        (
            b"\"a\"// b\n\"\\\"\"",
            &[
                (Kind::String, 0),
                (SEMICOLON, 7),
                (Kind::String, 8),
                (SEMICOLON, 12),
            ],
        ),
        (
            b"0x1F0b1 0",
            &[
                (Kind::Number(0x1f0b1), 0),
                (Kind::Number(0), 8),
                (SEMICOLON, 9),
            ],
        ),
    ];
    for (text, want) in rows {
        let tokens = scan(rt.alloc(), text)?;
        assert_eq!(rt; tokens.list().len(), want.len());
        for (token, (kind, offset)) in tokens.list().iter().zip(want) {
            assert_eq!(rt; token.kind, *kind);
            assert_eq!(rt; token.pos.offset, *offset);
        }
    }
    Ok(())
}

/// The limit, the place after the last byte, and what the texts of keywords and operators give.
#[test]
fn limit_end_and_spellings(rt: HostRuntime) -> Result<(), Fail> {
    let mut text = vec![in rt.alloc(); b' '; 1048575]?;
    text.push(b'x')?;
    let tokens = scan(rt.alloc(), &text)?;
    assert_eq!(rt; tokens.list().len(), 2);
    assert_eq!(rt;
        tokens.end(),
        Pos {
            offset: 1048576,
            line: 1,
            col: 1048577
        }
    );
    text.push(b'\0')?;
    match scan(rt.alloc(), &text) {
        Err(ScanFault::TooLong(pos)) => assert_eq!(rt;
            pos,
            Pos {
                offset: 0,
                line: 1,
                col: 1
            }
        ),
        _ => assert!(rt; false, "too long"),
    }
    for op in OPERATORS {
        let tokens = scan(rt.alloc(), op.spelling().as_bytes())?;
        assert_eq!(rt; tokens.list().first().map(|t| t.kind), Some(Kind::Op(op)));
    }
    for keyword in KEYWORDS {
        let tokens = scan(rt.alloc(), keyword.spelling().as_bytes())?;
        assert_eq!(rt;
            tokens.list().first().map(|t| t.kind),
            Some(Kind::Keyword(keyword))
        );
    }
    assert_eq!(rt; FaultKind::OutOfProfile.number(), 10);
    Ok(())
}
