//! Rows of the table of answers, through the public call, over objects in memory: what no run of the built program shows, as devices that
//! fail, an input that is left and each number of steps.

use crate::top::gostk;
use outside::{CleanSource, Failed, MemFiles, MemSink, MemSource, Source};
use std::alloc::Global;
use std::test::Fail;

// The status, and what out and err took.
#[derive(Drop)]
struct Ran {
    status: u8,
    out: Vec<u8>,
    err: Vec<u8>,
}

fn fails_at(alloc: Global, call: u64) -> Result<Vec<u64>, Fail> {
    let mut calls = Vec::new(alloc);
    if call > 0 {
        calls.push(call)?;
    }
    Ok(calls)
}

// Runs `gostk` on these words and this input, where `a.go` and `a` hold this text. The call of this number fails of out and of
// err, if it isn't 0.
fn run_with<I: Source>(
    alloc: Global,
    words: &[&str],
    text: &[u8],
    input: &mut I,
    out_fails: u64,
    err_fails: u64,
) -> Result<Ran, Fail> {
    let mut owned = Vec::new(alloc);
    for word in words {
        owned.push(String::from_str(alloc, word)?)?;
    }
    let mut held = Vec::new(alloc);
    for name in ["a.go", "a"] {
        held.push((
            String::from_str(alloc, name)?,
            Vec::from_slice(alloc, text)?,
        ))?;
    }
    let mut files = MemFiles::new(alloc, held, Vec::new(alloc));
    let mut out = MemSink::new(alloc, fails_at(alloc, out_fails)?);
    let mut err = MemSink::new(alloc, fails_at(alloc, err_fails)?);
    let status = gostk(alloc, &owned, &mut files, input, &mut out, &mut err);
    Ok(Ran {
        status,
        out: Vec::from_slice(alloc, out.bytes())?,
        err: Vec::from_slice(alloc, err.bytes())?,
    })
}

// The same with an empty input.
fn run_on(
    alloc: Global,
    words: &[&str],
    text: &[u8],
    out_fails: u64,
    err_fails: u64,
) -> Result<Ran, Fail> {
    let mut input = CleanSource::new(Vec::new(alloc));
    run_with(alloc, words, text, &mut input, out_fails, err_fails)
}

// One program under each number of steps: what it prints is a beginning of what it prints under the next one, and it is
// stopped under the first ones and ends under the others.
#[test]
fn steps(rt: HostRuntime) -> Result<(), Fail> {
    let text =
        b"package main\nfunc main() { i := 0; for i < 3 { println(i); i = i + 1 }; println(9) }\n";
    let mut before = Vec::new(rt.alloc());
    let mut ended = false;
    for n in 0..101 {
        let option = format!(in rt.alloc(); "--steps={n}")?;
        let got = run_on(
            rt.alloc(),
            &["gostk", "run", option.as_str(), "a.go"],
            text,
            0,
            0,
        )?;
        assert!(rt;
            got.out.as_slice().starts_with(before.as_slice()),
            "{n} steps"
        );
        if got.status == 0 {
            ended = true;
            assert_eq!(rt; got.out.as_slice(), b"0\n1\n2\n9\n".as_slice(), "{n} steps");
            assert!(rt; got.err.is_empty(), "{n} steps");
        } else {
            let line = format!(in rt.alloc(); "gostk: steps {n}\n")?;
            assert_eq!(rt; got.status, 205, "{n} steps");
            assert_eq!(rt; got.err.as_slice(), line.as_bytes(), "{n} steps");
            assert!(rt; !ended, "{n} steps");
        }
        before = got.out;
    }
    assert!(rt; ended);
    Ok(())
}

#[test]
fn devices_fail(rt: HostRuntime) -> Result<(), Fail> {
    let two_lines = "package main\nfunc main() { println(1); println(2) }";
    let panic = "package main\nfunc main() { x := 0; println(2); println(1/x) }";
    let table: [(&str, u64, u64, u8, &str, &str); 5] = [
        (two_lines, 3, 0, 204, "1\n", "gostk: write fault\n"),
        (two_lines, 3, 1, 204, "1\n", ""),
        (two_lines, 0, 1, 0, "1\n2\n", ""),
        (panic, 0, 1, 204, "2\n", ""),
        ("", 0, 4, 204, "", "a.go:1"),
    ];
    for (i, (text, out_fails, err_fails, status, out, err)) in table.iter().enumerate() {
        let words: &[&str] = &["gostk", "run", "a.go"];
        let got = run_on(rt.alloc(), words, text.as_bytes(), *out_fails, *err_fails)?;
        assert_eq!(rt; got.status, *status, "row {i}");
        assert_eq!(rt; got.out.as_slice(), out.as_bytes(), "row {i}");
        assert_eq!(rt; got.err.as_slice(), err.as_bytes(), "row {i}");
    }
    Ok(())
}

// An input of three bytes, whose first read fails, is as it was where no program asks for an item: its first read still fails,
// and then all of its bytes come.
#[test]
fn input_is_left(rt: HostRuntime) -> Result<(), Fail> {
    let one = "package main\nfunc main() { println(1) }";
    let panic = "package main\nfunc main() { x := 0; println(1/x) }";
    let table: [(&[&str], &str, u8); 7] = [
        (&[], one, 200),
        (&["gostk", "run", "a.go"], one, 0),
        (&["gostk", "run", "a.go"], panic, 2),
        (&["gostk", "run", "a"], one, 200),
        (&["gostk", "run", "a.go"], "", 201),
        (&["gostk", "run", "b.go"], one, 203),
        (&["gostk", "run", "--steps", "0", "a.go"], one, 205),
    ];
    for (i, (words, text, status)) in table.iter().enumerate() {
        let mut input = MemSource::new(
            Vec::from_slice(rt.alloc(), b"1 2")?,
            fails_at(rt.alloc(), 1)?,
        );
        let got = run_with(rt.alloc(), words, text.as_bytes(), &mut input, 0, 0)?;
        assert_eq!(rt; got.status, *status, "row {i}");
        let mut buf = [0u8; 4];
        assert_eq!(rt; input.read(&mut buf), Err(Failed), "row {i}");
        assert_eq!(rt; input.read(&mut buf), Ok(3), "row {i}");
        assert_eq!(rt; buf, *b"1 2\0", "row {i}");
    }
    Ok(())
}

// Items are read until there is none, and the sum so far is printed for each. The read of this number fails, if it isn't 0. One
// read of the input gives all its bytes, and the next one tells that they have ended.
#[test]
fn items_are_read(rt: HostRuntime) -> Result<(), Fail> {
    let sums =
        "package main\nfunc readInt() (int, bool)\nfunc main() { s := 0; a, ok := readInt(); for ok { s = s + a; println(s); a, ok = readInt() }; println(9) }";
    let five =
        "package main\nfunc readInt() (int, bool)\nfunc main() { for range 5 { a, ok := readInt(); println(a, ok) } }";
    let table: [(&str, &str, u64, u8, &str, &str); 9] = [
        (sums, "1 2\n-4", 0, 0, "1\n3\n-1\n9\n", ""),
        (sums, "", 0, 0, "9\n", ""),
        (sums, "5 x 7", 0, 0, "5\n9\n", ""),
        (sums, "1 2", 1, 203, "", "gostk: read fault\n"),
        (sums, "1 2", 2, 203, "1\n", "gostk: read fault\n"),
        (sums, "1 2", 3, 0, "1\n3\n9\n", ""),
        (
            five,
            "5 -7 x 99999999999999999999",
            0,
            0,
            "5 true\n-7 true\n0 false\n0 false\n0 false\n",
            "",
        ),
        (
            five,
            "5 -7 ",
            2,
            203,
            "5 true\n-7 true\n",
            "gostk: read fault\n",
        ),
        (
            five,
            "-9223372036854775808 9223372036854775807",
            0,
            0,
            "-9223372036854775808 true\n9223372036854775807 true\n0 false\n0 false\n0 false\n",
            "",
        ),
    ];
    for (i, (text, items, fails, status, out, err)) in table.iter().enumerate() {
        let mut input = MemSource::new(
            Vec::from_slice(rt.alloc(), items.as_bytes())?,
            fails_at(rt.alloc(), *fails)?,
        );
        let words: &[&str] = &["gostk", "run", "a.go"];
        let got = run_with(rt.alloc(), words, text.as_bytes(), &mut input, 0, 0)?;
        assert_eq!(rt; got.status, *status, "row {i}");
        assert_eq!(rt; got.out.as_slice(), out.as_bytes(), "row {i}");
        assert_eq!(rt; got.err.as_slice(), err.as_bytes(), "row {i}");
    }
    Ok(())
}
