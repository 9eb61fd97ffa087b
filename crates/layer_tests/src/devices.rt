//! What no clause of `outside` says: that the calls succeed where memory is ample, what is answered when a device fails in
//! mid-stream, and that real files and streams carry bytes.

use outside::{
    CleanFiles, CleanSink, CleanSource, DiskFiles, Failed, FileFault, Files, IntReader, LinePart,
    MemFiles, MemSink, MemSource, ReadFault, Sink, Source, StdSink, StdSource, WriteFault,
    put_bool, put_bytes, put_int, put_line, put_number,
};
use std::alloc::Global;
use std::fs;
use std::test::Fail;

fn owned(alloc: Global, text: &str) -> Result<String, Fail> {
    Ok(String::from_str(alloc, text)?)
}

fn bytes(alloc: Global, text: &[u8]) -> Result<Vec<u8>, Fail> {
    Ok(Vec::from_slice(alloc, text)?)
}

#[test]
fn sources_fail_at_listed_reads(rt: HostRuntime) -> Result<(), Fail> {
    let mut source = MemSource::new(bytes(rt.alloc(), b"abcde")?, vec![in rt.alloc(); 2]?);
    let mut clean = CleanSource::new(bytes(rt.alloc(), b"abc")?);
    let mut buf = [0u8; 2];
    for (i, want) in [Ok(2), Err(Failed), Ok(2), Ok(1), Ok(0)].iter().enumerate() {
        assert_eq!(rt; source.read(&mut buf), *want, "read {i}");
    }
    assert_eq!(rt; buf, *b"ed");
    for (i, want) in [Ok(2), Ok(1), Ok(0)].iter().enumerate() {
        assert_eq!(rt; clean.read(&mut buf), *want, "clean read {i}");
    }
    assert_eq!(rt; buf, *b"cb");
    Ok(())
}

#[test]
fn sinks_fail_at_listed_writes(rt: HostRuntime) -> Result<(), Fail> {
    let mut sink = MemSink::new(rt.alloc(), vec![in rt.alloc(); 2]?);
    assert_eq!(rt; sink.write(b"ab"), Ok(2));
    assert_eq!(rt; sink.write(b"cd"), Err(Failed));
    assert_eq!(rt; sink.write(b""), Ok(0));
    assert_eq!(rt; sink.write(b"ef"), Ok(2));
    assert_eq!(rt; sink.bytes(), b"abef".as_slice());
    Ok(())
}

#[test]
fn room_is_kept(rt: HostRuntime) -> Result<(), Fail> {
    let mut sink = CleanSink::new(rt.alloc(), 3)?;
    assert_eq!(rt; sink.write(b"ab"), Ok(2));
    assert_eq!(rt; sink.write(b"c"), Ok(1));
    assert_eq!(rt; sink.bytes(), b"abc".as_slice());
    assert_eq!(rt; sink.write(b"d"), Ok(1));
    Ok(())
}

#[test]
fn files_in_memory(rt: HostRuntime) -> Result<(), Fail> {
    let held = vec![in rt.alloc(); (owned(rt.alloc(), "a.go")?, bytes(rt.alloc(), b"old")?)]?;
    let mut files = MemFiles::new(rt.alloc(), held, vec![in rt.alloc(); 3]?);
    assert_eq!(rt;
        files.read_all(rt.alloc(), "a.go")?.as_slice(),
        b"old".as_slice()
    );
    assert_eq!(rt; files.read_all(rt.alloc(), "b.go").is_err(), true);
    assert_eq!(rt; files.read_all(rt.alloc(), "a.go").is_err(), true);
    files.write_all(rt.alloc(), "a.go", b"new")?;
    assert_eq!(rt;
        files.read_all(rt.alloc(), "a.go")?.as_slice(),
        b"new".as_slice()
    );
    assert_eq!(rt; files.held("a.go").ok_or("held")?, b"new".as_slice());
    assert_eq!(rt; files.held("b.go").is_none(), true);
    Ok(())
}

#[test]
fn clean_files(rt: HostRuntime) -> Result<(), Fail> {
    let held = vec![in rt.alloc(); (owned(rt.alloc(), "a.go")?, bytes(rt.alloc(), b"old")?)]?;
    let mut files = CleanFiles::new(rt.alloc(), held);
    assert_eq!(rt;
        files.read_all(rt.alloc(), "b.go")?.as_slice(),
        b"".as_slice()
    );
    files.write_all(rt.alloc(), "b.go", b"new")?;
    assert_eq!(rt;
        files.read_all(rt.alloc(), "b.go")?.as_slice(),
        b"new".as_slice()
    );
    assert_eq!(rt; files.held("a.go").ok_or("held")?, b"old".as_slice());
    Ok(())
}

#[test]
fn real_files(rt: HostRuntime) -> Result<(), Fail> {
    let name = "outside_carries_bytes";
    let mut files = DiskFiles::new(rt.alloc(), rt.clone()?);
    files.write_all(rt.alloc(), name, b"a\0\xff\n")?;
    assert_eq!(rt;
        files.read_all(rt.alloc(), name)?.as_slice(),
        b"a\0\xff\n".as_slice()
    );
    assert_eq!(rt;
        files.read_all(rt.alloc(), "outside_missing/x").err(),
        Some(FileFault::Failed)
    );
    assert_eq!(rt;
        files.write_all(rt.alloc(), "outside_missing/x", b"").err(),
        Some(FileFault::Failed)
    );
    Ok(fs::remove_file(&rt, name)?)
}

#[test]
fn adapters_carry_bytes(rt: HostRuntime) -> Result<(), Fail> {
    let mut source = StdSource::new(b"abc".as_slice());
    let mut buf = [0u8; 2];
    assert_eq!(rt; source.read(&mut buf), Ok(2));
    assert_eq!(rt; buf, *b"ab");
    let mut written = Vec::new(rt.alloc());
    let mut sink = StdSink::new(&mut written);
    assert_eq!(rt; sink.write(b"xyz"), Ok(3));
    assert_eq!(rt; written.as_slice(), b"xyz".as_slice());
    Ok(())
}

// A sink that takes one byte of each piece.
#[derive(Drop)]
struct Drip {
    sink: MemSink,
}

impl Sink for Drip {
    ghost use Rattle.std.specs.Prelude.{Some, length};

    ghost taken = { λ s. Some s.sink.taken };

    ghost number = { λ s. Some (length s.sink.taken) };

    ghost faults = { λ s. s.sink.faults };

    fn write(&mut self, piece: &[u8]) -> Result<usize, Failed> {
        match piece {
            [] => Ok(0),
            [_, ..] => self.sink.write(&piece[..1]),
        }
    }
}

#[test]
fn lines_over_a_failing_sink(rt: HostRuntime) -> Result<(), Fail> {
    let pieces = [
        LinePart::Text(b"x "),
        LinePart::Int(-25),
        LinePart::Text(b", "),
        LinePart::Number(7),
    ];
    let table: [(u64, &[u8], Result<(), WriteFault>); 4] = [
        (9, b"x -25, 7", Ok(())),
        (1, b"", Err(WriteFault { gone: 0 })),
        (5, b"x -2", Err(WriteFault { gone: 2 })),
        (8, b"x -25, ", Err(WriteFault { gone: 0 })),
    ];
    for (fails, text, want) in table {
        let mut sink = Drip {
            sink: MemSink::new(rt.alloc(), vec![in rt.alloc(); fails]?),
        };
        assert_eq!(rt;
            put_line(&mut sink, &pieces),
            want,
            "where write {fails} fails"
        );
        assert_eq!(rt; sink.sink.bytes(), text, "where write {fails} fails");
    }
    Ok(())
}

#[test]
fn numbers_in_decimal(rt: HostRuntime) -> Result<(), Fail> {
    let mut sink = MemSink::new(rt.alloc(), Vec::new(rt.alloc()));
    for n in [0, -1, i64::MAX, i64::MIN] {
        put_int(&mut sink, n)?;
        put_bytes(&mut sink, b" ")?;
    }
    put_number(&mut sink, u64::MAX)?;
    assert_eq!(rt;
        sink.bytes(),
        b"0 -1 9223372036854775807 -9223372036854775808 18446744073709551615".as_slice()
    );
    Ok(())
}

#[test]
fn booleans(rt: HostRuntime) -> Result<(), Fail> {
    let mut sink = MemSink::new(rt.alloc(), Vec::new(rt.alloc()));
    put_bool(&mut sink, true)?;
    put_bool(&mut sink, false)?;
    assert_eq!(rt; sink.bytes(), b"truefalse".as_slice());
    Ok(())
}

// A source that gives one byte at a time.
#[derive(Drop)]
struct Slow {
    source: MemSource,
}

impl Source for Slow {
    ghost use Rattle.std.specs.Prelude.{Some};

    ghost left = { λ s. Some s.source.left };

    ghost faults = { λ s. s.source.faults };

    fn read(&mut self, buf: &mut [u8]) -> Result<usize, Failed> {
        let mut one = [0u8; 1];
        if buf.is_empty() {
            return Ok(0);
        }
        let count = self.source.read(&mut one)?;
        buf[0] = one[0];
        Ok(count)
    }
}

fn one_by_one(alloc: Global, text: &[u8], fails: &[u64]) -> Result<Slow, Fail> {
    let fails = Vec::from_slice(alloc, fails)?;
    Ok(Slow {
        source: MemSource::new(bytes(alloc, text)?, fails),
    })
}

#[test]
fn numbers_between_separators(rt: HostRuntime) -> Result<(), Fail> {
    let text = b"5 -7 x 99999999999999999999";
    let want = [Some(5), Some(-7), None, None, None, None];
    let mut short = one_by_one(rt.alloc(), text, &[])?;
    let mut whole = CleanSource::new(bytes(rt.alloc(), text)?);
    let (mut by_bytes, mut by_buffer) = (IntReader::new(), IntReader::new());
    for number in want {
        assert_eq!(rt; by_bytes.next(&mut short), Ok(number));
        assert_eq!(rt; by_buffer.next(&mut whole), Ok(number));
    }
    Ok(())
}

#[test]
fn forms_of_numbers(rt: HostRuntime) -> Result<(), Fail> {
    let rows: [(&[u8], Option<i64>); 16] = [
        (b"", None),
        (b" \t\r\n", None),
        (b"\r\n12\r\n", Some(12)),
        (b"\t0", Some(0)),
        (b"-0", Some(0)),
        (b"007", Some(7)),
        (b"+1", None),
        (b"-", None),
        (b"--1", None),
        (b"1-2", None),
        (b"1\0", None),
        (b"0x1", None),
        (b"9223372036854775807", Some(i64::MAX)),
        (b"9223372036854775808", None),
        (b"-9223372036854775808", Some(i64::MIN)),
        (b"-9223372036854775809", None),
    ];
    for (text, want) in rows {
        let mut source = CleanSource::new(bytes(rt.alloc(), text)?);
        assert_eq!(rt; IntReader::new().next(&mut source), Ok(want));
    }
    Ok(())
}

// The third read fails, within the number 123; what came of it is gone, and the rest is read as a number of its own.
#[test]
fn a_read_fails_within_a_number(rt: HostRuntime) -> Result<(), Fail> {
    let mut source = one_by_one(rt.alloc(), b"123 4", &[3])?;
    let mut reader = IntReader::new();
    assert_eq!(rt; reader.next(&mut source), Err(ReadFault));
    for number in [Some(3), Some(4), None] {
        assert_eq!(rt; reader.next(&mut source), Ok(number));
    }
    Ok(())
}

#[test]
fn a_call_takes_at_most_a_number_of_bytes(rt: HostRuntime) -> Result<(), Fail> {
    let rows: [(usize, &[u8], &[Option<i64>]); 5] = [
        (1048574, b"5\n6", &[Some(5), Some(6), None]),
        (1048575, b"5", &[None, None]),
        (1048575, b"57", &[None, Some(7), None]),
        (1048575, b"5 7", &[None, Some(7), None]),
        (1048576, b"5", &[None, Some(5), None]),
    ];
    for (spaces, item, want) in rows {
        let mut text = vec![in rt.alloc(); b' '; spaces]?;
        text.extend_from_slice(item)?;
        let mut source = CleanSource::new(text);
        let mut reader = IntReader::new();
        for number in want {
            assert_eq!(rt;
                reader.next(&mut source),
                Ok(*number),
                "after {spaces} spaces"
            );
        }
    }
    Ok(())
}
