//! The reports of worked programs, byte for byte.

use crate::worked::{handed_back, returned, stored};
use base::Pos;
use explain::{SiteName, explained, is_ready};
use std::alloc::Global;
use std::test::Fail;
use value_flows::Program;

// Names with one byte each, and their lines and columns.
fn names_of(alloc: Global, places: &[(u8, u32, u32)]) -> Result<Vec<SiteName>, Fail> {
    let mut names = Vec::new(alloc);
    for (byte, line, col) in places {
        let pos = Pos {
            offset: 0,
            line: *line,
            col: *col,
        };
        let name = vec![in alloc; *byte]?;
        names.push(SiteName { pos, name })?;
    }
    Ok(names)
}

// The report of a program whose sites have these names and places.
fn report_of(alloc: Global, program: &Program, places: &[(u8, u32, u32)]) -> Result<Vec<u8>, Fail> {
    let names = names_of(alloc, places)?;
    if !is_ready(program, &names) {
        return Err("a program or names that are not ready")?;
    }
    Ok(explained(alloc, program, &names)?)
}

#[test]
fn worked_programs(rt: HostRuntime) -> Result<(), Fail> {
    let alloc = rt.alloc();
    let report = report_of(alloc, &returned(alloc)?, &[(b'x', 2, 17)])?;
    let expected: &[u8] = b"site 0 2:17 x heap flow f0.r0\nstep f0.r0 s0 -1 -1\n";
    assert_eq!(rt; &report[..], expected);
    let report = report_of(alloc, &handed_back(alloc)?, &[(b'p', 2, 9), (b'x', 3, 15)])?;
    let expected: &[u8] = b"site 0 2:9 p stack\nsite 1 3:15 x stack\ntag 0 0 result 0 0\n";
    assert_eq!(rt; &report[..], expected);
    let places = [(b'q', 2, 10), (b'r', 2, 19), (b'p', 3, 19), (b'x', 3, 27)];
    let report = report_of(alloc, &stored(alloc)?, &places)?;
    let expected: &[u8] =
        b"site 0 2:10 q stack\nsite 1 2:19 r stack\nsite 2 3:19 p stack\nsite 3 3:27 x heap flow heap\nstep heap s3 -1 -1\ntag 0 0 none\ntag 0 1 heap 0\n";
    assert_eq!(rt; &report[..], expected);
    Ok(())
}

#[test]
fn names_that_are_not_ready(rt: HostRuntime) -> Result<(), Fail> {
    let alloc = rt.alloc();
    let program = returned(alloc)?;
    assert!(rt; is_ready(&program, &names_of(alloc, &[(b'x', 2, 17)])?));
    assert!(rt; !is_ready(&program, &names_of(alloc, &[(b' ', 2, 17)])?));
    assert!(rt; !is_ready(&program, &names_of(alloc, &[(b'\n', 2, 17)])?));
    assert!(rt; !is_ready(&program, &names_of(alloc, &[])?));
    Ok(())
}
