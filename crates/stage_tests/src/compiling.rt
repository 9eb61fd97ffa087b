//! Texts through all stages, over ample memory.

use base::Pos;
use compile::{CompileFault, compile};
use frame_layout::LayoutFault;
use std::alloc::Global;
use std::test::Fail;
use type_faults::{Fault, FaultKind, TypeFault};

fn pos(offset: u32, line: u32, col: u32) -> Pos {
    Pos { offset, line, col }
}

/// The fault of a text, if it has one.
fn fault_of(alloc: Global, text: &[u8]) -> Option<CompileFault> {
    match compile(alloc, text) {
        Ok(_) => None,
        Err(fault) => Some(fault),
    }
}

#[test]
fn accepted_texts(rt: HostRuntime) -> Result<(), Fail> {
    // The body, the words of the frame, and the instructions of the code.
    let table: [(&str, u16, usize); 5] = [
        ("", 2, 1),
        ("println()", 2, 2),
        ("println(1+2*3)", 3, 4),
        ("x := 9223372036854775807; println(x + 1)", 5, 9),
        (
            "x := -9223372036854775808; y := (x); println(x - y * 2, -x)",
            7,
            18,
        ),
    ];
    for (body, frame, instructions) in table {
        let text = format!(in rt.alloc(); "package main\nfunc main() {{ {body} }}\n")?;
        match compile(rt.alloc(), text.as_bytes()) {
            Ok(compiled) => {
                match compiled.layouts.frames() {
                    [main] => assert_eq!(rt; main.frame, frame, "of {body}"),
                    _ => assert!(rt; false, "of {body}: another number of frames"),
                }
                assert_eq!(rt; compiled.code.instrs().len(), instructions, "of {body}");
            }
            Err(fault) => assert!(rt; false, "{body}: {fault:?}"),
        }
    }
    Ok(())
}

// A frame of 65,535 words passes: 65,533 temps and the link.
#[test]
fn the_largest_frame(rt: HostRuntime) -> Result<(), Fail> {
    let too_large = CompileFault::Layout(LayoutFault::FrameTooLarge {
        pos: pos(18, 2, 6),
        words: 65_536,
    });
    for (operands, fault) in [(65_533, None), (65_534, Some(too_large))] {
        let mut text = String::from_str(rt.alloc(), "package main\nfunc main() { println(0")?;
        for _ in 1..operands {
            text.push_str(",0")?;
        }
        text.push_str(") }\n")?;
        assert_eq!(rt;
            fault_of(rt.alloc(), text.as_bytes()),
            fault,
            "{operands} operands"
        );
    }
    Ok(())
}

/// The 4,097th function stands at its name.
#[test]
fn too_many_functions(rt: HostRuntime) -> Result<(), Fail> {
    let alloc = rt.alloc();
    let mut text = String::from_str(alloc, "package main\nfunc main() {}\n")?;
    for _ in 1..4096 {
        text.push_str("func _() {}\n")?;
    }
    assert_eq!(rt; fault_of(alloc, text.as_bytes()), None);
    text.push_str("func _() {}\n")?;
    let too_many = CompileFault::Typing(TypeFault::Fault(Fault {
        kind: FaultKind::TooLarge,
        pos: pos(49_173, 4098, 6),
    }));
    assert_eq!(rt; fault_of(alloc, text.as_bytes()), Some(too_many));
    Ok(())
}
