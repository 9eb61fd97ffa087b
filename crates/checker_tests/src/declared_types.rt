//! The types that a program declares, from its text to the table.

use crate::answers::tree_of;
use base::{NoMemory, StructId, TypeId, ValueType};
use constants::{Constant, Fixed};
use declared_structs::{ProgramTypes, declarations_fault, program_types};
use entered_types::enter_types;
use names::{Declared, Known, Scope, ValueId, beginning};
use parse_go::ParseFault;
use signatures::add_heads;
use std::alloc::Global;
use std::process::Abort;
use std::test::Fail;
use syntax::Tree;
use type_faults::{Fault, lesser};
use typed::TypeTable;

/// The names of a package, and a constant `n` that is 3.
fn named(alloc: Global, tree: &Tree, scope: &mut Scope) -> Result<(), NoMemory> {
    scope.declare(b"n", Declared::Constant(ValueId(0)))?;
    scope.add_value(Some(Known::Constant(Fixed {
        value_type: None,
        value: Constant::Number(3),
    })))?;
    add_heads(alloc, &tree.text, scope, &tree.decls)
}

/// Enters the types of a package, and answers the fault of its structs.
fn typed(alloc: Global, tree: &Tree, scope: &mut Scope) -> Result<Option<Fault>, NoMemory> {
    let ProgramTypes { table, fault } = program_types(alloc, &tree.text, scope, &tree.decls)?;
    scope.types = table;
    enter_types(alloc, &tree.text, scope, &tree.decls)?;
    let own = declarations_fault(alloc, &tree.text, scope, &tree.decls)?;
    Ok(lesser(fault, own))
}

fn typed_parsed(
    rt: &impl Abort,
    alloc: Global,
    parsed: &Result<Tree, ParseFault>,
    scope: &mut Scope,
) -> Result<Option<Fault>, Fail> {
    match parsed {
        Ok(tree) => {
            named(alloc, tree, scope)?;
            Ok(typed(alloc, tree, scope)?)
        }
        Err(fault) => {
            assert!(rt; false, "{fault:?}");
            Ok(None)
        }
    }
}

/// The kind and the column of the fault of a text's structs.
fn fault_in(rt: &impl Abort, alloc: Global, text: &str) -> Result<Option<(u8, u32)>, Fail> {
    let parsed = tree_of(alloc, text)?;
    let mut scope = beginning(alloc)?;
    let fault = typed_parsed(rt, alloc, &parsed, &mut scope)?;
    Ok(fault.map(|fault| (fault.kind.number(), fault.pos.col)))
}

/// The rules of structs by themselves: of their names, their fields' names, and the types of these.
#[test]
fn structs_by_themselves(rt: HostRuntime) -> Result<(), Fail> {
    let alloc = rt.alloc();
    let rows = [
        ("package main; type P struct { x, y int; b [n]bool }", None),
        ("package main; type _ struct { x int }", None),
        (
            "package main; type P struct { a int }; type P struct { b int }",
            Some((2, 45)),
        ),
        ("package main; type P struct { a int }; var P int", None),
        (
            "package main; var P int; type P struct { a int }",
            Some((2, 31)),
        ),
        ("package main; type init struct { a int }", Some((20, 20))),
        ("package main; type P struct { a, b, a int }", Some((2, 37))),
        (
            "package main; type P struct { a int; _ bool }",
            Some((20, 38)),
        ),
        ("package main; type P struct { a u }", Some((1, 33))),
        ("package main; type P struct { a n }", Some((14, 33))),
        ("package main; type P struct { a string }", Some((20, 33))),
        ("package main; type P struct { a *P }", Some((20, 33))),
        (
            "package main; type P struct { a [n - 4]int }",
            Some((13, 34)),
        ),
        (
            "package main; type P struct { a [true]int }",
            Some((14, 34)),
        ),
        ("package main; type P struct { a [0]int }", Some((16, 33))),
        (
            "package main; type P struct { a [2][n - 3]int }",
            Some((16, 36)),
        ),
        (
            "package main; type P struct { a [65536]int }",
            Some((21, 33)),
        ),
    ];
    for (text, want) in rows {
        let found = fault_in(&rt, alloc, text)?;
        assert_eq!(rt; found, want, "{text}");
    }
    Ok(())
}

/// The rules of their sizes, and of one that holds itself.
#[test]
fn sizes_of_structs(rt: HostRuntime) -> Result<(), Fail> {
    let alloc = rt.alloc();
    let rows = [
        ("package main; type P struct { }", Some((16, 20))),
        ("package main; type P struct { a P }", Some((15, 20))),
        ("package main; type P struct { a [2]P }", Some((15, 20))),
        (
            "package main; type P struct { q Q }; type Q struct { p P }",
            Some((15, 20)),
        ),
        (
            "package main; type P struct { a Q }; type Q struct { b Q }",
            Some((15, 43)),
        ),
        (
            "package main; type P struct { a, b [40000]int }",
            Some((21, 20)),
        ),
        ("package main; type P struct { a [65535]int }", None),
        (
            "package main; type P struct { a [2]Q }; type Q struct { b [40000]int }",
            Some((21, 33)),
        ),
        (
            "package main; type P struct { a [30000]Q }; type Q struct { b, c [n]u }",
            Some((1, 69)),
        ),
    ];
    for (text, want) in rows {
        let found = fault_in(&rt, alloc, text)?;
        assert_eq!(rt; found, want, "{text}");
    }
    Ok(())
}

/// A struct that holds another, which is declared after it; and arrays in the head and the body of a function.
const TEXT: &str = "package main
type L struct { ends [2]P; on bool }
type P struct { x, y int }
type R struct { r R }
func f(a [n]P) [2][n]int { for { var b = [1][n]L{ }; var c [n]R } }
";

/// The number of arrays of a length, of elements of a type.
fn array_number(types: &TypeTable, length: u64, element: ValueType) -> Option<TypeId> {
    types.find(ValueType::Array(length, types.find(element)?))
}

fn check_words(rt: &impl Abort, types: &TypeTable) {
    let structs = [Some(5), Some(2), None];
    for (number, want) in structs.iter().enumerate() {
        let value_type = ValueType::Struct(StructId(number as u32));
        assert!(rt; types.find(value_type).is_some(), "{number}");
        assert_eq!(rt; types.words(value_type), *want, "{number}");
    }
}

/// Which arrays of structs and of ints have a number.
fn check_arrays(rt: &impl Abort, types: &TypeTable) {
    let l = ValueType::Struct(StructId(0));
    let p = ValueType::Struct(StructId(1));
    let r = ValueType::Struct(StructId(2));
    let rows = [
        (2, p, true),
        (3, p, true),
        (4, p, false),
        (3, l, true),
        (2, l, false),
        (3, ValueType::Int, true),
        (2, ValueType::Int, false),
        (3, r, false),
    ];
    for (length, element, want) in rows {
        let number = array_number(types, length, element);
        assert_eq!(rt; number.is_some(), want, "{length} {element:?}");
    }
}

/// Each struct that isn't refused has its words, and each array type that stands in the text is in the table.
#[test]
fn table_of_a_program(rt: HostRuntime) -> Result<(), Fail> {
    let alloc = rt.alloc();
    let parsed = tree_of(alloc, TEXT)?;
    let mut scope = beginning(alloc)?;
    let fault = typed_parsed(&rt, alloc, &parsed, &mut scope)?;
    assert_eq!(rt;
        fault.map(|fault| (fault.kind.number(), fault.pos.line)),
        Some((15, 4))
    );
    check_words(&rt, &scope.types);
    check_arrays(&rt, &scope.types);
    Ok(())
}
