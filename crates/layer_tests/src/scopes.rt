//! What no clause of `names` says: that memory is given where it is ample, and tables of blocks, names, values and types.

use base::{FuncId, Pos, StructId, ValueType};
use constants::{Constant, untyped};
use names::{Blocks, Declared, Known, Scope, ValueId, beginning, type_fault, type_in};
use std::alloc::Global;
use std::process::Abort;
use std::test::Fail;
use syntax::{Expr, Name};
use type_faults::FaultKind;

/// Shadowing and the ends of scopes (Go specification, "Declarations and scope").
#[test]
fn inner_names_hide_outer_ones(rt: HostRuntime) -> Result<(), Fail> {
    let mut names = Blocks::new(rt.alloc());
    assert_eq!(rt; names.lookup(b"x"), None);
    names.insert(b"x", 1)?;
    names.insert(b"y", 2)?;
    names.open()?;
    assert_eq!(rt; names.lookup(b"x"), Some(1));
    assert_eq!(rt; names.innermost(b"x"), None);
    names.insert(b"x", 3)?;
    names.open()?;
    names.insert(b"xy", 4)?;
    names.insert(b"xy", 5)?;
    let within: [(&[u8], Option<u32>); 5] = [
        (b"x", Some(3)),
        (b"y", Some(2)),
        (b"xy", Some(5)),
        (b"X", None),
        (b"", None),
    ];
    for (name, want) in within {
        assert_eq!(rt; names.lookup(name), want);
    }
    names.close();
    assert_eq!(rt; names.lookup(b"xy"), None);
    assert_eq!(rt; names.lookup(b"x"), Some(3));
    names.close();
    assert_eq!(rt; names.lookup(b"x"), Some(1));
    Ok(())
}

/// Outside of all blocks the language declares its names.
#[test]
fn the_universe(rt: HostRuntime) -> Result<(), Fail> {
    let scope = beginning(rt.alloc())?;
    let table: [(&[u8], Option<Declared>); 12] = [
        (b"int", Some(Declared::Type(ValueType::Int))),
        (b"bool", Some(Declared::Type(ValueType::Bool))),
        (b"true", Some(Declared::Truth(true))),
        (b"false", Some(Declared::Truth(false))),
        (b"print", Some(Declared::Print(false))),
        (b"println", Some(Declared::Print(true))),
        (b"panic", Some(Declared::Panic)),
        (b"uint8", Some(Declared::LeftOutType)),
        (b"iota", Some(Declared::LeftOutValue)),
        (b"main", None),
        (b"_", None),
        (b"Int", None),
    ];
    for (name, want) in table {
        assert_eq!(rt; scope.declaration(name), want);
    }
    Ok(())
}

fn check_constants(rt: &impl Abort, scope: &mut Scope) -> Result<(), Fail> {
    let five = Known::Constant(untyped(Constant::Number(5)));
    scope.add_value(None)?;
    scope.add_value(None)?;
    assert_eq!(rt; scope.value_count(), 2);
    scope.set_known(ValueId(1), Some(five));
    scope.set_known(ValueId(2), Some(five));
    assert_eq!(rt; scope.value_count(), 2);
    assert_eq!(rt; scope.known(ValueId(0)), None);
    assert_eq!(rt; scope.known(ValueId(1)), Some(five));
    assert_eq!(rt; scope.known(ValueId(2)), None);
    Ok(())
}

/// The constants of a scope, by their numbers.
#[test]
fn constants_of_a_scope(rt: HostRuntime) -> Result<(), Fail> {
    let mut scope = beginning(rt.alloc())?;
    check_constants(&rt, &mut scope)
}

fn add_string(alloc: Global, scope: &mut Scope, text: &[u8]) -> Result<(), Fail> {
    let string = Vec::from_slice(alloc, text)?;
    Ok(scope.add_strings(Vec::from_array(alloc, [string])?)?)
}

fn check_strings(rt: &impl Abort, alloc: Global, scope: &mut Scope) -> Result<(), Fail> {
    add_string(alloc, scope, b"hi")?;
    add_string(alloc, scope, b"")?;
    assert_eq!(rt; scope.string_count(), 2);
    Ok(())
}

#[test]
fn strings_of_a_scope(rt: HostRuntime) -> Result<(), Fail> {
    let mut scope = beginning(rt.alloc())?;
    check_strings(&rt, rt.alloc(), &mut scope)
}

/// What is declared and of which names, with what the language declares, `int`, `bool`, `println` and `string`.
const TEXT: &[u8] = b"f T u k int println bool string";

fn at(offset: u32) -> Pos {
    Pos {
        offset,
        line: 1,
        col: 1,
    }
}

fn word(start: u32, end: u32) -> Expr {
    Expr::Name(Name {
        pos: at(start),
        end,
    })
}

fn declare_names(scope: &mut Scope) -> Result<(), Fail> {
    scope.declare(b"f", Declared::Function(FuncId(0)))?;
    scope.declare(b"T", Declared::Type(ValueType::Struct(StructId(0))))?;
    Ok(scope.declare(b"k", Declared::Constant(ValueId(0)))?)
}

fn check_types(rt: &impl Abort, scope: &Scope) {
    let table: [(u32, u32, Option<FaultKind>); 8] = [
        (8, 11, None),
        (20, 24, None),
        (2, 3, None),
        (12, 19, Some(FaultKind::Unfit)),
        (0, 1, Some(FaultKind::Unfit)),
        (4, 5, Some(FaultKind::Unknown)),
        (6, 7, Some(FaultKind::Unfit)),
        (25, 31, Some(FaultKind::OutOfProfile)),
    ];
    for (start, end, kind) in table {
        let fault = type_fault(TEXT, scope, &word(start, end));
        assert_eq!(rt; fault.map(|fault| fault.kind), kind);
    }
    assert_eq!(rt; type_in(TEXT, scope, &word(2, 3)), None);
}

fn check_parentheses(rt: &impl Abort, alloc: Global, scope: &Scope) -> Result<(), Fail> {
    let inner = Expr::Paren(at(60), Box::new(alloc, word(20, 24))?);
    assert_eq!(rt; type_in(TEXT, scope, &inner), Some(ValueType::Bool));
    Ok(())
}

/// A name as a type, in parentheses or not, where the program declares a function, a type and a constant.
#[test]
fn types(rt: HostRuntime) -> Result<(), Fail> {
    let mut scope = beginning(rt.alloc())?;
    declare_names(&mut scope)?;
    check_types(&rt, &scope);
    check_parentheses(&rt, rt.alloc(), &scope)
}
