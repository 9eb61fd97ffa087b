//! The structs of a package, and their fields by their names.

use crate::answers::tree_of;
use base::{StructId, ValueType};
use function_heads::add_items;
use names::{Blocks, Declared, Scope, beginning};
use parse_go::ParseFault;
use signatures::add_heads;
use std::alloc::Global;
use std::process::Abort;
use std::test::Fail;
use syntax::Tree;

/// Five structs, of which one is blank and one has a name that is declared before; some fields are blank or have such a name.
const TEXT: &str = "package main
type P struct { x, y int }
var p P
type (L struct { ends [2]P; on bool }; P struct { a int })
type _ struct { _ int; b, b bool; c, _ P; b int; d int }
func main() { }
type E struct { }
";

fn check_fields(rt: &impl Abort, fields: &[Blocks]) {
    let rows: [(usize, &[u8], Option<u32>); 12] = [
        (0, b"x", Some(0)),
        (0, b"y", Some(1)),
        (0, b"a", None),
        (1, b"ends", Some(0)),
        (1, b"on", Some(1)),
        (2, b"a", Some(0)),
        (2, b"x", None),
        (3, b"b", Some(0)),
        (3, b"c", Some(1)),
        (3, b"d", Some(2)),
        (3, b"_", None),
        (4, b"x", None),
    ];
    for (number, name, want) in rows {
        match fields.get(number) {
            Some(noted) => assert_eq!(rt; noted.innermost(name), want, "{number}"),
            None => assert!(rt; false, "no struct {number}"),
        }
    }
    let counts = [2, 2, 1, 3, 0];
    for (noted, count) in fields.iter().zip(counts) {
        assert_eq!(rt; noted.count(), count);
    }
}

fn check_names(rt: &impl Abort, scope: &Scope) {
    let rows: [(&[u8], u32); 3] = [(b"P", 0), (b"L", 1), (b"E", 4)];
    for (name, number) in rows {
        let want = Declared::Type(ValueType::Struct(StructId(number)));
        assert_eq!(rt; scope.declaration(name), Some(want), "{number}");
    }
    assert_eq!(rt; scope.declaration(b"_"), None);
}

fn check_scope(rt: &impl Abort, scope: &Scope) {
    assert_eq!(rt; scope.struct_count(), 5);
    check_fields(rt, &scope.fields);
    check_names(rt, scope);
}

/// Declares what the package does among the names of its heads and in its block.
fn declare(
    rt: &impl Abort,
    alloc: Global,
    tree: &Tree,
    heads: &mut Scope,
    scope: &mut Scope,
) -> Result<(), Fail> {
    add_heads(alloc, &tree.text, heads, &tree.decls)?;
    check_scope(rt, heads);
    add_items(alloc, &tree.text, heads, scope, &tree.decls)?;
    check_scope(rt, scope);
    Ok(())
}

fn declare_parsed(
    rt: &impl Abort,
    alloc: Global,
    parsed: &Result<Tree, ParseFault>,
    heads: &mut Scope,
    scope: &mut Scope,
) -> Result<(), Fail> {
    match parsed {
        Ok(tree) => declare(rt, alloc, tree, heads, scope),
        Err(fault) => {
            assert!(rt; false, "{fault:?}");
            Ok(())
        }
    }
}

/// Each struct has the next number, and each field that has a name of its own.
#[test]
fn structs_of_a_package(rt: HostRuntime) -> Result<(), Fail> {
    let alloc = rt.alloc();
    let parsed = tree_of(alloc, TEXT)?;
    let mut heads = beginning(alloc)?;
    let mut scope = beginning(alloc)?;
    declare_parsed(&rt, alloc, &parsed, &mut heads, &mut scope)
}
