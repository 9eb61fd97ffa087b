//! What the checker answers of a text, in writing.

use crate::declarations::{declared, type_word};
use expression_types::{Single, check_single};
use names::Scope;
use operators::{Operand, is_place, type_of};
use parse_go::{ParseFault, parse};
use scan_go::scan;
use std::alloc::{AllocError, Global};
use std::process::Abort;
use std::test::Fail;
use syntax::{Decl, Expr, Tree};
use type_faults::Fault;

/// The tree of a text.
pub fn tree_of(alloc: Global, text: &str) -> Result<Result<Tree, ParseFault>, Fail> {
    let tokens = scan(alloc, text.as_bytes())?;
    Ok(parse(alloc, tokens))
}

/// The first value of a text's first declaration.
fn value_in(tree: &Tree) -> Option<&Expr> {
    match tree.decls.first() {
        Some(Decl::Var(_, specs)) => specs.first()?.values.first(),
        _ => None,
    }
}

/// The type of an operand, and whether it is a place.
fn write_operand(operand: &Operand, out: &mut String) -> Result<(), AllocError> {
    match type_of(operand) {
        Some(value_type) => out.push_str(type_word(value_type))?,
        None => out.push_str("nil")?,
    }
    if is_place(operand) {
        out.push_str(" place")?;
    }
    Ok(())
}

/// The number of a fault's kind, and its column.
fn write_fault(fault: Fault, out: &mut String) -> Result<(), AllocError> {
    write!(out, "{} at {}", fault.kind.number(), fault.pos.col)
}

/// What an expression gives and the fault in it, of which one alone is to be there.
fn write_single(single: &Single, out: &mut String) -> Result<(), AllocError> {
    if let Some(operand) = &single.operand {
        write_operand(operand, out)?;
    }
    if let Some(fault) = single.fault {
        write_fault(fault, out)?;
    }
    Ok(())
}

/// What the checker answers of an expression of a text.
fn write_checked(
    alloc: Global,
    text: &[u8],
    scope: &Scope,
    e: &Expr,
    out: &mut String,
) -> Result<(), Fail> {
    let single = check_single(alloc, text, scope, e)?;
    write_single(&single, out)?;
    Ok(())
}

fn write_tree(
    alloc: Global,
    scope: &Scope,
    parsed: &Result<Tree, ParseFault>,
    out: &mut String,
) -> Result<(), Fail> {
    match parsed {
        Ok(tree) => match value_in(tree) {
            Some(e) => write_checked(alloc, &tree.text, scope, e, out),
            None => Ok(out.push_str("no value")?),
        },
        Err(fault) => Ok(write!(out, "{fault:?}")?),
    }
}

/// What the checker answers of an expression, which stands on a line of its own.
fn answer(alloc: Global, scope: &Scope, line: &str) -> Result<String, Fail> {
    let text = format!(in alloc; "package main; var v =\n{line}\n")?;
    let parsed = tree_of(alloc, text.as_str())?;
    let mut out = String::new(alloc);
    write_tree(alloc, scope, &parsed, &mut out)?;
    Ok(out)
}

fn check_row(rt: &impl Abort, alloc: Global, scope: &Scope, row: &str) -> Result<(), Fail> {
    match row.split_once(" => ") {
        Some((line, want)) => {
            let got = answer(alloc, scope, line)?;
            assert_eq!(rt; got.as_str(), want, "{line}");
        }
        None => assert!(rt; row.is_empty(), "{row}"),
    }
    Ok(())
}

fn check_in(rt: &impl Abort, alloc: Global, scope: &Scope, rows: &str) -> Result<(), Fail> {
    for row in rows.lines() {
        check_row(rt, alloc, scope, row)?;
    }
    Ok(())
}

/// Looks at each row, an expression and what it has to come to in the scope that is made by hand.
pub fn check_rows(rt: &impl Abort, alloc: Global, rows: &str) -> Result<(), Fail> {
    let scope = declared(alloc)?;
    check_in(rt, alloc, &scope, rows)
}
