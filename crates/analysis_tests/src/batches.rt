//! What no clause of `call_order` says: that memory is given where it is ample, and worked programs.

use base::{FuncId, Pos, SiteId, TypeId};
use call_order::{Batches, order};
use std::alloc::Global;
use std::process::Abort;
use std::test::Fail;
use typed::{
    BinOp, Const, Element, Expr, Func, INT, Left, Piece, Place, Program, Step, Stmt, TypeTable,
    UnOp, Values,
};

const AT: Pos = Pos {
    offset: 0,
    line: 1,
    col: 1,
};

fn call(alloc: Global, f: u32) -> Result<Expr, Fail> {
    let none = Values::Each(Vec::new(alloc));
    Ok(Expr::Call(FuncId(f), Box::new(alloc, none)?))
}

fn boxed(alloc: Global, f: u32) -> Result<Box<Expr>, Fail> {
    Ok(Box::new(alloc, call(alloc, f)?)?)
}

fn number(alloc: Global) -> Result<Box<Expr>, Fail> {
    Ok(Box::new(alloc, Expr::Constant(Const::Int(7)))?)
}

fn called(alloc: Global, f: u32) -> Result<Values, Fail> {
    Ok(Values::Each(Vec::from_array(alloc, [call(alloc, f)?])?))
}

fn statement(alloc: Global, f: u32) -> Result<Stmt, Fail> {
    let none = Values::Each(Vec::new(alloc));
    Ok(Stmt::Discard(Values::Results(FuncId(f), Box::new(alloc, none)?)))
}

// A body of one call.
fn body(alloc: Global, f: u32) -> Result<Vec<Stmt>, Fail> {
    Ok(Vec::from_array(alloc, [statement(alloc, f)?])?)
}

fn func(alloc: Global, body: Vec<Stmt>) -> Func {
    Func {
        pos: AT,
        first_site: 0,
        sites: 0,
        params: Vec::new(alloc),
        param_types: Vec::new(alloc),
        results: Vec::new(alloc),
        named: Vec::new(alloc),
        body,
    }
}

fn program(alloc: Global, funcs: Vec<Func>) -> Result<Program, Fail> {
    Ok(Program {
        funcs,
        main: FuncId(0),
        sites: Vec::new(alloc),
        types: TypeTable::new(alloc, 0)?,
        strings: Vec::new(alloc),
        globals: Vec::new(alloc),
        names: Vec::new(alloc),
    })
}

fn add_statements(alloc: Global, calls: &[u32], body: &mut Vec<Stmt>) -> Result<(), Fail> {
    for f in calls {
        body.push(statement(alloc, *f)?)?;
    }
    Ok(())
}

fn calling(alloc: Global, calls: &[u32]) -> Result<Func, Fail> {
    let mut body = Vec::new(alloc);
    add_statements(alloc, calls, &mut body)?;
    Ok(func(alloc, body))
}

// Functions that have these calls as statements.
fn add_functions(alloc: Global, calls: &[&[u32]], funcs: &mut Vec<Func>) -> Result<(), Fail> {
    for callees in calls {
        funcs.push(calling(alloc, callees)?)?;
    }
    Ok(())
}

fn write_batches(batches: &Batches, out: &mut String) -> Result<(), Fail> {
    for batch in &batches.batches {
        for f in &batch.funcs {
            write!(out, "{} ", f.0)?;
        }
        out.push_str("| ")?;
    }
    Ok(())
}

fn check_program(
    rt: &impl Abort,
    alloc: Global,
    program: &Program,
    want: &str,
) -> Result<(), Fail> {
    let batches = order(alloc, program)?;
    let mut shown = String::new(alloc);
    write_batches(&batches, &mut shown)?;
    assert_eq!(rt; shown.as_str(), want);
    Ok(())
}

fn check_calls(rt: &impl Abort, alloc: Global, calls: &[&[u32]], want: &str) -> Result<(), Fail> {
    let mut funcs = Vec::new(alloc);
    add_functions(alloc, calls, &mut funcs)?;
    let program = program(alloc, funcs)?;
    check_program(rt, alloc, &program, want)
}

#[test]
fn batches(rt: HostRuntime) -> Result<(), Fail> {
    let alloc = rt.alloc();
    // main calls 1 and 3; 1 and 2 call each other; 3 calls itself; nothing calls 4.
    let calls: [&[u32]; 5] = [&[1, 3], &[2], &[1], &[3], &[]];
    check_calls(&rt, alloc, &calls, "3 | 1 2 | 0 | 4 | ")?;
    // A chain, a call of no function, and a way round through three.
    let calls: [&[u32]; 4] = [&[1], &[2], &[3, 9], &[]];
    check_calls(&rt, alloc, &calls, "3 | 2 | 1 | 0 | ")?;
    let calls: [&[u32]; 4] = [&[3], &[0], &[1], &[2, 2]];
    check_calls(&rt, alloc, &calls, "0 1 2 3 | ")
}

fn sum(alloc: Global, left: u32, right: u32) -> Result<Expr, Fail> {
    let left = boxed(alloc, left)?;
    Ok(Expr::Binary(AT, BinOp::Add, left, boxed(alloc, right)?))
}

fn both(alloc: Global, f: u32) -> Result<Expr, Fail> {
    let right = boxed(alloc, f)?;
    Ok(Expr::LogicalAnd(number(alloc)?, right))
}

fn either(alloc: Global, f: u32) -> Result<Expr, Fail> {
    let right = boxed(alloc, f)?;
    Ok(Expr::LogicalOr(number(alloc)?, right))
}

// Calls of 1 to 7 inside of expressions.
fn add_operands(alloc: Global, all: &mut Vec<Expr>) -> Result<(), Fail> {
    all.push(Expr::Unary(UnOp::Negate, boxed(alloc, 1)?))?;
    all.push(sum(alloc, 2, 3)?)?;
    all.push(both(alloc, 4)?)?;
    all.push(either(alloc, 5)?)?;
    let inner = Box::new(alloc, called(alloc, 6)?)?;
    Ok(all.push(Expr::Call(FuncId(7), inner))?)
}

fn operands(alloc: Global) -> Result<Values, Fail> {
    let mut all = Vec::new(alloc);
    add_operands(alloc, &mut all)?;
    Ok(Values::Each(all))
}

fn assign(alloc: Global, f: u32) -> Result<Stmt, Fail> {
    let values = called(alloc, f)?;
    Ok(Stmt::Assign(vec![in alloc; Left::Blank]?, values))
}

fn turns(alloc: Global) -> Result<Stmt, Fail> {
    let test = call(alloc, 10)?;
    let post = body(alloc, 11)?;
    Ok(Stmt::For(Vec::new(alloc), Some(test), post, body(alloc, 12)?))
}

fn count(alloc: Global) -> Result<Stmt, Fail> {
    let body = body(alloc, 14)?;
    Ok(Stmt::Count(call(alloc, 13)?, Left::Blank, body))
}

fn print(alloc: Global) -> Result<Stmt, Fail> {
    let shown = Piece::Shown(INT, call(alloc, 15)?);
    Ok(Stmt::Print(true, Vec::from_array(alloc, [Piece::Text(0), shown])?))
}

// Calls of 8 to 17 inside of statements.
fn add_kinds(alloc: Global, all: &mut Vec<Stmt>) -> Result<(), Fail> {
    all.push(assign(alloc, 8)?)?;
    let e = call(alloc, 9)?;
    all.push(Stmt::Update(AT, Place::Global(0, Vec::new(alloc)), BinOp::Add, e))?;
    all.push(turns(alloc)?)?;
    all.push(count(alloc)?)?;
    all.push(print(alloc)?)?;
    all.push(Stmt::Panic(AT, Piece::Shown(TypeId(0), call(alloc, 16)?)))?;
    Ok(all.push(Stmt::Exit(AT, call(alloc, 17)?))?)
}

// A place with a call as an index.
fn place(alloc: Global, f: u32) -> Result<Place, Fail> {
    let index = Step::Index(AT, call(alloc, f)?, 2);
    let steps = Vec::from_array(alloc, [Step::Inner(1), index])?;
    Ok(Place::Local(SiteId(0), steps))
}

fn add_elements(alloc: Global, all: &mut Vec<Element>) -> Result<(), Fail> {
    all.push(Element::For(0, call(alloc, 21)?))?;
    Ok(all.push(Element::For(1, call(alloc, 22)?))?)
}

fn literal(alloc: Global) -> Result<Expr, Fail> {
    let mut elements = Vec::new(alloc);
    add_elements(alloc, &mut elements)?;
    Ok(Expr::Literal(INT, elements))
}

fn add_values(alloc: Global, all: &mut Vec<Expr>) -> Result<(), Fail> {
    all.push(Expr::Read(place(alloc, 19)?))?;
    all.push(Expr::Part(INT, 0, boxed(alloc, 20)?))?;
    Ok(all.push(literal(alloc)?)?)
}

fn assign_values(alloc: Global) -> Result<Stmt, Fail> {
    let lefts = Vec::from_array(alloc, [Left::To(place(alloc, 23)?)])?;
    let mut all = Vec::new(alloc);
    add_values(alloc, &mut all)?;
    Ok(Stmt::Assign(lefts, Values::Each(all)))
}

fn indices(alloc: Global) -> Result<Stmt, Fail> {
    let body = body(alloc, 27)?;
    Ok(Stmt::Indices(2, Left::To(place(alloc, 26)?), body))
}

fn elements(alloc: Global) -> Result<Stmt, Fail> {
    let e = call(alloc, 28)?;
    let key = Left::To(place(alloc, 29)?);
    let value = Left::To(place(alloc, 30)?);
    Ok(Stmt::Elements(SiteId(0), e, 2, key, value, body(alloc, 31)?))
}

// Calls of 19 to 31 inside of places, parts, literals and ranges over arrays.
fn add_arrays(alloc: Global, all: &mut Vec<Stmt>) -> Result<(), Fail> {
    all.push(assign_values(alloc)?)?;
    let e = Expr::Constant(Const::Int(7));
    all.push(Stmt::Update(AT, place(alloc, 24)?, BinOp::Add, e))?;
    all.push(Stmt::Bump(AT, place(alloc, 25)?, BinOp::Add))?;
    all.push(indices(alloc)?)?;
    Ok(all.push(elements(alloc)?)?)
}

fn block(alloc: Global) -> Result<Stmt, Fail> {
    let mut body = Vec::new(alloc);
    add_arrays(alloc, &mut body)?;
    body.push(Stmt::Return(operands(alloc)?))?;
    Ok(Stmt::Block(body))
}

fn branch(alloc: Global) -> Result<Stmt, Fail> {
    let mut otherwise = Vec::new(alloc);
    add_kinds(alloc, &mut otherwise)?;
    let then = Vec::from_array(alloc, [block(alloc)?])?;
    Ok(Stmt::If(call(alloc, 18)?, then, otherwise))
}

// main has a call of each other function, in a place of its own, and each of them calls main.
fn add_all(alloc: Global, funcs: &mut Vec<Func>) -> Result<(), Fail> {
    funcs.push(func(alloc, Vec::from_array(alloc, [branch(alloc)?])?))?;
    for _ in 1..32 {
        funcs.push(func(alloc, body(alloc, 0)?))?;
    }
    Ok(())
}

// All functions are one batch.
#[test]
fn places(rt: HostRuntime) -> Result<(), Fail> {
    let alloc = rt.alloc();
    let mut funcs = Vec::new(alloc);
    add_all(alloc, &mut funcs)?;
    let program = program(alloc, funcs)?;
    let want =
        "0 1 2 3 4 5 6 7 8 9 10 11 12 13 14 15 16 17 18 19 20 21 22 23 24 25 26 27 28 29 30 31 | ";
    check_program(&rt, alloc, &program, want)
}
