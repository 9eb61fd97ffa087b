//! What no clause of `placement` and `frame_layout` says: that the calls succeed where memory is ample; and worked frames.

ghost use Rattle.std.specs.Prelude.{◌<◌, length};

use crate::sites::variable;
use base::{FuncId, Pos, SiteId, TypeId, ValueType};
use frame_layout::{FrameLayout, layout_of};
use placement::{Placement, coarse};
use std::alloc::Global;
use std::process::Abort;
use std::test::Fail;
use typed::{Const, Expr, Func, INT, Left, Place, Program, Site, Step, Stmt, TypeTable, Values};

const AT: Pos = Pos {
    offset: 0,
    line: 1,
    col: 1,
};

fn number(alloc: Global) -> Result<Values, Fail> {
    Ok(Values::Each(vec![in alloc; Expr::Constant(Const::Int(7))]?))
}

// func f(_ int) int { return 7 }
fn callee(alloc: Global) -> Result<Func, Fail> {
    Ok(Func {
        pos: AT,
        first_site: 0,
        sites: 0,
        params: vec![in alloc; None]?,
        param_types: vec![in alloc; INT]?,
        results: vec![in alloc; INT]?,
        named: Vec::new(alloc),
        body: vec![in alloc; Stmt::Return(number(alloc)?)]?,
    })
}

fn main(alloc: Global, sites: u32, body: Vec<Stmt>) -> Func {
    Func {
        pos: AT,
        first_site: 0,
        sites,
        params: Vec::new(alloc),
        param_types: Vec::new(alloc),
        results: Vec::new(alloc),
        named: Vec::new(alloc),
        body,
    }
}

// f(7)
fn call(alloc: Global) -> Result<Values, Fail> {
    Ok(Values::Results(FuncId(0), Box::new(alloc, number(alloc)?)?))
}

// func main() { f(7) }
fn caller(alloc: Global) -> Result<Func, Fail> {
    let body = vec![in alloc; Stmt::Discard(call(alloc)?)]?;
    Ok(main(alloc, 0, body))
}

// A program of `f`, which stands first, and of `main`.
fn program_of(alloc: Global, funcs: Vec<Func>, types: TypeTable, sites: Vec<Site>) -> Program {
    Program {
        funcs,
        main: FuncId(1),
        sites,
        types,
        strings: Vec::new(alloc),
        globals: Vec::new(alloc),
        names: Vec::new(alloc),
    }
}

fn add_caller_and_callee(alloc: Global, funcs: &mut Vec<Func>) -> Result<(), Fail> {
    funcs.push(callee(alloc)?)?;
    Ok(funcs.push(caller(alloc)?)?)
}

fn caller_and_callee(alloc: Global) -> Result<Program, Fail> {
    let types = TypeTable::new(alloc, 0)?;
    let mut funcs = Vec::new(alloc);
    add_caller_and_callee(alloc, &mut funcs)?;
    Ok(program_of(alloc, funcs, types, Vec::new(alloc)))
}

// A table with the type [2]int, and the site of a variable of this type.
fn array_site(types: &mut TypeTable) -> Result<Site, Fail>
    requires { 0 < length types.old.types }
{
    let type_id = types.enter(ValueType::Array(2, TypeId(0)))?;
    Ok(variable(AT, type_id))
}

// a[f(7)]
fn element(alloc: Global) -> Result<Place, Fail> {
    let f = Expr::Call(FuncId(0), Box::new(alloc, number(alloc)?)?);
    let steps = vec![in alloc; Step::Index(AT, f, 2)]?;
    Ok(Place::Local(SiteId(0), steps))
}

// a[f(7)] = f(7)
fn assignment(alloc: Global) -> Result<Stmt, Fail> {
    let lefts = vec![in alloc; Left::To(element(alloc)?)]?;
    Ok(Stmt::Assign(lefts, call(alloc)?))
}

fn add_declaration_and_assignment(alloc: Global, body: &mut Vec<Stmt>) -> Result<(), Fail> {
    body.push(Stmt::Declare(vec![in alloc; SiteId(0)]?))?;
    Ok(body.push(assignment(alloc)?)?)
}

// func main() { var a [2]int; a[f(7)] = f(7) }
fn assigner(alloc: Global) -> Result<Func, Fail> {
    let mut body = Vec::new(alloc);
    add_declaration_and_assignment(alloc, &mut body)?;
    Ok(main(alloc, 1, body))
}

fn add_assigner_and_callee(alloc: Global, funcs: &mut Vec<Func>) -> Result<(), Fail> {
    funcs.push(callee(alloc)?)?;
    Ok(funcs.push(assigner(alloc)?)?)
}

fn element_of_an_array(alloc: Global) -> Result<Program, Fail> {
    let mut types = TypeTable::new(alloc, 0)?;
    let sites = vec![in alloc; array_site(&mut types)?]?;
    let mut funcs = Vec::new(alloc);
    add_assigner_and_callee(alloc, &mut funcs)?;
    Ok(program_of(alloc, funcs, types, sites))
}

// The frame of `main` has these words. Its temps are the index, the value and the address of the element.
fn check_array(
    rt: &impl Abort,
    alloc: Global,
    program: &Program,
    placement: &Placement,
    frame: u16,
) -> Result<(), Fail> {
    let layouts = layout_of(alloc, program, placement)?;
    let want = FrameLayout {
        outgoing: 2,
        temps: 3,
        frame,
    };
    assert_eq!(rt; layouts.frames().get(1), Some(&want));
    Ok(())
}

#[test]
fn arrays_are_laid_out(rt: HostRuntime) -> Result<(), Fail> {
    let program = element_of_an_array(rt.alloc())?;
    let mut placement = coarse(rt.alloc(), &program)?;
    // The array's two words, and where it lives on the heap its cell.
    check_array(&rt, rt.alloc(), &program, &placement, 9)?;
    placement.put_on_heap(SiteId(0))?;
    check_array(&rt, rt.alloc(), &program, &placement, 8)
}

fn check_frames(rt: &impl Abort, alloc: Global, program: &Program) -> Result<(), Fail> {
    let placement = coarse(alloc, program)?;
    let layouts = layout_of(alloc, program, &placement)?;
    let want = [
        FrameLayout {
            outgoing: 0,
            temps: 1,
            frame: 3,
        },
        FrameLayout {
            outgoing: 2,
            temps: 1,
            frame: 5,
        },
    ];
    assert_eq!(rt; layouts.frames(), want.as_slice());
    Ok(())
}

#[test]
fn frames_are_laid_out(rt: HostRuntime) -> Result<(), Fail> {
    let program = caller_and_callee(rt.alloc())?;
    check_frames(&rt, rt.alloc(), &program)
}
