//! Worked frames of functions that make and follow pointers and slices, by `frame_layout`.

ghost use Rattle.std.specs.Prelude.{◌<◌, length};

use crate::sites::site;
use base::{FuncId, Pos, SiteId, ValueType};
use frame_layout::{FrameLayout, layout_of};
use placement::coarse;
use std::alloc::Global;
use std::process::Abort;
use std::test::Fail;
use typed::{
    Bound, Const, Expr, Func, INT, Left, Piece, Place, Program, Site, SiteKind, Stmt, TypeTable,
    Values,
};

const AT: Pos = Pos {
    offset: 0,
    line: 1,
    col: 1,
};

/// The type []int.
const INTS: ValueType = ValueType::Slice(INT);

const SEVEN: Expr = Expr::Constant(Const::Int(7));

fn seven(alloc: Global) -> Result<Box<Expr>, Fail> {
    Ok(Box::new(alloc, SEVEN)?)
}

fn func(alloc: Global, first_site: u32, sites: u32, s: Stmt) -> Result<Func, Fail> {
    Ok(Func {
        pos: AT,
        first_site,
        sites,
        params: Vec::new(alloc),
        param_types: Vec::new(alloc),
        results: Vec::new(alloc),
        named: Vec::new(alloc),
        body: vec![in alloc; s]?,
    })
}

// println(*new(int))
fn read_of_new(alloc: Global) -> Result<Stmt, Fail> {
    let made = Box::new(alloc, Expr::New(SiteId(0)))?;
    let read = Expr::Read(Place::Indirect(AT, made, INT, Vec::new(alloc)));
    Ok(Stmt::Print(true, vec![in alloc; Piece::Shown(INT, read)]?))
}

// []int{7}
fn literal(alloc: Global, site: u32) -> Result<Box<Expr>, Fail> {
    let elements = vec![in alloc; SEVEN]?;
    Ok(Box::new(alloc, Expr::SliceLiteral(SiteId(site), elements))?)
}

// copy([]int{7}, []int{7})
fn copy_of_literals(alloc: Global) -> Result<Stmt, Fail> {
    let target = literal(alloc, 1)?;
    let source = literal(alloc, 2)?;
    let copied = Expr::Copy(INT, target, source);
    Ok(Stmt::Discard(Values::Each(vec![in alloc; copied]?)))
}

// append([]int(nil), 7)[7] = 7
fn element_of_append(alloc: Global) -> Result<Stmt, Fail> {
    let none = Box::new(alloc, Expr::Nil(INTS))?;
    let added = Expr::Append(SiteId(3), none, vec![in alloc; SEVEN]?);
    let slice = Box::new(alloc, added)?;
    let place = Place::SliceElement(AT, slice, seven(alloc)?, INT, Vec::new(alloc));
    let lefts = vec![in alloc; Left::To(place)]?;
    Ok(Stmt::Assign(lefts, Values::Each(vec![in alloc; SEVEN]?)))
}

// println(len(make([]int, 7)[7:]))
fn part_of_make(alloc: Global) -> Result<Stmt, Fail> {
    let made = Expr::Make(AT, SiteId(4), seven(alloc)?, Bound::Absent);
    let whole = Box::new(alloc, made)?;
    let part = Expr::Slicing(AT, INT, whole, Bound::At(seven(alloc)?), Bound::Absent);
    let measured = Expr::Len(Box::new(alloc, part)?);
    Ok(Stmt::Print(true, vec![in alloc; Piece::Shown(INT, measured)]?))
}

// for i, x := range []int(nil) { }
fn range_over_nil(alloc: Global) -> Stmt {
    let (key, value) = (Left::New(SiteId(5)), Left::New(SiteId(6)));
    Stmt::SliceElements(Expr::Nil(INTS), INT, key, value, Vec::new(alloc))
}

fn add_makers(alloc: Global, funcs: &mut Vec<Func>) -> Result<(), Fail> {
    funcs.push(func(alloc, 0, 1, read_of_new(alloc)?)?)?;
    funcs.push(func(alloc, 1, 2, copy_of_literals(alloc)?)?)?;
    Ok(funcs.push(func(alloc, 3, 1, element_of_append(alloc)?)?)?)
}

fn add_followers(alloc: Global, funcs: &mut Vec<Func>) -> Result<(), Fail> {
    funcs.push(func(alloc, 4, 1, part_of_make(alloc)?)?)?;
    Ok(funcs.push(func(alloc, 5, 2, range_over_nil(alloc))?)?)
}

fn sites(alloc: Global) -> Result<Vec<Site>, Fail> {
    let kinds = [
        SiteKind::New,
        SiteKind::SliceLiteral,
        SiteKind::SliceLiteral,
        SiteKind::Append,
        SiteKind::Make,
        SiteKind::Variable,
        SiteKind::Variable,
    ];
    let mut sites = Vec::new(alloc);
    for kind in kinds {
        sites.push(site(AT, INT, kind))?;
    }
    Ok(sites)
}

fn program(alloc: Global) -> Result<Program, Fail> {
    let mut types = TypeTable::new(alloc, 0)?;
    let _ = types.enter(INTS)?;
    let mut funcs = Vec::new(alloc);
    add_makers(alloc, &mut funcs)?;
    add_followers(alloc, &mut funcs)?;
    Ok(Program {
        funcs,
        main: FuncId(0),
        sites: sites(alloc)?,
        types,
        strings: Vec::new(alloc),
        globals: Vec::new(alloc),
        names: Vec::new(alloc),
    })
}

/// A frame without calls: its temps, one word of each site, the link and the return place.
fn frame(temps: u16, sites: u16) -> FrameLayout {
    FrameLayout {
        outgoing: 0,
        temps,
        frame: temps.wrapping_add(sites).wrapping_add(2),
    }
}

fn check_frames(rt: &impl Abort, alloc: Global, program: &Program) -> Result<(), Fail> {
    let placement = coarse(alloc, program)?;
    let layouts = layout_of(alloc, program, &placement)?;
    // The pointer; a header and a literal of one above it; a header, the index, the value and the address; a header and two bounds; a
    // header, the index and both variables.
    let want = [
        frame(1, 1),
        frame(7, 2),
        frame(6, 1),
        frame(5, 1),
        frame(6, 2),
    ];
    assert_eq!(rt; layouts.frames(), want.as_slice());
    Ok(())
}

// What `new` makes is on the heap: it has no words in the frame, and no name asks for its address, so it has no cell either. A variable
// there has one.
fn check_cells(rt: &impl Abort, alloc: Global, program: &Program) -> Result<(), Fail> {
    let mut placement = coarse(alloc, program)?;
    placement.put_on_heap(SiteId(0))?;
    placement.put_on_heap(SiteId(5))?;
    let layouts = layout_of(alloc, program, &placement)?;
    assert_eq!(rt; layouts.frames().get(0), Some(&frame(1, 0)));
    assert_eq!(rt; layouts.frames().get(4), Some(&frame(6, 2)));
    Ok(())
}

#[test]
fn made_variables_have_no_cell(rt: HostRuntime) -> Result<(), Fail> {
    let program = program(rt.alloc())?;
    check_cells(&rt, rt.alloc(), &program)
}

#[test]
fn pointers_and_slices_are_laid_out(rt: HostRuntime) -> Result<(), Fail> {
    let program = program(rt.alloc())?;
    check_frames(&rt, rt.alloc(), &program)
}
