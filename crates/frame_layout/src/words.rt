//! The words of types, and of what is typed by them. A number that passes 64 bits counts as want of memory.

ghost use Rattle.std.specs.Prelude.{◌≡◌, ◌+◌, ◌-◌, ◌≤◌, ◌<◌, ◌*◌, map, IfOk};
ghost use Rattle.typed_syntax.specs.Types.{width, part_type};
ghost use Rattle.typed_syntax.specs.Paths.{type_at};
ghost use Rattle.frames.specs.Frames.{element_words as words_of_elements, cell_words, cells_between, stack_words as words_in_frame, widest as widest_of, words_between};
ghost use Rattle.typed_syntax.specs.Syntax.{all_width, all_wide, arguments_of as arguments, global_site, is_made, path_of, place_type, place_width, results_of as results, site_type, site_width, type_in, type_named, wide};
ghost use Rattle.typed.specs.View.{ex_of, exs_of, exs_of_values, place_of, program_of, site_numbers, steps_of};
ghost use Rattle.typed.specs.Trees.{trees};
ghost use Rattle.placement.specs.Told.{placement_of};
ghost use Rattle.frame_layout.specs.Layout.{type_or_ints, start_at, starts as starts_of};

use base::{FuncId, NoMemory, SiteId, TypeId};
use placement::Placement;
use std::alloc::Global;
use typed::{Expr, Place, Program, Step, Values, nil_words};

/// The words of a value of a type.
pub fn type_words(program: &Program, type_id: TypeId) -> u64
    ensures is { result ≡ width (type_named (program_of program.now) type_id.0) }
    ensures few { result < 4294967296 }
{
    u64::from(program.types.width(type_id))
}

/// The words of values of these types side by side.
pub fn all_words(program: &Program, types: &[TypeId]) -> Result<u64, NoMemory>
    ensures { IfOk result (λ n. n ≡ all_width (map (λ t. type_in (trees program.now.types) t.0) types.now)) }
{
    let mut words: u64 = 0;
    for type_id in types {
        let next = type_words(program, *type_id);
        words = words.checked_add(next).ok_or(NoMemory)?;
    }
    Ok(words)
}

/// The words of the arguments of a function by its number; 0 where there is no such function.
pub fn arguments_of(program: &Program, f: FuncId) -> Result<u64, NoMemory>
    ensures { IfOk result (λ n. n ≡ arguments (program_of program.now) f.0) }
{
    match program.funcs.get(f.0 as usize) {
        Some(func) => all_words(program, &func.param_types),
        None => Ok(0),
    }
}

/// The words of the results of a function by its number; 0 where there is no such function.
pub fn results_of(program: &Program, f: FuncId) -> Result<u64, NoMemory>
    ensures { IfOk result (λ n. n ≡ results (program_of program.now) f.0) }
{
    match program.funcs.get(f.0 as usize) {
        Some(func) => all_words(program, &func.results),
        None => Ok(0),
    }
}

/// The words of a type, where there is one; else those of a whole number.
fn words_or_one(program: &Program, type_id: Option<TypeId>) -> u64
    ensures is { result ≡ width (type_or_ints (program_of program.now) type_id) }
    ensures few { result < 4294967296 }
{
    match type_id {
        Some(type_id) => type_words(program, type_id),
        None => 1,
    }
}

/// The type of a site, by its number in the program's table, where there is such a site.
fn type_of_site(program: &Program, number: usize) -> Option<TypeId>
    ensures { type_or_ints (program_of program.now) result ≡ site_type (program_of program.now) number }
{
    let site = program.sites.get(number)?;
    Some(site.type_id)
}

/// The words of a site's variables, by its number in the program's table; those of a whole number where there is no such site.
fn words_at(program: &Program, number: usize) -> u64
    ensures is { result ≡ site_width (program_of program.now) number }
    ensures few { result < 4294967296 }
{
    words_or_one(program, type_of_site(program, number))
}

/// The words of a site's variables.
pub fn site_words(program: &Program, site: SiteId) -> u64
    ensures { result ≡ site_width (program_of program.now) site.0 }
{
    words_at(program, site.0 as usize)
}

/// The words of an element of a site's array.
pub fn element_words(program: &Program, site: SiteId) -> u64
    ensures { result ≡ words_of_elements (program_of program.now) site.0 }
{
    match type_of_site(program, site.0 as usize) {
        Some(type_id) => type_words(program, program.types.part(type_id, 0)),
        None => 1,
    }
}

/// The site of a package variable by its number.
pub fn site_of_global(program: &Program, number: u32) -> SiteId
    ensures { result.0 ≡ global_site (program_of program.now) number }
{
    match program.globals.get(number as usize) {
        Some(global) => global.site,
        None => SiteId(0),
    }
}

/// The type of the part that steps lead to. All elements of an array are of the type of the first.
fn type_behind(program: &Program, type_id: TypeId, steps: &[Step]) -> TypeId
    ensures { type_named (program_of program.now) result.0
        ≡ type_at (type_named (program_of program.now) type_id.0) (path_of (steps_of steps.now)) }
{
    let mut part = type_id;
    for step in steps {
        let index = match step {
            Step::Inner(index) => *index,
            Step::Index(_, _, _) => 0,
        };
        part = program.types.part(part, index);
    }
    part
}

/// The words of the part of a site's variables that steps lead to.
#[tactic(auto, using(crate::proofs::Widths::ints_alone))]
fn words_behind(program: &Program, site: SiteId, steps: &[Step]) -> u64
    ensures { result ≡ width (type_at (site_type (program_of program.now) site.0) (path_of (steps_of steps.now))) }
{
    match type_of_site(program, site.0 as usize) {
        Some(type_id) => type_words(program, type_behind(program, type_id, steps)),
        None => 1,
    }
}

/// The words of a place.
#[tactic(auto, using(typed::proofs::Rows::expr_rows))]
pub fn place_words(program: &Program, place: &Place) -> u64
    ensures { result ≡ place_width (program_of program.now) (place_of place.now) }
{
    match place {
        Place::Local(site, steps) => words_behind(program, *site, steps),
        Place::Global(number, steps) => {
            words_behind(program, site_of_global(program, *number), steps)
        }
        Place::Indirect(_, _, type_id, steps) | Place::SliceElement(_, _, _, type_id, steps) => {
            type_words(program, type_behind(program, *type_id, steps))
        }
    }
}

/// The words of an expression's value.
#[tactic(auto, using(typed::proofs::Rows::expr_rows))]
pub fn expr_words(program: &Program, e: &Expr) -> Result<u64, NoMemory>
    ensures { IfOk result (λ n. n ≡ wide (program_of program.now) (ex_of e.now)) }
{
    match e {
        Expr::Read(place) => Ok(place_words(program, place)),
        Expr::Call(f, _) => results_of(program, *f),
        Expr::Part(type_id, index, _) => {
            Ok(type_words(program, program.types.part(*type_id, *index)))
        }
        Expr::Literal(type_id, _) => Ok(type_words(program, *type_id)),
        Expr::Nil(value_type) => Ok(u64::from(nil_words(*value_type))),
        // A slice's address, length and capacity.
        Expr::SliceLiteral(_, _)
        | Expr::Make(_, _, _, _)
        | Expr::Append(_, _, _)
        | Expr::AppendSlice(_, _, _)
        | Expr::Slicing(_, _, _, _, _)
        | Expr::ArraySlicing(_, _, _, _, _) => Ok(3),
        // Whole numbers, truth values and pointers.
        Expr::Constant(_)
        | Expr::Unary(_, _)
        | Expr::Binary(_, _, _, _)
        | Expr::LogicalAnd(_, _)
        | Expr::LogicalOr(_, _)
        | Expr::AddressOf(_)
        | Expr::New(_)
        | Expr::NewLiteral(_, _)
        | Expr::Copy(_, _, _)
        | Expr::Len(_)
        | Expr::Cap(_) => Ok(1),
    }
}

/// The words of the values of some expressions side by side.
pub fn row_words(program: &Program, es: &[Expr]) -> Result<u64, NoMemory>
    ensures { IfOk result (λ n. n ≡ all_wide (program_of program.now) (exs_of es.now)) }
{
    let mut words: u64 = 0;
    for e in es {
        words = words.checked_add(expr_words(program, e)?).ok_or(NoMemory)?;
    }
    Ok(words)
}

/// The words of values side by side.
#[tactic(auto, using(typed::proofs::Rows::expr_rows))]
pub fn values_words(program: &Program, values: &Values) -> Result<u64, NoMemory>
    ensures { IfOk result (λ n. n ≡ all_wide (program_of program.now) (exs_of_values values.now)) }
{
    match values {
        Values::Each(es) => row_words(program, es),
        Values::Results(f, _) => results_of(program, *f),
        Values::ReadInt => Ok(2),
    }
}

/// The words of a site's variables in a frame, by its number in the program's table: none where they live on the heap.
fn stack_words(program: &Program, placement: &Placement, number: usize) -> u64
    ensures is { result ≡ words_in_frame (placement_of placement.now) (program_of program.now).sites number }
    ensures few { result < 4294967296 }
{
    if placement.at(number) {
        0
    } else {
        words_at(program, number)
    }
}

/// The words in a frame of `count` sites from `first` on.
pub fn sites_words(program: &Program, placement: &Placement, first: u32, count: u32) -> u64
    ensures { result ≡ words_between (placement_of placement.now) (program_of program.now).sites first count }
{
    let mut words: u64 = 0;
    for i in 0..count {
        // No more than 2³² sites of less than 2³² words each.
        words += stack_words(program, placement, first as usize + i as usize);
    }
    words
}

/// Whether an expression makes the variables of a site, by its number in the program's table: no name stands for them.
fn is_made_at(program: &Program, number: usize) -> bool
    ensures { result ≡ is_made (program_of program.now) number }
{
    match program.sites.get(number) {
        Some(site) => site.kind.is_made(),
        None => false,
    }
}

/// The cells of a site, by its number: one where its variables live on the heap and have names.
fn cells_at(program: &Program, placement: &Placement, number: usize) -> u64
    ensures is { result ≡ cell_words (placement_of placement.now) (program_of program.now).made number }
    ensures few { result ≤ 1 }
{
    if placement.at(number) && !is_made_at(program, number) {
        1
    } else {
        0
    }
}

/// How many of `count` sites from `first` on have a cell.
pub fn cells_of(program: &Program, placement: &Placement, first: u32, count: u32) -> u64
    ensures { result ≡ cells_between (placement_of placement.now) (program_of program.now).made first count }
{
    let mut cells: u64 = 0;
    for i in 0..count {
        cells += cells_at(program, placement, first as usize + i as usize);
    }
    cells
}

/// Where a site starts, by its number: at its cell, if its variables live on the heap, and else at its words. One without a cell starts at the
/// next one.
fn start(placement: &Placement, number: usize, cell: u16, word: u16) -> u16
    ensures { result ≡ start_at (placement_of placement.now) number cell word }
{
    if placement.at(number) { cell } else { word }
}

/// Where each of `count` sites from `first` on starts, counted from the first cell; the words stand behind the cells.
pub fn site_starts(
    alloc: Global,
    program: &Program,
    placement: &Placement,
    first: u32,
    count: u32,
) -> Result<Vec<u16>, NoMemory>
    requires { cells_between (placement_of placement.now) (program_of program.now).made first count
        + words_between (placement_of placement.now) (program_of program.now).sites first count ≤ 65535 }
    ensures { IfOk result (λ starts. starts.items ≡ starts_of (placement_of placement.now) (program_of program.now).made
        (program_of program.now).sites first 0 (cells_between (placement_of placement.now) (program_of program.now).made first count) count) }
{
    let mut starts = Vec::new(alloc);
    let mut cell = 0;
    let mut word = cells_of(program, placement, first, count) as u16;
    for i in 0..count {
        let number = first as usize + i as usize;
        starts.push(start(placement, number, cell, word))?;
        cell += cells_at(program, placement, number) as u16;
        word += stack_words(program, placement, number) as u16;
    }
    Ok(starts)
}

/// The words of the widest of some sites.
pub fn widest(program: &Program, sites: &[SiteId]) -> u64
    ensures { result ≡ widest_of (program_of program.now) (site_numbers sites.now) }
{
    let mut most: u64 = 0;
    for site in sites {
        most = most.max(site_words(program, *site));
    }
    most
}
