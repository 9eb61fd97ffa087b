//! The temps that values want. A number of temps that passes 64 bits counts as want of memory.

ghost use Rattle.std.specs.Prelude.{◌≡◌, ◌≤◌, ◌+◌, [], ◌∷◌, drop, max, map, if◌then◌else◌, IfOk};
ghost use Rattle.typed_syntax.specs.Types.{width, part_offset};
ghost use Rattle.typed_syntax.specs.Syntax.{all_wide, ascend, type_in, type_named};
ghost use Rattle.typed.specs.View.{ex_of, exs_of, exs_of_values, place_of, bound_of, steps_of, elements_of, piece_of, test_of, site_numbers, left_of, st_of, sts_of, func_of, program_of, site_in};
ghost use Rattle.typed.specs.Trees.{trees};
ghost use Rattle.placement.specs.Told.{placement_of};
ghost use Rattle.frames.specs.Frames.{far, steps_far, left_far, lefts_far, behind_values, need, need_all, bound_need, place_need, steps_need, elements_need, lefts_need, piece_need, need_pieces, test_need, key_need, pair_need, elements_round, element_words as words_of_elements, st_need, sts_need, entry_need, temps_of, widest as widest_of};

use crate::words::{
    element_words, expr_words, place_words, results_of, type_words, values_words, widest,
};
use base::{NoMemory, SiteId, TypeId};
use placement::Placement;
use typed::{
    Bound, Element, Expr, Func, Left, Piece, Place, Program, Step, Stmt, Values, nil_words,
};

/// What a `range` over a number or a pointer keeps, it and the index; what one over an array keeps, the index; what one over a slice
/// keeps, the header and the index; and the most that each counts with above them.
const KEPT: u64 = 2;

const KEPT_OF_ARRAY: u64 = 1;

const KEPT_OF_SLICE: u64 = 4;

const COUNTING: u64 = 2;

/// The words of a slice's header: the address of its first element, its length and its capacity.
const HEADER: u64 = 3;

/// One temp more.
fn above(temps: u64) -> Result<u64, NoMemory>
    ensures { IfOk result (λ n. n ≡ 1 + temps) }
{
    temps.checked_add(1).ok_or(NoMemory)
}

/// So many temps above some words.
fn above_words(words: u64, temps: u64) -> Result<u64, NoMemory>
    ensures { IfOk result (λ n. n ≡ words + temps) }
{
    words.checked_add(temps).ok_or(NoMemory)
}

/// The temps of two values side by side, by those of each and the words of the first.
fn side_by_side(first: u64, words: u64, second: u64) -> Result<u64, NoMemory>
    ensures { IfOk result (λ n. n ≡ max first (words + second)) }
{
    Ok(first.max(above_words(words, second)?))
}

/// The temps of a `make`, by those of its length, which stands above the address, and of its capacity.
fn sizes_temps(count: u64, room: u64) -> Result<u64, NoMemory>
    ensures { IfOk result (λ n. n ≡ max (1 + count) (max (2 + room) 3)) }
{
    let first = above_words(1, count)?;
    let second = above_words(2, room)?;
    Ok(first.max(second.max(HEADER)))
}

/// The temps of a slicing, by those of what is sliced and of the bounds, which stand above the header.
fn sliced_temps(whole: u64, low: u64, high: u64) -> Result<u64, NoMemory>
    ensures { IfOk result (λ n. n ≡ max whole (max (3 + low) (max (4 + high) 5))) }
{
    let first = above_words(HEADER, low)?;
    let second = above_words(HEADER + 1, high)?;
    Ok(whole.max(first.max(second.max(HEADER + 2))))
}

/// The temp of the address that steps lead to: it's there where an index is worked out.
fn steps_address(steps: &[Step]) -> u64
    ensures is { result ≡ steps_far (steps_of steps.now) }
    ensures few { result ≤ 1 }
{
    for step in steps {
        match step {
            Step::Inner(_) => {}
            Step::Index(_, _, _) => return 1,
        }
    }
    0
}

/// The temp of a place's address, where it is reached by one.
#[tactic(auto, using(typed::proofs::Rows::expr_rows))]
fn address_temps(place: &Place) -> u64
    ensures is { result ≡ far (place_of place.now) }
    ensures few { result ≤ 1 }
{
    match place {
        Place::Local(_, steps) => steps_address(steps),
        Place::Indirect(_, _, _, steps) => steps_address(steps),
        Place::Global(_, _) | Place::SliceElement(_, _, _, _, _) => 1,
    }
}

/// Whether the numbers of elements ascend.
fn is_ascending(elements: &[Element]) -> bool
    ensures { result ≡ ascend (elements_of elements.now) }
{
    let mut next: u64 = 0;
    for element in elements {
        let Element::For(number, _) = element;
        if u64::from(*number) < next {
            return false;
        }
        next = u64::from(*number) + 1;
    }
    true
}

/// The words in front of those in which an element of a literal is worked out: its place in the literal, where the elements come in order, and
/// else after the literal.
fn words_in_front(program: &Program, type_id: TypeId, in_order: bool, number: u32) -> u64
    ensures { result ≡ (if in_order then part_offset (type_named (program_of program.now) type_id.0) number else width
        (type_named (program_of program.now) type_id.0)) }
{
    if in_order {
        program.types.part_offset(type_id, number)
    } else {
        type_words(program, type_id)
    }
}

/// The temps of an expression, from the one on in which its value lands.
#[cycle(values)]
#[tactic(auto, using(typed::proofs::Rows::expr_rows))]
pub fn expr_temps(program: &Program, e: &Expr) -> Result<u64, NoMemory>
    ensures { IfOk result (λ n. n ≡ need (program_of program.now) (ex_of e.now)) }
{
    match e {
        Expr::Constant(_) => Ok(1),
        Expr::Read(place) => {
            let temps = place_temps(program, place, address_temps(place))?;
            Ok(temps.max(place_words(program, place)))
        }
        Expr::Unary(_, a) | Expr::Part(_, _, a) | Expr::Len(a) | Expr::Cap(a) => {
            let a: &Expr = a;
            expr_temps(program, a)
        }
        Expr::Binary(_, _, a, b) => {
            let a: &Expr = a;
            let b: &Expr = b;
            let words = expr_words(program, a)?;
            side_by_side(expr_temps(program, a)?, words, expr_temps(program, b)?)
        }
        Expr::LogicalAnd(a, b) | Expr::LogicalOr(a, b) => {
            let a: &Expr = a;
            let b: &Expr = b;
            let first = expr_temps(program, a)?;
            let second = expr_temps(program, b)?;
            Ok(first.max(second))
        }
        Expr::Call(f, arguments) => {
            let arguments: &Values = arguments;
            let temps = values_temps(program, arguments)?;
            Ok(temps.max(results_of(program, *f)?))
        }
        Expr::Literal(type_id, elements) => {
            let temps = elements_temps(program, *type_id, elements)?;
            Ok(temps.max(type_words(program, *type_id)))
        }
        Expr::Nil(value_type) => Ok(u64::from(nil_words(*value_type))),
        Expr::AddressOf(place) => target_temps(program, place),
        Expr::New(_) => Ok(1),
        Expr::NewLiteral(_, a) => {
            let a: &Expr = a;
            let words = above(expr_words(program, a)?)?;
            Ok(expr_temps(program, a)?.max(words))
        }
        Expr::SliceLiteral(_, es) => above_words(HEADER, row_temps(program, es)?),
        Expr::Make(_, _, count, room) => {
            let count: &Expr = count;
            let first = expr_temps(program, count)?;
            sizes_temps(first, bound_temps(program, room)?)
        }
        Expr::Append(_, a, es) => {
            let a: &Expr = a;
            let elements = above_words(HEADER, row_temps(program, es)?)?;
            Ok(expr_temps(program, a)?.max(elements))
        }
        Expr::AppendSlice(_, a, b) | Expr::Copy(_, a, b) => {
            let a: &Expr = a;
            let b: &Expr = b;
            side_by_side(expr_temps(program, a)?, HEADER, expr_temps(program, b)?)
        }
        Expr::Slicing(_, _, a, low, high) => {
            let a: &Expr = a;
            let whole = expr_temps(program, a)?;
            sliced_temps(
                whole,
                bound_temps(program, low)?,
                bound_temps(program, high)?,
            )
        }
        Expr::ArraySlicing(_, place, _, low, high) => {
            let whole = target_temps(program, place)?;
            sliced_temps(
                whole,
                bound_temps(program, low)?,
                bound_temps(program, high)?,
            )
        }
    }
}

/// The temps of the address of a place.
#[cycle(values)]
fn target_temps(program: &Program, place: &Place) -> Result<u64, NoMemory>
    ensures { IfOk result (λ n. n ≡ max (place_need (program_of program.now) (place_of place.now) (far (place_of place.now))) 1) }
{
    let temps = place_temps(program, place, address_temps(place))?;
    Ok(temps.max(1))
}

/// The temps of a bound; where there is none, a number stands in its place.
#[cycle(values)]
#[tactic(auto, using(typed::proofs::Rows::expr_rows))]
fn bound_temps(program: &Program, bound: &Bound) -> Result<u64, NoMemory>
    ensures { IfOk result (λ n. n ≡ bound_need (program_of program.now) (bound_of bound.now)) }
{
    match bound {
        Bound::Absent => Ok(1),
        Bound::At(e) => {
            let e: &Expr = e;
            expr_temps(program, e)
        }
    }
}

/// The temps of a place's operands, with `behind` after them.
#[cycle(values)]
#[tactic(auto, using(typed::proofs::Rows::expr_rows))]
fn place_temps(program: &Program, place: &Place, behind: u64) -> Result<u64, NoMemory>
    ensures { IfOk result (λ n. n ≡ place_need (program_of program.now) (place_of place.now) behind) }
{
    match place {
        Place::Local(_, steps) => steps_temps(program, steps, behind),
        Place::Global(_, steps) => steps_temps(program, steps, behind),
        Place::Indirect(_, e, _, steps) => {
            let e: &Expr = e;
            let rest = above(steps_temps(program, steps, behind)?)?;
            Ok(expr_temps(program, e)?.max(rest))
        }
        Place::SliceElement(_, e, index, _, steps) => {
            let e: &Expr = e;
            let index: &Expr = index;
            let rest = above(steps_temps(program, steps, behind)?)?;
            let beside = above_words(HEADER, expr_temps(program, index)?.max(rest))?;
            Ok(expr_temps(program, e)?.max(beside))
        }
    }
}

/// The temps of the indices of steps, one after the other, with `behind` after them.
#[cycle(values)]
fn steps_temps(program: &Program, steps: &[Step], behind: u64) -> Result<u64, NoMemory>
    ensures { IfOk result (λ n. n ≡ steps_need (program_of program.now) (steps_of steps.now) behind) }
{
    let mut temps: u64 = 0;
    let mut kept: u64 = 0;
    for step in steps {
        match step {
            Step::Inner(_) => {}
            Step::Index(_, index, _) => {
                let top = kept
                    .checked_add(expr_temps(program, index)?)
                    .ok_or(NoMemory)?;
                temps = temps.max(top);
                kept = above(kept)?;
            }
        }
    }
    let last = kept.checked_add(behind).ok_or(NoMemory)?;
    Ok(temps.max(last))
}

/// The temps of the elements of a literal of a type.
#[cycle(values)]
fn elements_temps(program: &Program, type_id: TypeId, elements: &[Element]) -> Result<u64, NoMemory>
    ensures { IfOk result (λ n. n ≡ elements_need (program_of program.now) (type_named (program_of program.now) type_id.0)
        (ascend (elements_of elements.now)) (elements_of elements.now)) }
{
    let in_order = is_ascending(elements);
    let mut temps: u64 = 0;
    for element in elements {
        let Element::For(number, e) = element;
        let front = words_in_front(program, type_id, in_order, *number);
        let top = front.checked_add(expr_temps(program, e)?).ok_or(NoMemory)?;
        temps = temps.max(top);
    }
    Ok(temps)
}

/// The temps of values.
#[cycle(values)]
#[tactic(auto, using(typed::proofs::Rows::expr_rows))]
pub fn values_temps(program: &Program, values: &Values) -> Result<u64, NoMemory>
    ensures { IfOk result (λ n. n ≡ need_all (program_of program.now) (exs_of_values values.now)) }
{
    match values {
        Values::Each(es) => row_temps(program, es),
        Values::Results(f, arguments) => {
            let arguments: &Values = arguments;
            let temps = values_temps(program, arguments)?;
            Ok(temps.max(results_of(program, *f)?))
        }
        Values::ReadInt => Ok(2),
    }
}

/// The temps of values side by side: the later ones are worked out above the earlier ones.
#[cycle(values)]
fn row_temps(program: &Program, es: &[Expr]) -> Result<u64, NoMemory>
    ensures { IfOk result (λ n. n ≡ need_all (program_of program.now) (exs_of es.now)) }
{
    let mut temps: u64 = 0;
    let mut kept: u64 = 0;
    for e in es {
        let top = kept.checked_add(expr_temps(program, e)?).ok_or(NoMemory)?;
        temps = temps.max(top);
        kept = kept.checked_add(expr_words(program, e)?).ok_or(NoMemory)?;
    }
    Ok(temps.max(kept))
}

/// The temps of an operand of `panic`.
fn piece_temps(program: &Program, p: &Piece) -> Result<u64, NoMemory>
    ensures { IfOk result (λ n. n ≡ piece_need (program_of program.now) (piece_of p.now)) }
{
    match p {
        Piece::Text(_) => Ok(0),
        Piece::Shown(_, e) => expr_temps(program, e),
    }
}

/// The temps of operands that are shown: strings take none.
fn line_temps(program: &Program, ps: &[Piece]) -> Result<u64, NoMemory>
    ensures { IfOk result (λ n. n ≡ need_pieces (program_of program.now) (map piece_of ps.now)) }
{
    let mut temps: u64 = 0;
    let mut kept: u64 = 0;
    for p in ps {
        match p {
            Piece::Text(_) => {}
            Piece::Shown(_, e) => {
                let top = kept.checked_add(expr_temps(program, e)?).ok_or(NoMemory)?;
                temps = temps.max(top);
                kept = above(kept)?;
            }
        }
    }
    Ok(temps.max(kept))
}

/// The temps of a condition, where there is one.
fn test_temps(program: &Program, test: &Option<Expr>) -> Result<u64, NoMemory>
    ensures { IfOk result (λ n. n ≡ test_need (program_of program.now) (test_of test.now)) }
{
    match test {
        None => Ok(0),
        Some(e) => expr_temps(program, e),
    }
}

/// The temps of a loop's header: those of its condition, and those through which a new round's variables are moved, one
/// after the other.
fn header_temps(program: &Program, test: &Option<Expr>, sites: &[SiteId]) -> Result<u64, NoMemory>
    ensures { IfOk result (λ n. n ≡ max (test_need (program_of program.now) (test_of test.now))
        (widest_of (program_of program.now) (site_numbers sites.now))) }
{
    let temps = test_temps(program, test)?;
    Ok(temps.max(widest(program, sites)))
}

/// The temps of the index that a left side gets: after the operands of a place it, and the place's address, if there is one.
fn key_temps(program: &Program, key: &Left) -> Result<u64, NoMemory>
    ensures { IfOk result (λ n. n ≡ key_need (program_of program.now) (left_of key.now)) }
{
    match key {
        Left::Blank => Ok(0),
        Left::New(_) => Ok(1),
        Left::To(place) => place_temps(program, place, 1 + address_temps(place)),
    }
}

/// The temp of a left side's address.
fn left_address(left: &Left) -> u64
    ensures is { result ≡ left_far (left_of left.now) }
    ensures few { result ≤ 1 }
{
    match left {
        Left::Blank => 0,
        Left::New(_) => 0,
        Left::To(place) => address_temps(place),
    }
}

/// The temp of an address, if one of some left sides has one.
fn lefts_address(lefts: &[Left]) -> u64
    ensures is { result ≡ lefts_far (map left_of lefts.now) }
    ensures few { result ≤ 1 }
{
    let mut most: u64 = 0;
    for left in lefts {
        most = most.max(left_address(left));
    }
    most
}

/// The temps of a left side's operands, with `behind` after them.
fn left_temps(program: &Program, left: &Left, behind: u64) -> Result<u64, NoMemory>
    ensures { IfOk result (λ n. n ≡ lefts_need (program_of program.now) (left_of left.now ∷ []) behind) }
{
    match left {
        Left::Blank => Ok(behind),
        Left::New(_) => Ok(behind),
        Left::To(place) => place_temps(program, place, behind),
    }
}

/// The temps of the operands of left sides, one after the other, with `behind` after them.
fn lefts_temps(program: &Program, lefts: &[Left], behind: u64) -> Result<u64, NoMemory>
    ensures { IfOk result (λ n. n ≡ lefts_need (program_of program.now) (map left_of lefts.now) behind) }
{
    let mut temps = behind;
    for i in (0..lefts.len()).rev() {
        temps = left_temps(program, &lefts[i], temps)?;
    }
    Ok(temps)
}

/// So many words of values, and after them an address, if there is one.
fn words_with_address(values: u64, address: u64) -> Result<u64, NoMemory>
    ensures { IfOk result (λ n. n ≡ behind_values values address) }
{
    if address == 0 {
        return Ok(0);
    }
    values.checked_add(address).ok_or(NoMemory)
}

/// The temps of an assignment: after the operands of its left sides those of its values, and where a left side has an address, the values
/// and this after them.
fn assign_temps(program: &Program, lefts: &[Left], values: &Values) -> Result<u64, NoMemory>
    ensures { IfOk result (λ n. n ≡ lefts_need (program_of program.now) (map left_of lefts.now)
        (max (need_all (program_of program.now) (exs_of_values values.now))
        (behind_values (all_wide (program_of program.now) (exs_of_values values.now)) (lefts_far (map left_of lefts.now))))) }
{
    let temps = values_temps(program, values)?;
    let words = values_words(program, values)?;
    let beside = words_with_address(words, lefts_address(lefts))?;
    lefts_temps(program, lefts, temps.max(beside))
}

/// The temps of an assignment with an operator: after the place's operands an address, if there is one, the value, and those of the
/// operand.
fn update_temps(program: &Program, place: &Place, e: &Expr) -> Result<u64, NoMemory>
    ensures { IfOk result (λ n. n ≡ place_need (program_of program.now) (place_of place.now)
        (far (place_of place.now) + 1 + need (program_of program.now) (ex_of e.now))) }
{
    let operand = expr_temps(program, e)?;
    let kept = address_temps(place) + 1;
    let behind = operand.checked_add(kept).ok_or(NoMemory)?;
    place_temps(program, place, behind)
}

/// The temps of `++` and `--`: after the place's operands an address, if there is one, the value, and 1.
fn bump_temps(program: &Program, place: &Place) -> Result<u64, NoMemory>
    ensures { IfOk result (λ n. n ≡ place_need (program_of program.now) (place_of place.now) (far (place_of place.now) + 2)) }
{
    place_temps(program, place, address_temps(place) + 2)
}

/// The temps of a `range` that keeps `kept`, where what it goes over wants `operand`, what a round gives to left sides `round`, and
/// the body `body`.
fn range_temps(operand: u64, kept: u64, round: u64, body: u64) -> Result<u64, NoMemory>
    ensures { IfOk result (λ n. n ≡ max operand (max (kept + 2) (max (kept + round) (kept + body)))) }
{
    let inside = COUNTING.max(round).max(body);
    let all = kept.checked_add(inside).ok_or(NoMemory)?;
    Ok(operand.max(all))
}

/// The temps of a `range` over a number whose body wants `body`.
fn count_temps(program: &Program, e: &Expr, key: &Left, body: u64) -> Result<u64, NoMemory>
    ensures { IfOk result (λ n. n ≡ max (need (program_of program.now) (ex_of e.now))
        (max (2 + 2) (max (2 + key_need (program_of program.now) (left_of key.now)) (2 + body)))) }
{
    let operand = expr_temps(program, e)?;
    let round = key_temps(program, key)?;
    range_temps(operand, KEPT, round, body)
}

/// The temps of a `range` over the indices of an array whose body wants `body`.
fn indices_temps(program: &Program, key: &Left, body: u64) -> Result<u64, NoMemory>
    ensures { IfOk result (λ n. n ≡ max 0 (max (1 + 2)
        (max (1 + key_need (program_of program.now) (left_of key.now)) (1 + body)))) }
{
    let round = key_temps(program, key)?;
    range_temps(0, KEPT_OF_ARRAY, round, body)
}

/// The temps of two left sides that get `words` words.
#[tactic(auto, using(crate::proofs::Sides::pair_last))]
fn pair_temps(program: &Program, key: &Left, value: &Left, words: u64) -> Result<u64, NoMemory>
    ensures { IfOk result (λ n. n ≡ pair_need (program_of program.now) (left_of key.now ∷ left_of value.now ∷ []) words) }
{
    let address = left_address(key).max(left_address(value));
    let behind = words.max(words_with_address(words, address)?);
    let inner = left_temps(program, value, behind)?;
    left_temps(program, key, inner)
}

/// The temps of a `range` over the elements of a copy, in the variable of a site, whose body wants `body`.
fn copy_temps(
    program: &Program,
    site: SiteId,
    e: &Expr,
    key: &Left,
    value: &Left,
    body: u64,
) -> Result<u64, NoMemory>
    ensures { IfOk result (λ n. n ≡ max (need (program_of program.now) (ex_of e.now)) (max (1 + 2) (max
        (1 + pair_need (program_of program.now) (left_of key.now ∷ left_of value.now ∷ [])
        (1 + words_of_elements (program_of program.now) site.0)) (1 + body)))) }
{
    let operand = expr_temps(program, e)?;
    let words = above(element_words(program, site))?;
    let round = pair_temps(program, key, value, words)?;
    range_temps(operand, KEPT_OF_ARRAY, round, body)
}

/// The temps of the left sides of a `range` over elements of so many words.
fn round_temps(program: &Program, words: u64, key: &Left, value: &Left) -> Result<u64, NoMemory>
    ensures { IfOk result (λ n. n ≡ elements_round (program_of program.now) words (left_of key.now) (left_of value.now)) }
{
    match value {
        Left::Blank => key_temps(program, key),
        Left::New(_) | Left::To(_) => pair_temps(program, key, value, above(words)?),
    }
}

/// The temps of a `range` over a slice whose elements are of a type and whose body wants `body`.
fn slice_temps(
    program: &Program,
    e: &Expr,
    type_id: TypeId,
    key: &Left,
    value: &Left,
    body: u64,
) -> Result<u64, NoMemory>
    ensures { IfOk result (λ n. n ≡ max (need (program_of program.now) (ex_of e.now)) (max (4 + 2) (max
        (4 + elements_round (program_of program.now) (width (type_named (program_of program.now) type_id.0)) (left_of key.now) (left_of value.now))
        (4 + body)))) }
{
    let operand = expr_temps(program, e)?;
    let round = round_temps(program, type_words(program, type_id), key, value)?;
    range_temps(operand, KEPT_OF_SLICE, round, body)
}

/// The temps of a `range` over the array that a pointer leads to, whose elements are of a type and whose body wants `body`.
fn pointer_temps(
    program: &Program,
    e: &Expr,
    type_id: TypeId,
    key: &Left,
    value: &Left,
    body: u64,
) -> Result<u64, NoMemory>
    ensures { IfOk result (λ n. n ≡ max (need (program_of program.now) (ex_of e.now)) (max (2 + 2) (max
        (2 + pair_need (program_of program.now) (left_of key.now ∷ left_of value.now ∷ [])
        (1 + width (type_named (program_of program.now) type_id.0))) (2 + body)))) }
{
    let operand = expr_temps(program, e)?;
    let words = above(type_words(program, type_id))?;
    let round = pair_temps(program, key, value, words)?;
    range_temps(operand, KEPT, round, body)
}

/// The temps of a `range` over the indices of the array that a pointer leads to, whose body wants `body`.
fn pointed_temps(program: &Program, key: &Left, body: u64) -> Result<u64, NoMemory>
    ensures { IfOk result (λ n. n ≡ max 0 (max (2 + 2)
        (max (2 + key_need (program_of program.now) (left_of key.now)) (2 + body)))) }
{
    let round = key_temps(program, key)?;
    range_temps(0, KEPT, round, body)
}

/// The temps of a return from a function whose results have these names: they are moved through temps, one after the other.
fn return_temps(program: &Program, named: &[SiteId], values: &Values) -> Result<u64, NoMemory>
    ensures { IfOk result (λ n. n ≡ max (need_all (program_of program.now) (exs_of_values values.now))
        (widest_of (program_of program.now) (site_numbers named.now))) }
{
    let temps = values_temps(program, values)?;
    Ok(temps.max(widest(program, named)))
}

/// The temps of a statement of a function whose results have these names, or none.
#[cycle(temps)]
#[tactic(auto, using(typed::proofs::Rows::stmt_rows))]
pub fn stmt_temps(program: &Program, named: &[SiteId], s: &Stmt) -> Result<u64, NoMemory>
    ensures { IfOk result (λ n. n ≡ st_need (program_of program.now) (site_numbers named.now) (st_of s.now)) }
{
    match s {
        Stmt::Declare(_) | Stmt::Break | Stmt::Continue => Ok(0),
        Stmt::Assign(lefts, values) => assign_temps(program, lefts, values),
        Stmt::Update(_, place, _, e) => update_temps(program, place, e),
        Stmt::Bump(_, place, _) => bump_temps(program, place),
        Stmt::Discard(values) => values_temps(program, values),
        Stmt::Block(ss) => body_temps(program, named, ss),
        Stmt::If(e, a, b) => {
            let test = expr_temps(program, e)?;
            let first = body_temps(program, named, a)?;
            let second = body_temps(program, named, b)?;
            Ok(test.max(first.max(second)))
        }
        Stmt::For(sites, test, post, body) => {
            let header = header_temps(program, test, sites)?;
            let behind = body_temps(program, named, post)?;
            let round = body_temps(program, named, body)?;
            Ok(header.max(behind.max(round)))
        }
        Stmt::Count(e, key, body) => {
            let round = body_temps(program, named, body)?;
            count_temps(program, e, key, round)
        }
        Stmt::Indices(_, key, body) => {
            let round = body_temps(program, named, body)?;
            indices_temps(program, key, round)
        }
        Stmt::Elements(site, e, _, key, value, body) => {
            let round = body_temps(program, named, body)?;
            copy_temps(program, *site, e, key, value, round)
        }
        Stmt::SliceElements(e, type_id, key, value, body) => {
            let round = body_temps(program, named, body)?;
            slice_temps(program, e, *type_id, key, value, round)
        }
        Stmt::PointedElements(_, e, _, type_id, key, value, body) => {
            let round = body_temps(program, named, body)?;
            pointer_temps(program, e, *type_id, key, value, round)
        }
        Stmt::PointedIndices(_, key, body) => {
            let round = body_temps(program, named, body)?;
            pointed_temps(program, key, round)
        }
        Stmt::Return(values) => return_temps(program, named, values),
        Stmt::Print(_, ps) => line_temps(program, ps),
        Stmt::Panic(_, p) => piece_temps(program, p),
        Stmt::Exit(_, e) => expr_temps(program, e),
    }
}

/// The temps of a body: the most that one of its statements wants.
#[cycle(temps)]
pub fn body_temps(program: &Program, named: &[SiteId], body: &[Stmt]) -> Result<u64, NoMemory>
    ensures { IfOk result (λ n. n ≡ sts_need (program_of program.now) (site_numbers named.now) (sts_of body.now)) }
{
    let mut temps: u64 = 0;
    for s in body {
        temps = temps.max(stmt_temps(program, named, s)?);
    }
    Ok(temps)
}

/// The temps that a parameter of a type goes through at the entry of a function: those of its words, where its variables live on
/// the heap.
fn param_temps(
    program: &Program,
    placement: &Placement,
    param: Option<SiteId>,
    type_id: TypeId,
) -> u64
    ensures { result ≡ entry_need (placement_of placement.now) (site_in param ∷ []) (type_in (trees program.now.types) type_id.0 ∷ []) }
{
    match param {
        None => 0,
        Some(site) => {
            if placement.is_on_heap(site) {
                type_words(program, type_id)
            } else {
                0
            }
        }
    }
}

/// The temps of a parameter whose type is one of some types by its number; none where there are fewer.
#[tactic(auto, using(crate::proofs::Entries::type_there, crate::proofs::Entries::no_type))]
fn nth_param_temps(
    program: &Program,
    placement: &Placement,
    param: Option<SiteId>,
    types: &[TypeId],
    i: usize,
) -> u64
    ensures { result ≡ entry_need (placement_of placement.now) (site_in param ∷ []) (map (λ t. type_in (trees program.now.types) t.0) (drop i types.now)) }
{
    match types.get(i) {
        Some(type_id) => param_temps(program, placement, param, *type_id),
        None => 0,
    }
}

/// The most temps that one of some parameters goes through.
fn entry_temps(
    program: &Program,
    placement: &Placement,
    params: &[Option<SiteId>],
    types: &[TypeId],
) -> u64
    ensures { result ≡ entry_need (placement_of placement.now) (map site_in params.now) (map (λ t. type_in (trees program.now.types) t.0) types.now) }
{
    let mut most: u64 = 0;
    for (i, param) in params.iter().enumerate() {
        most = most.max(nth_param_temps(program, placement, *param, types, i));
    }
    most
}

/// The temps of a function: the most that its entry, its results with names or one of its statements want.
pub fn func_temps(program: &Program, placement: &Placement, func: &Func) -> Result<u64, NoMemory>
    ensures { IfOk result (λ n. n ≡ temps_of (program_of program.now) (placement_of placement.now) (func_of (trees program.now.types) func.now)) }
{
    let entry = entry_temps(program, placement, &func.params, &func.param_types);
    let named = widest(program, &func.named);
    let body = body_temps(program, &func.named, &func.body)?;
    Ok(entry.max(named.max(body)))
}
