//! The numbers of instructions of statements.
ghost use Rattle.std.specs.Prelude.{◌≡◌, ◌+◌, IfOk, ◌∷◌, [], map};
ghost use Rattle.typed_syntax.specs.Syntax.{all_wide, argument_words};
ghost use Rattle.typed.specs.View.{ex_of, exs_of_values, left_of, piece_of, place_of, program_of, site_numbers, st_of, sts_of, test_of};
ghost use Rattle.expression_code.specs.Frame.{func_in};
ghost use Rattle.program_code.specs.Code.{address_size, exs_size, element_round_size, index_round_size, leave_size, lefts_size, lefts_sized, piece_size, place_size, pieces_size, pointed_round_size, renew_size, shown_size, size, slice_round_size, st_size, sts_size, test_size, values_size};

use base::{NoMemory, SiteId};
use expression_code::{
    address_len, expr_len, last_len, move_len, number, place_len, plus, test_len, values_len,
};
use frame_layout::values_words;
use typed::{Expr, Func, Left, Piece, Place, Program, Stmt, Values};

/// A bump: a read, a constant, the operation and a write, without the address.
const BUMP: u32 = 4;

/// The birth of a variable that gets a value.
const BIRTH: u32 = 2;

/// `range`: the index before its test, and the test with its jump.
const COUNT_HEAD: u32 = 3;

/// The instructions at a round's end: a constant, the sum and a jump.
pub const TURN: u32 = 3;

/// `range` over an array: the first index, and the test with its jump.
pub const ARRAY_HEAD: u32 = 4;

/// The index and the element of a round: a move, the address of the copy, that of the element, and a load.
pub const ELEMENT: u32 = 4;

/// The same where a pointer or a slice has the address of the array.
pub const POINTED: u32 = 3;

fn piece_len(program: &Program, p: &Piece) -> Result<u32, NoMemory>
    ensures { IfOk result (λ n. n ≡ piece_size (program_of program.now) (piece_of p.now)) }
{
    match p {
        Piece::Text(_) => Ok(0),
        Piece::Shown(_, e) => expr_len(program, e),
    }
}

fn pieces_len(program: &Program, ps: &[Piece]) -> Result<u32, NoMemory>
    ensures { IfOk result (λ n. n ≡ pieces_size (program_of program.now) (map piece_of ps.now)) }
{
    let mut total = 0;
    for p in ps {
        let n = piece_len(program, p)?;
        total = plus(total, n)?;
    }
    Ok(total)
}

// What shows operands: on a line there is a space before each but the first, and a newline.
#[tactic(auto, using(crate::proofs::Pieces::line_twice))]
fn shown_len(line: bool, ps: &[Piece]) -> Result<u32, NoMemory>
    ensures { IfOk result (λ n. n ≡ shown_size line (map piece_of ps.now)) }
{
    let n = number(ps.len())?;
    if !line {
        return Ok(n);
    }
    if n == 0 {
        return Ok(1);
    }
    plus(n, n)
}

fn print_len(program: &Program, line: bool, ps: &[Piece]) -> Result<u32, NoMemory>
    ensures { IfOk result (λ n. n ≡ pieces_size (program_of program.now) (map piece_of ps.now) + shown_size line
        (map piece_of ps.now)) }
{
    let operands = pieces_len(program, ps)?;
    let shown = shown_len(line, ps)?;
    plus(operands, shown)
}

fn panic_len(program: &Program, p: &Piece) -> Result<u32, NoMemory>
    ensures { IfOk result (λ n. n ≡ piece_size (program_of program.now) (piece_of p.now) + 1) }
{
    let n = piece_len(program, p)?;
    plus(n, 1)
}

fn lefts_len(ls: &[Left]) -> Result<u32, NoMemory>
    ensures { IfOk result (λ n. n ≡ lefts_size (map left_of ls.now)) }
{
    let mut total = 0;
    for left in ls {
        match left {
            Left::Blank => {}
            Left::New(_) => total = plus(total, BIRTH)?,
            Left::To(place) => {
                let address = address_len(place)?;
                let write = plus(address, 1)?;
                total = plus(total, write)?;
            }
        }
    }
    Ok(total)
}

// The operands of left sides.
fn ready_len(program: &Program, ls: &[Left]) -> Result<u32, NoMemory>
    ensures { IfOk result (λ n. n ≡ lefts_sized (program_of program.now) (map left_of ls.now) 0) }
{
    let mut total = 0;
    for left in ls {
        let n = left_ready_len(program, left)?;
        total = plus(total, n)?;
    }
    Ok(total)
}

#[tactic(auto, using(crate::proofs::Sized::lefts_total))]
fn assign_len(program: &Program, ls: &[Left], values: &Values) -> Result<u32, NoMemory>
    ensures { IfOk result (λ n. n ≡ lefts_sized (program_of program.now) (map left_of ls.now)
        (exs_size (program_of program.now) (exs_of_values values.now) + lefts_size (map left_of ls.now))) }
{
    let operands = ready_len(program, ls)?;
    let m = values_len(program, values)?;
    let n = lefts_len(ls)?;
    let behind = plus(m, n)?;
    plus(operands, behind)
}

// The operands of a place, its address, if there is one, and `more` instructions.
fn reached_len(program: &Program, place: &Place, more: u32) -> Result<u32, NoMemory>
    ensures { IfOk result (λ n. n ≡ place_size (program_of program.now) (place_of place.now)
        (address_size (place_of place.now) + more)) }
{
    let operands = place_len(program, place)?;
    let address = address_len(place)?;
    let reached = plus(operands, address)?;
    plus(reached, more)
}

// A read of the place stands before the operand, the operation and a write after it.
fn update_len(program: &Program, place: &Place, e: &Expr) -> Result<u32, NoMemory>
    ensures { IfOk result (λ n. n ≡ place_size (program_of program.now) (place_of place.now)
        (address_size (place_of place.now) + 1 + size (program_of program.now) (ex_of e.now) + 1 + 1)) }
{
    let n = expr_len(program, e)?;
    reached_len(program, place, plus(n, 3)?)
}

// `++` and `--`.
fn bump_len(program: &Program, place: &Place) -> Result<u32, NoMemory>
    ensures { IfOk result (λ n. n ≡ place_size (program_of program.now) (place_of place.now)
        (address_size (place_of place.now) + 1 + 2 + 1)) }
{
    reached_len(program, place, BUMP)
}

// So many words of values become the results, which have these names or none.
fn given_len(words: u64, named: &[SiteId]) -> Result<u32, NoMemory>
    ensures { IfOk result (λ n. n ≡ values_size words (map (λ site. site.0) named.now)) }
{
    if named.is_empty() {
        return Ok(move_len(words));
    }
    if words == 0 {
        return Ok(0);
    }
    number(named.len())
}

// The end of a function whose results have these names or none.
#[tactic(auto, using(crate::proofs::Pieces::named_twice))]
fn leave_len(named: &[SiteId]) -> Result<u32, NoMemory>
    ensures { IfOk result (λ n. n ≡ leave_size (map (λ site. site.0) named.now)) }
{
    let n = number(named.len())?;
    let twice = plus(n, n)?;
    plus(twice, 1)
}

fn return_len(program: &Program, func: &Func, values: &Values) -> Result<u32, NoMemory>
    ensures { IfOk result (λ n. n ≡ exs_size (program_of program.now) (exs_of_values values.now)
        + (values_size (all_wide (program_of program.now) (exs_of_values values.now))
        (func_in program.now func.now).named + leave_size (func_in program.now func.now).named)) }
{
    let n = values_len(program, values)?;
    let given = given_len(values_words(program, values)?, &func.named)?;
    let leave = leave_len(&func.named)?;
    let end = plus(given, leave)?;
    plus(n, end)
}

// An `if` whose branches have `yes` and `no`.
fn choice_len(program: &Program, e: &Expr, yes: u32, no: u32) -> Result<u32, NoMemory>
    ensures { IfOk result (λ n. n ≡ size (program_of program.now) (ex_of e.now) + 1 + yes + 1 + no) }
{
    let test = last_len(program, e)?;
    let first = plus(test, yes)?;
    let second = plus(first, 1)?;
    plus(second, no)
}

/// The births of a loop's variables for the next round, each with a read of the old one.
#[tactic(auto, using(crate::proofs::Pieces::renewed_thrice))]
pub fn renew_len(sites: &[SiteId]) -> Result<u32, NoMemory>
    ensures { IfOk result (λ n. n ≡ renew_size (site_numbers sites.now)) }
{
    let n = number(sites.len())?;
    let births = plus(n, n)?;
    plus(births, n)
}

// A loop whose body and post statement have `body` and `post`.
fn loop_len(
    program: &Program,
    test: &Option<Expr>,
    sites: &[SiteId],
    body: u32,
    post: u32,
) -> Result<u32, NoMemory>
    ensures { IfOk result (λ n. n ≡ test_size (program_of program.now) (test_of test.now) + body + renew_size
        (site_numbers sites.now) + post + 1) }
{
    let header = test_len(program, test)?;
    let renewal = renew_len(sites)?;
    let first = plus(header, body)?;
    let second = plus(first, renewal)?;
    let third = plus(second, post)?;
    plus(third, 1)
}

// The operands of a left side.
fn left_ready_len(program: &Program, left: &Left) -> Result<u32, NoMemory>
    ensures { IfOk result (λ n. n ≡ lefts_sized (program_of program.now) (left_of left.now ∷ []) 0) }
{
    match left {
        Left::To(place) => place_len(program, place),
        Left::Blank | Left::New(_) => Ok(0),
    }
}

// What a left side gets.
fn left_len(left: &Left) -> Result<u32, NoMemory>
    ensures { IfOk result (λ n. n ≡ lefts_size (left_of left.now ∷ [])) }
{
    match left {
        Left::Blank => Ok(0),
        Left::New(_) => Ok(BIRTH),
        Left::To(place) => {
            let address = address_len(place)?;
            plus(address, 1)
        }
    }
}

/// The operands of the left side that gets a round's index, and its write.
#[tactic(auto, using(crate::proofs::Sized::lefts_total))]
pub fn key_len(program: &Program, key: &Left) -> Result<u32, NoMemory>
    ensures { IfOk result (λ n. n ≡ index_round_size (program_of program.now) (left_of key.now)) }
{
    let operands = left_ready_len(program, key)?;
    let write = left_len(key)?;
    plus(operands, write)
}

/// Those of the left sides that get a round's index and element, and the instructions, as many as given, that put these down.
#[tactic(auto, using(crate::proofs::Sized::pair_sized))]
pub fn pair_len(program: &Program, key: &Left, value: &Left, put: u32) -> Result<u32, NoMemory>
    ensures { IfOk result (λ n. n ≡ lefts_sized (program_of program.now) (left_of key.now ∷ left_of value.now ∷ [])
        (put + lefts_size (left_of key.now ∷ left_of value.now ∷ []))) }
{
    let first = key_len(program, key)?;
    let second = key_len(program, value)?;
    let both = plus(first, second)?;
    plus(both, put)
}

// A `range` over a number whose body has `body`.
fn count_len(program: &Program, e: &Expr, key: &Left, body: u32) -> Result<u32, NoMemory>
    ensures { IfOk result (λ n. n ≡ size (program_of program.now) (ex_of e.now) + 1 + 2 + lefts_sized (program_of program.now)
        (left_of key.now ∷ []) (lefts_size (left_of key.now ∷ [])) + body + 3) }
{
    let operand = expr_len(program, e)?;
    let written = key_len(program, key)?;
    let head = plus(COUNT_HEAD, written)?;
    let round = plus(operand, head)?;
    let inside = plus(round, body)?;
    plus(inside, TURN)
}

// A `range` over an array whose rounds begin with `round` and whose body has `body`.
fn array_len(round: u32, body: u32) -> Result<u32, NoMemory>
    ensures { IfOk result (λ n. n ≡ 4 + round + body + 3) }
{
    let head = plus(ARRAY_HEAD, round)?;
    let inside = plus(head, body)?;
    plus(inside, TURN)
}

// One over its indices.
fn indices_len(program: &Program, key: &Left, body: u32) -> Result<u32, NoMemory>
    ensures { IfOk result (λ n. n ≡ 4 + index_round_size (program_of program.now) (left_of key.now) + body + 3) }
{
    array_len(key_len(program, key)?, body)
}

// One over its elements: the operand and the birth of its copy come first.
fn elements_len(
    program: &Program,
    e: &Expr,
    key: &Left,
    value: &Left,
    body: u32,
) -> Result<u32, NoMemory>
    ensures { IfOk result (λ n. n ≡ size (program_of program.now) (ex_of e.now) + 2 +
        (4 + element_round_size (program_of program.now) (left_of key.now) (left_of value.now) + body + 3)) }
{
    let copy = plus(last_len(program, e)?, 1)?;
    let rounds = array_len(pair_len(program, key, value, ELEMENT)?, body)?;
    plus(copy, rounds)
}

// One over the elements of an array that a pointer leads to.
fn pointed_len(
    program: &Program,
    e: &Expr,
    key: &Left,
    value: &Left,
    body: u32,
) -> Result<u32, NoMemory>
    ensures { IfOk result (λ n. n ≡ size (program_of program.now) (ex_of e.now) +
        (4 + pointed_round_size (program_of program.now) (left_of key.now) (left_of value.now) + body + 3)) }
{
    let pointer = expr_len(program, e)?;
    let rounds = array_len(pair_len(program, key, value, POINTED)?, body)?;
    plus(pointer, rounds)
}

/// The left sides of a round over a slice, and what they get: the index alone where there is no second one.
pub fn slice_round_len(program: &Program, key: &Left, value: &Left) -> Result<u32, NoMemory>
    ensures { IfOk result (λ n. n ≡ slice_round_size (program_of program.now) (left_of key.now) (left_of value.now)) }
{
    match value {
        Left::Blank => key_len(program, key),
        Left::New(_) | Left::To(_) => pair_len(program, key, value, POINTED),
    }
}

// One over a slice.
fn slice_len(
    program: &Program,
    e: &Expr,
    key: &Left,
    value: &Left,
    body: u32,
) -> Result<u32, NoMemory>
    ensures { IfOk result (λ n. n ≡ size (program_of program.now) (ex_of e.now) + 3
        + slice_round_size (program_of program.now) (left_of key.now) (left_of value.now) + body + 3) }
{
    let head = plus(expr_len(program, e)?, COUNT_HEAD)?;
    let round = plus(head, slice_round_len(program, key, value)?)?;
    let inside = plus(round, body)?;
    plus(inside, TURN)
}

#[cycle(lengths)]
#[tactic(auto, using(typed::proofs::Rows::stmt_rows))]
fn stmt_len(program: &Program, func: &Func, s: &Stmt) -> Result<u32, NoMemory>
    ensures { IfOk result (λ n. n ≡ st_size (program_of program.now) (argument_words (func_in program.now func.now))
        (func_in program.now func.now).named (st_of s.now)) }
{
    match s {
        Stmt::Declare(sites) => number(sites.len()),
        Stmt::Assign(ls, values) => assign_len(program, ls, values),
        Stmt::Update(_, place, _, e) => update_len(program, place, e),
        Stmt::Bump(_, place, _) => bump_len(program, place),
        Stmt::Discard(values) => values_len(program, values),
        Stmt::Block(ss) => stmts_len(program, func, ss),
        Stmt::If(e, a, b) => {
            let yes = stmts_len(program, func, a)?;
            let no = stmts_len(program, func, b)?;
            choice_len(program, e, yes, no)
        }
        Stmt::For(sites, test, post, body) => {
            let inside = stmts_len(program, func, body)?;
            let behind = stmts_len(program, func, post)?;
            loop_len(program, test, sites, inside, behind)
        }
        Stmt::Count(e, key, body) => {
            let inside = stmts_len(program, func, body)?;
            count_len(program, e, key, inside)
        }
        Stmt::Indices(_, key, body) => {
            let inside = stmts_len(program, func, body)?;
            indices_len(program, key, inside)
        }
        Stmt::Elements(_, e, _, key, value, body) => {
            let inside = stmts_len(program, func, body)?;
            elements_len(program, e, key, value, inside)
        }
        Stmt::PointedElements(_, e, _, _, key, value, body) => {
            let inside = stmts_len(program, func, body)?;
            pointed_len(program, e, key, value, inside)
        }
        Stmt::PointedIndices(_, key, body) => {
            let inside = stmts_len(program, func, body)?;
            indices_len(program, key, inside)
        }
        Stmt::SliceElements(e, _, key, value, body) => {
            let inside = stmts_len(program, func, body)?;
            slice_len(program, e, key, value, inside)
        }
        Stmt::Break => Ok(1),
        Stmt::Continue => Ok(1),
        Stmt::Return(values) => return_len(program, func, values),
        Stmt::Print(line, ps) => print_len(program, *line, ps),
        Stmt::Panic(_, p) => panic_len(program, p),
        Stmt::Exit(_, e) => last_len(program, e),
    }
}

/// Statements.
#[cycle(lengths)]
pub fn stmts_len(program: &Program, func: &Func, ss: &[Stmt]) -> Result<u32, NoMemory>
    ensures { IfOk result (λ n. n ≡ sts_size (program_of program.now) (argument_words (func_in program.now func.now))
        (func_in program.now func.now).named (sts_of ss.now)) }
{
    let mut total = 0;
    for s in ss {
        let n = stmt_len(program, func, s)?;
        total = plus(total, n)?;
    }
    Ok(total)
}
