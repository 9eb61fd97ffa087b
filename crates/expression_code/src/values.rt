//! The code of expressions and calls.
ghost use Rattle.std.specs.Prelude.{◌≡◌, ◌+◌, ◌≤◌, ◌++◌, ◌∷◌, [], ◌||◌, length, OnOk, true, false, if◌then◌else◌};
ghost use Rattle.isa.specs.declared.instr.Instr.{Instr};
ghost use Rattle.typed_syntax.specs.Types.{width};
ghost use Rattle.typed_syntax.specs.Syntax.{type_named};
ghost use Rattle.typed.specs.View.{bound_of, elements_of, ex_of, exs_of, exs_of_values, place_of, program_of, steps_of as these_steps, value_of};
ghost use Rattle.expression_code.specs.Frame.{slots_in, IsLaid};
ghost use Rattle.expression_code.specs.Temps.{BoundFitsIn, CallFits, ElementsFitIn, Fits, ExsFitIn, OperandsFit, StepsFitIn};
ghost use Rattle.program_code.specs.Code.{binary_code as code_of_binary, bound_code, call_code, elements_code, ex_code, exs_code, is_nil as operand_nil, new_code, place_code, steps_code, operation as operation_of, site_words, size, steps_of as steps_in, temp, unary_code, word_of};

use crate::access::stored;
use crate::jumps::{jump, jump_if_zero, put};
use crate::lengths::expr_len;
use crate::literals::{ascends, emit_gap, moved, taken};
use crate::moving::{emit_move, silent, zeros};
use crate::parts::element_words;
use crate::reaching::{above_operands, emit_pointing, emit_read};
use crate::slices::{
    appended, copied, emit_cut, emit_room, emit_sliced, emit_whole, header_word, joined, made_array,
};
use crate::slots::Frame;
use base::{FuncId, NoMemory, SiteId, TypeId};
use frame_layout::{arguments_of, expr_words, results_of, row_words};
use isa::{Instr, Sameness};
use typed::{BinOp, Bound, Const, Element, Expr, Place, Program, Step, UnOp, Values, nil_words};

/// The instruction's operation.
pub fn operation(op: BinOp) -> isa::BinOp
    ensures { result ≡ operation_of op }
{
    match op {
        BinOp::Add => isa::BinOp::Add,
        BinOp::Sub => isa::BinOp::Sub,
        BinOp::Mul => isa::BinOp::Mul,
        BinOp::Div => isa::BinOp::Div,
        BinOp::Rem => isa::BinOp::Rem,
        BinOp::And => isa::BinOp::And,
        BinOp::Or => isa::BinOp::Or,
        BinOp::Xor => isa::BinOp::Xor,
        BinOp::AndNot => isa::BinOp::AndNot,
        BinOp::ShiftLeft => isa::BinOp::ShiftLeft,
        BinOp::ShiftRight => isa::BinOp::ShiftRight,
        BinOp::Equal => isa::BinOp::Equal,
        BinOp::NotEqual => isa::BinOp::NotEqual,
        BinOp::Less => isa::BinOp::Less,
        BinOp::LessEqual => isa::BinOp::LessEqual,
        BinOp::Greater => isa::BinOp::Greater,
        BinOp::GreaterEqual => isa::BinOp::GreaterEqual,
    }
}

/// The word of a constant.
pub fn word(c: Const) -> u64
    ensures { result ≡ word_of (value_of c) }
{
    match c {
        Const::Int(z) => z.cast_unsigned(),
        Const::Bool(true) => 1,
        Const::Bool(false) => 0,
    }
}

fn unary(op: UnOp, a: u16) -> Instr
    ensures { result ≡ unary_code op a }
{
    match op {
        UnOp::Plus => silent(1, a, a),
        UnOp::Negate => Instr::Un {
            op: isa::UnOp::Negate,
            a,
            b: a,
        },
        UnOp::Complement => Instr::Un {
            op: isa::UnOp::Complement,
            a,
            b: a,
        },
        UnOp::Not => Instr::Un {
            op: isa::UnOp::IsZero,
            a,
            b: a,
        },
    }
}

// A call whose arguments are in temps from h on; its results land there.
fn emit_call(
    code: &mut Vec<Instr>,
    program: &Program,
    frame: &Frame,
    f: FuncId,
    h: u16,
) -> Result<(), NoMemory>
    requires fits { CallFits (program_of program.now) (slots_in program.now frame.now) frame.now.sites h f.0 }
    requires frame { IsLaid program.now frame.now }
    ensures { OnOk result (code.new.items ≡ code.old.items
        ++ call_code (program_of program.now) (slots_in program.now frame.now) f.0 h) }
{
    let arguments = arguments_of(program, f)? as u16;
    let results = results_of(program, f)? as u16;
    let first = frame.temp(h);
    emit_move(code, arguments, 0, first)?;
    put(code, Instr::Call { func: f.0 })?;
    emit_move(code, results, first, arguments)?;
    Ok(())
}

// Where the first operand of `&&`, in temp h, is false, the second is passed over.
fn pass_both(
    code: &mut Vec<Instr>,
    program: &Program,
    frame: &Frame,
    second: &Expr,
    h: u16,
) -> Result<(), NoMemory>
    requires temp { h ≤ frame.now.temps }
    requires frame { IsLaid program.now frame.now }
    ensures { OnOk result (code.new.items ≡ code.old.items
        ++ Instr.JumpZero (temp (slots_in program.now frame.now) h)
        (length code.old.items + 1 + size (program_of program.now) (ex_of second.now)) ∷ []) }
{
    let len = expr_len(program, second)?;
    jump_if_zero(code, frame.temp(h), 1, len)?;
    Ok(())
}

// Where the first operand of `||`, in temp h, is true, the second is passed over.
fn pass_either(
    code: &mut Vec<Instr>,
    program: &Program,
    frame: &Frame,
    second: &Expr,
    h: u16,
) -> Result<(), NoMemory>
    requires temp { h ≤ frame.now.temps }
    requires frame { IsLaid program.now frame.now }
    ensures { OnOk result (code.new.items ≡ code.old.items
        ++ Instr.JumpZero (temp (slots_in program.now frame.now) h) (length code.old.items + 2)
        ∷ Instr.Jump (length code.old.items + 2 + size (program_of program.now) (ex_of second.now)) ∷ []) }
{
    let len = expr_len(program, second)?;
    // The second operand stands after both jumps.
    jump_if_zero(code, frame.temp(h), 2, 0)?;
    jump(code, 1, len)?;
    Ok(())
}

// Whether n words from slot a on are those from slot c on goes to slot a, as it is wanted.
fn same(wanted: Sameness, n: u16, a: u16, c: u16) -> Instr
    ensures { result ≡ Instr.Same wanted a a c n }
{
    Instr::Same {
        wanted,
        a,
        b: a,
        c,
        n,
    }
}

// An operator on operands of n words, from slots a and c on; what it gives goes to slot a. Values of one word are compared
// as words are.
#[tactic(auto, using(crate::proofs::Operators::binary_one, crate::proofs::Operators::same_many, crate::proofs::Operators::differ_many, crate::proofs::Operators::other_word))]
fn binary(op: BinOp, n: u16, a: u16, c: u16) -> Instr
    ensures { result ≡ code_of_binary op n a c }
{
    let word = Instr::Bin {
        op: operation(op),
        a,
        b: a,
        c,
    };
    if n == 1 {
        return word;
    }
    match op {
        BinOp::Equal => same(Sameness::Equal, n, a, c),
        BinOp::NotEqual => same(Sameness::Different, n, a, c),
        _ => word,
    }
}

// Whether an operand is `nil`.
#[tactic(auto, using(typed::proofs::Rows::expr_rows))]
fn is_nil(e: &Expr) -> bool
    ensures { result ≡ operand_nil (ex_of e.now) }
{
    if let Expr::Nil(_) = e { true } else { false }
}

// How many words of two operands, of n words each, are compared.
fn compared(a: &Expr, b: &Expr, n: u16) -> u16
    ensures { result ≡ (if operand_nil (ex_of a.now) || operand_nil (ex_of b.now) then 1 else n) }
{
    if is_nil(a) || is_nil(b) { 1 } else { n }
}

// An operator on operands of which n words are compared, in temps from h and from g on, to temp h.
fn emit_binary(
    code: &mut Vec<Instr>,
    program: &Program,
    frame: &Frame,
    op: BinOp,
    n: u16,
    h: u16,
    g: u16,
) -> Result<(), NoMemory>
    requires temps { (h ≤ frame.now.temps) × (g ≤ frame.now.temps) }
    requires frame { IsLaid program.now frame.now }
    ensures { OnOk result (code.new.items ≡ code.old.items
        ++ code_of_binary op n (temp (slots_in program.now frame.now) h) (temp (slots_in program.now frame.now) g) ∷ []) }
{
    let (a, c) = (frame.temp(h), frame.temp(g));
    put(code, binary(op, n, a, c))?;
    Ok(())
}

/// The operation on temps h and h + 1, to temp h.
#[tactic(auto, using(crate::proofs::Operators::binary_one))]
pub fn emit_operation(
    code: &mut Vec<Instr>,
    program: &Program,
    frame: &Frame,
    op: BinOp,
    h: u16,
) -> Result<(), NoMemory>
    requires temp { h + 1 ≤ frame.now.temps }
    requires frame { IsLaid program.now frame.now }
    ensures { OnOk result (code.new.items ≡ code.old.items
        ++ Instr.Bin (operation_of op) (temp (slots_in program.now frame.now) h) (temp (slots_in program.now frame.now) h)
        (temp (slots_in program.now frame.now) (h + 1)) ∷ []) }
{
    emit_binary(code, program, frame, op, 1, h, h + 1)
}

// A variable of a site, which has no name, is born on the heap, and its address goes to temp `at`.
fn made(program: &Program, frame: &Frame, site: SiteId, at: u16) -> Instr
    requires temp { at ≤ frame.now.temps }
    requires frame { IsLaid program.now frame.now }
    ensures { result ≡ Instr.Alloc (temp (slots_in program.now frame.now) at) (site_words (slots_in program.now frame.now) site.0) site.0 }
{
    let (a, n) = (frame.temp(at), frame.width_of(program, site));
    Instr::Alloc { a, n, site: site.0 }
}

// Such a variable gets the words of temps from h on, and its address goes there, by the temp above them.
fn emit_new(
    code: &mut Vec<Instr>,
    program: &Program,
    frame: &Frame,
    site: SiteId,
    h: u16,
) -> Result<(), NoMemory>
    requires temp { h + site_words (slots_in program.now frame.now) site.0 ≤ frame.now.temps }
    requires frame { IsLaid program.now frame.now }
    ensures { OnOk result (code.new.items ≡ code.old.items
        ++ new_code (slots_in program.now frame.now) site.0 (h + site_words (slots_in program.now frame.now) site.0) h) }
{
    let n = frame.width_of(program, site);
    let (address, first) = (frame.temp(h + n), frame.temp(h));
    put(code, made(program, frame, site, h + n))?;
    put(code, stored(n, address, first))?;
    put(code, silent(1, first, address))?;
    Ok(())
}

/// The value lands in temps from h on.
#[cycle(values)]
#[tactic(auto, using(typed::proofs::Rows::expr_rows))]
pub fn emit_expr(
    code: &mut Vec<Instr>,
    program: &Program,
    frame: &Frame,
    e: &Expr,
    h: u16,
) -> Result<(), NoMemory>
    requires fits { Fits (program_of program.now) (slots_in program.now frame.now) frame.now.sites h (ex_of e.now) }
    requires frame { IsLaid program.now frame.now }
    ensures { OnOk result (code.new.items ≡ code.old.items
        ++ ex_code (program_of program.now) (slots_in program.now frame.now) (ex_of e.now) h (length code.old.items)) }
{
    match e {
        Expr::Constant(c) => {
            let (a, word) = (frame.temp(h), word(*c));
            put(code, Instr::Const { a, word })?;
        }
        Expr::Read(place) => {
            emit_place(code, program, frame, place, h)?;
            emit_read(code, program, frame, place, above_operands(place, h), h)?;
        }
        Expr::Unary(op, a) => {
            let a: &Expr = a;
            emit_expr(code, program, frame, a, h)?;
            put(code, unary(*op, frame.temp(h)))?;
        }
        Expr::Binary(_, op, a, b) => {
            let a: &Expr = a;
            let b: &Expr = b;
            let wide = expr_words(program, a)? as u16;
            emit_expr(code, program, frame, a, h)?;
            emit_expr(code, program, frame, b, h + wide)?;
            emit_binary(code, program, frame, *op, compared(a, b, wide), h, h + wide)?;
        }
        Expr::LogicalAnd(a, b) => {
            let a: &Expr = a;
            let b: &Expr = b;
            emit_expr(code, program, frame, a, h)?;
            pass_both(code, program, frame, b, h)?;
            emit_expr(code, program, frame, b, h)?;
        }
        Expr::LogicalOr(a, b) => {
            let a: &Expr = a;
            let b: &Expr = b;
            emit_expr(code, program, frame, a, h)?;
            pass_either(code, program, frame, b, h)?;
            emit_expr(code, program, frame, b, h)?;
        }
        Expr::Call(f, arguments) => {
            let arguments: &Values = arguments;
            emit_values(code, program, frame, arguments, h)?;
            emit_call(code, program, frame, *f, h)?;
        }
        Expr::Part(id, number, e) => {
            let e: &Expr = e;
            emit_expr(code, program, frame, e, h)?;
            put(code, taken(program, frame, *id, *number, h))?;
        }
        Expr::Literal(id, es) => {
            put(code, zeros(program.types.width(*id) as u16, frame.temp(h)))?;
            if ascends(es) {
                emit_ordered(code, program, frame, *id, es, h)?;
            } else {
                emit_moved(code, program, frame, *id, es, h)?;
            }
        }
        Expr::Nil(value_type) => {
            put(code, zeros(nil_words(*value_type) as u16, frame.temp(h)))?;
        }
        Expr::AddressOf(place) => {
            emit_place(code, program, frame, place, h)?;
            emit_pointing(code, program, frame, place, above_operands(place, h), h)?;
        }
        Expr::New(site) => {
            put(code, made(program, frame, *site, h))?;
        }
        Expr::NewLiteral(site, e) => {
            let e: &Expr = e;
            emit_expr(code, program, frame, e, h)?;
            emit_new(code, program, frame, *site, h)?;
        }
        Expr::SliceLiteral(site, es) => {
            let words = row_words(program, es)? as u16;
            emit_row(code, program, frame, es, h + 3)?;
            emit_sliced(code, program, frame, *site, es.len() as u64, words, h)?;
        }
        Expr::Make(_, site, count, room) => {
            let count: &Expr = count;
            emit_expr(code, program, frame, count, h + 1)?;
            emit_bound(code, program, frame, room, h + 2)?;
            emit_room(code, program, frame, room, h)?;
            put(code, made_array(program, frame, *site, h))?;
        }
        Expr::Append(site, e, es) => {
            let e: &Expr = e;
            emit_expr(code, program, frame, e, h)?;
            emit_row(code, program, frame, es, h + 3)?;
            put(code, appended(program, frame, *site, es.len() as u16, h))?;
        }
        Expr::AppendSlice(site, a, b) => {
            let a: &Expr = a;
            let b: &Expr = b;
            emit_expr(code, program, frame, a, h)?;
            emit_expr(code, program, frame, b, h + 3)?;
            put(code, joined(program, frame, *site, h))?;
        }
        Expr::Copy(id, a, b) => {
            let a: &Expr = a;
            let b: &Expr = b;
            emit_expr(code, program, frame, a, h)?;
            emit_expr(code, program, frame, b, h + 3)?;
            put(code, copied(program, frame, *id, h))?;
        }
        Expr::Slicing(_, id, e, low, high) => {
            let e: &Expr = e;
            emit_expr(code, program, frame, e, h)?;
            emit_bound(code, program, frame, low, h + 3)?;
            emit_bound(code, program, frame, high, h + 4)?;
            let w = frame.width_at(program, *id);
            emit_cut(code, program, frame, low, high, w, h)?;
        }
        Expr::ArraySlicing(_, place, count, low, high) => {
            emit_place(code, program, frame, place, h)?;
            emit_pointing(code, program, frame, place, above_operands(place, h), h)?;
            emit_bound(code, program, frame, low, h + 3)?;
            emit_bound(code, program, frame, high, h + 4)?;
            emit_whole(code, program, frame, *count, h)?;
            let w = element_words(program, frame, place);
            emit_cut(code, program, frame, low, high, w, h)?;
        }
        Expr::Len(e) => {
            let e: &Expr = e;
            emit_expr(code, program, frame, e, h)?;
            put(code, header_word(program, frame, 1, h))?;
        }
        Expr::Cap(e) => {
            let e: &Expr = e;
            emit_expr(code, program, frame, e, h)?;
            put(code, header_word(program, frame, 2, h))?;
        }
    }
    Ok(())
}

// A bound lands in temp h, if it is there.
#[cycle(values)]
#[tactic(auto, using(typed::proofs::Rows::expr_rows))]
fn emit_bound(
    code: &mut Vec<Instr>,
    program: &Program,
    frame: &Frame,
    bound: &Bound,
    h: u16,
) -> Result<(), NoMemory>
    requires fits { BoundFitsIn (program_of program.now) (slots_in program.now frame.now) frame.now.sites h (bound_of bound.now) }
    requires frame { IsLaid program.now frame.now }
    ensures { OnOk result (code.new.items ≡ code.old.items
        ++ bound_code (program_of program.now) (slots_in program.now frame.now) (bound_of bound.now) h (length code.old.items)) }
{
    match bound {
        Bound::Absent => {}
        Bound::At(e) => {
            let e: &Expr = e;
            emit_expr(code, program, frame, e, h)?;
        }
    }
    Ok(())
}

/// The operands of a place land in temps from h on.
#[cycle(values)]
#[tactic(auto, using(typed::proofs::Rows::expr_rows))]
pub fn emit_place(
    code: &mut Vec<Instr>,
    program: &Program,
    frame: &Frame,
    place: &Place,
    h: u16,
) -> Result<(), NoMemory>
    requires fits { OperandsFit (program_of program.now) (slots_in program.now frame.now) frame.now.sites h (place_of place.now) }
    requires frame { IsLaid program.now frame.now }
    ensures { OnOk result (code.new.items ≡ code.old.items
        ++ place_code (program_of program.now) (slots_in program.now frame.now) (place_of place.now) h (length code.old.items)) }
{
    match place {
        Place::Local(..) | Place::Global(..) => {
            emit_place_steps(code, program, frame, place, h)?;
        }
        Place::Indirect(_, e, _, _) => {
            let e: &Expr = e;
            emit_expr(code, program, frame, e, h)?;
            emit_place_steps(code, program, frame, place, h + 1)?;
        }
        Place::SliceElement(_, e, i, _, _) => {
            let e: &Expr = e;
            let i: &Expr = i;
            emit_expr(code, program, frame, e, h)?;
            emit_expr(code, program, frame, i, h + 3)?;
            emit_place_steps(code, program, frame, place, h + 4)?;
        }
    }
    Ok(())
}

// The indices of a place land in temps from h on.
#[cycle(values)]
#[tactic(auto, using(typed::proofs::Rows::expr_rows))]
fn emit_place_steps(
    code: &mut Vec<Instr>,
    program: &Program,
    frame: &Frame,
    place: &Place,
    h: u16,
) -> Result<(), NoMemory>
    requires fits { StepsFitIn (program_of program.now) (slots_in program.now frame.now) frame.now.sites h
        (steps_in (place_of place.now)) }
    requires frame { IsLaid program.now frame.now }
    ensures { OnOk result (code.new.items ≡ code.old.items
        ++ steps_code (program_of program.now) (slots_in program.now frame.now) (steps_in (place_of place.now)) h
        (length code.old.items)) }
{
    match place {
        Place::Local(_, steps) => emit_steps(code, program, frame, steps, h)?,
        Place::Global(_, steps) => emit_steps(code, program, frame, steps, h)?,
        Place::Indirect(_, _, _, steps) => emit_steps(code, program, frame, steps, h)?,
        Place::SliceElement(_, _, _, _, steps) => emit_steps(code, program, frame, steps, h)?,
    }
    Ok(())
}

// The indices among steps land in temps from h on.
#[cycle(values)]
fn emit_steps(
    code: &mut Vec<Instr>,
    program: &Program,
    frame: &Frame,
    steps: &[Step],
    h: u16,
) -> Result<(), NoMemory>
    requires fits { StepsFitIn (program_of program.now) (slots_in program.now frame.now) frame.now.sites h
        (these_steps steps.now) }
    requires frame { IsLaid program.now frame.now }
    ensures { OnOk result (code.new.items ≡ code.old.items
        ++ steps_code (program_of program.now) (slots_in program.now frame.now) (these_steps steps.now) h
        (length code.old.items)) }
{
    let mut next = h;
    for step in steps {
        match step {
            Step::Inner(_) => {}
            Step::Index(_, e, _) => {
                emit_expr(code, program, frame, e, next)?;
                next += 1;
            }
        }
    }
    Ok(())
}

// The elements of a literal in temps from h on, whose numbers ascend: each is worked out in its place.
#[cycle(values)]
fn emit_ordered(
    code: &mut Vec<Instr>,
    program: &Program,
    frame: &Frame,
    id: TypeId,
    es: &[Element],
    h: u16,
) -> Result<(), NoMemory>
    requires fits { ElementsFitIn (program_of program.now) (slots_in program.now frame.now) frame.now.sites h
        (type_named (program_of program.now) id.0) true (elements_of es.now) }
    requires frame { IsLaid program.now frame.now }
    ensures { OnOk result (code.new.items ≡ code.old.items
        ++ elements_code (program_of program.now) (slots_in program.now frame.now)
        (type_named (program_of program.now) id.0) true (elements_of es.now) h (length code.old.items)) }
{
    for (i, element) in es.iter().enumerate() {
        match element {
            Element::For(number, e) => {
                let place = h + program.types.part_offset(id, *number) as u16;
                emit_expr(code, program, frame, e, place)?;
                emit_gap(code, program, frame, id, *number, &es[i + 1..], h)?;
            }
        }
    }
    Ok(())
}

// The elements of a literal in temps from h on: each is worked out after it and moved.
#[cycle(values)]
fn emit_moved(
    code: &mut Vec<Instr>,
    program: &Program,
    frame: &Frame,
    id: TypeId,
    es: &[Element],
    h: u16,
) -> Result<(), NoMemory>
    requires room { h + width (type_named (program_of program.now) id.0) ≤ frame.now.temps }
    requires fits { ElementsFitIn (program_of program.now) (slots_in program.now frame.now) frame.now.sites h
        (type_named (program_of program.now) id.0) false (elements_of es.now) }
    requires frame { IsLaid program.now frame.now }
    ensures { OnOk result (code.new.items ≡ code.old.items
        ++ elements_code (program_of program.now) (slots_in program.now frame.now)
        (type_named (program_of program.now) id.0) false (elements_of es.now) h (length code.old.items)) }
{
    let behind = h + program.types.width(id) as u16;
    for element in es {
        match element {
            Element::For(number, e) => {
                emit_expr(code, program, frame, e, behind)?;
                put(code, moved(program, frame, id, *number, behind, h))?;
            }
        }
    }
    Ok(())
}

/// The values land in temps from h on.
#[cycle(values)]
#[tactic(auto, using(typed::proofs::Rows::expr_rows))]
pub fn emit_values(
    code: &mut Vec<Instr>,
    program: &Program,
    frame: &Frame,
    values: &Values,
    h: u16,
) -> Result<(), NoMemory>
    requires fits { ExsFitIn (program_of program.now) (slots_in program.now frame.now) frame.now.sites h
        (exs_of_values values.now) }
    requires frame { IsLaid program.now frame.now }
    ensures { OnOk result (code.new.items ≡ code.old.items
        ++ exs_code (program_of program.now) (slots_in program.now frame.now) (exs_of_values values.now) h
        (length code.old.items)) }
{
    match values {
        Values::Each(es) => emit_row(code, program, frame, es, h)?,
        Values::Results(f, arguments) => {
            let arguments: &Values = arguments;
            emit_values(code, program, frame, arguments, h)?;
            emit_call(code, program, frame, *f, h)?;
        }
        Values::ReadInt => {
            let a = frame.temp(h);
            put(code, Instr::ReadInt { a })?;
        }
    }
    Ok(())
}

// The values of expressions land in temps from h on.
#[cycle(values)]
fn emit_row(
    code: &mut Vec<Instr>,
    program: &Program,
    frame: &Frame,
    es: &[Expr],
    h: u16,
) -> Result<(), NoMemory>
    requires fits { ExsFitIn (program_of program.now) (slots_in program.now frame.now) frame.now.sites h (exs_of es.now) }
    requires frame { IsLaid program.now frame.now }
    ensures { OnOk result (code.new.items ≡ code.old.items
        ++ exs_code (program_of program.now) (slots_in program.now frame.now) (exs_of es.now) h (length code.old.items)) }
{
    let mut next = h;
    for e in es {
        emit_expr(code, program, frame, e, next)?;
        next += expr_words(program, e)? as u16;
    }
    Ok(())
}
