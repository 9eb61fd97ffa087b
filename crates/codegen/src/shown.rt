//! The code of `print`, `println`, `panic` and `exit`.
ghost use Rattle.std.specs.Prelude.{◌≡◌, ◌+◌, ◌<◌, ◌++◌, ◌∷◌, [], IfOk, OnOk, length, map};
ghost use Rattle.isa.specs.declared.instr.Instr.{Instr};
ghost use Rattle.typed.specs.View.{ex_of, piece_of, program_of, type_of};
ghost use Rattle.expression_code.specs.Frame.{slots_in, IsLaid};
ghost use Rattle.codegen.specs.Frame.{show_piece, temp_behind, ShownFit};
ghost use Rattle.expression_code.specs.Temps.{Fits};
ghost use Rattle.codegen.specs.Temps.{PiecesFitIn};
ghost use Rattle.program_code.specs.Code.{ex_code, pieces_code, raised_code, show_code, show_line, show_more, show_plain, shown_code, temp};

use base::{NoMemory, TypeId};
use expression_code::{Frame, emit_expr, put};
use isa::Instr;
use typed::{BOOL, Expr, Piece, Program};

// A value of a type in a slot is shown.
#[tactic(auto, using(crate::proofs::Pieces::is_bool, crate::proofs::Pieces::is_int))]
fn shown(type_id: TypeId, a: u16) -> Instr
    ensures { result ≡ shown_code (type_of type_id.0) a }
{
    if type_id.0 == BOOL.0 {
        Instr::PrintBool { a }
    } else {
        Instr::PrintInt { a }
    }
}

// A panic with it.
#[tactic(auto, using(crate::proofs::Pieces::is_bool, crate::proofs::Pieces::is_int))]
fn raised(type_id: TypeId, a: u16) -> Instr
    ensures { result ≡ raised_code (type_of type_id.0) a }
{
    if type_id.0 == BOOL.0 {
        Instr::PanicBool { a }
    } else {
        Instr::PanicInt { a }
    }
}

// The value of an operand that has one lands in temp h. The answer is the temp of the next value.
fn emit_operand(
    code: &mut Vec<Instr>,
    program: &Program,
    frame: &Frame,
    p: &Piece,
    h: u16,
) -> Result<u16, NoMemory>
    requires fits { PiecesFitIn (program_of program.now) (slots_in program.now frame.now) frame.now.sites h
        (piece_of p.now ∷ []) }
    requires frame { IsLaid program.now frame.now }
    ensures code { OnOk result (code.new.items ≡ code.old.items
        ++ pieces_code (program_of program.now) (slots_in program.now frame.now) (piece_of p.now ∷ []) h
        (length code.old.items)) }
    ensures next { IfOk result (λ n. n ≡ temp_behind (piece_of p.now) h) }
{
    match p {
        Piece::Text(_) => Ok(h),
        Piece::Shown(_, e) => {
            emit_expr(code, program, frame, e, h)?;
            Ok(h + 1)
        }
    }
}

// The operands that are values land in temps from h on.
fn emit_operands(
    code: &mut Vec<Instr>,
    program: &Program,
    frame: &Frame,
    ps: &[Piece],
    h: u16,
) -> Result<(), NoMemory>
    requires fits { PiecesFitIn (program_of program.now) (slots_in program.now frame.now) frame.now.sites h
        (map piece_of ps.now) }
    requires frame { IsLaid program.now frame.now }
    ensures { OnOk result (code.new.items ≡ code.old.items
        ++ pieces_code (program_of program.now) (slots_in program.now frame.now) (map piece_of ps.now) h
        (length code.old.items)) }
{
    let mut next = h;
    for p in ps {
        next = emit_operand(code, program, frame, p, next)?;
    }
    Ok(())
}

// An operand is shown; a value stands in temp h. The answer is the temp of the next value.
fn emit_piece(
    code: &mut Vec<Instr>,
    program: &Program,
    frame: &Frame,
    p: &Piece,
    h: u16,
) -> Result<u16, NoMemory>
    requires temp { ShownFit (slots_in program.now frame.now) h (piece_of p.now ∷ []) }
    requires frame { IsLaid program.now frame.now }
    ensures shows { OnOk result (code.new.items ≡ code.old.items
        ++ show_piece (slots_in program.now frame.now) (piece_of p.now) h ∷ []) }
    ensures next { IfOk result (λ n. n ≡ temp_behind (piece_of p.now) h) }
{
    match p {
        Piece::Text(text) => {
            put(code, Instr::PrintText { text: *text })?;
            Ok(h)
        }
        Piece::Shown(type_id, _) => {
            put(code, shown(*type_id, frame.temp(h)))?;
            Ok(h + 1)
        }
    }
}

// The further operands of a line are shown.
#[tactic(auto, using(crate::proofs::Pieces::more_first, crate::proofs::Pieces::fit_first, crate::proofs::Pieces::fit_others))]
fn emit_more(
    code: &mut Vec<Instr>,
    program: &Program,
    frame: &Frame,
    ps: &[Piece],
    h: u16,
) -> Result<(), NoMemory>
    requires temps { ShownFit (slots_in program.now frame.now) h (map piece_of ps.now) }
    requires frame { IsLaid program.now frame.now }
    ensures { OnOk result (code.new.items ≡ code.old.items
        ++ show_more (slots_in program.now frame.now) (map piece_of ps.now) h) }
{
    let mut next = h;
    for p in ps {
        put(code, Instr::PrintSpace)?;
        next = emit_piece(code, program, frame, p, next)?;
    }
    put(code, Instr::PrintLine)?;
    Ok(())
}

// A line of operands.
#[tactic(auto, using(crate::proofs::Pieces::line_first, crate::proofs::Pieces::fit_first, crate::proofs::Pieces::fit_others))]
fn emit_line(
    code: &mut Vec<Instr>,
    program: &Program,
    frame: &Frame,
    ps: &[Piece],
    h: u16,
) -> Result<(), NoMemory>
    requires temps { ShownFit (slots_in program.now frame.now) h (map piece_of ps.now) }
    requires frame { IsLaid program.now frame.now }
    ensures { OnOk result (code.new.items ≡ code.old.items
        ++ show_line (slots_in program.now frame.now) (map piece_of ps.now) h) }
{
    match ps {
        [] => put(code, Instr::PrintLine)?,
        [first, others @ ..] => {
            let next = emit_piece(code, program, frame, first, h)?;
            emit_more(code, program, frame, others, next)?;
        }
    }
    Ok(())
}

// Operands without spaces and a newline.
#[tactic(auto, using(crate::proofs::Pieces::plain_first, crate::proofs::Pieces::fit_first, crate::proofs::Pieces::fit_others))]
fn emit_plain(
    code: &mut Vec<Instr>,
    program: &Program,
    frame: &Frame,
    ps: &[Piece],
    h: u16,
) -> Result<(), NoMemory>
    requires temps { ShownFit (slots_in program.now frame.now) h (map piece_of ps.now) }
    requires frame { IsLaid program.now frame.now }
    ensures { OnOk result (code.new.items ≡ code.old.items
        ++ show_plain (slots_in program.now frame.now) (map piece_of ps.now) h) }
{
    let mut next = h;
    for p in ps {
        next = emit_piece(code, program, frame, p, next)?;
    }
    Ok(())
}

// The operands whose values stand in temps from h on are shown.
fn emit_shown(
    code: &mut Vec<Instr>,
    program: &Program,
    frame: &Frame,
    line: bool,
    ps: &[Piece],
    h: u16,
) -> Result<(), NoMemory>
    requires temps { ShownFit (slots_in program.now frame.now) h (map piece_of ps.now) }
    requires frame { IsLaid program.now frame.now }
    ensures { OnOk result (code.new.items ≡ code.old.items
        ++ show_code (slots_in program.now frame.now) line (map piece_of ps.now) h) }
{
    if line {
        emit_line(code, program, frame, ps, h)
    } else {
        emit_plain(code, program, frame, ps, h)
    }
}

/// `print`, or `println` where a line is wanted.
#[tactic(auto, using(crate::proofs::Pieces::shown_fit))]
pub fn emit_print(
    code: &mut Vec<Instr>,
    program: &Program,
    frame: &Frame,
    line: bool,
    ps: &[Piece],
    h: u16,
) -> Result<(), NoMemory>
    requires fits { PiecesFitIn (program_of program.now) (slots_in program.now frame.now) frame.now.sites h
        (map piece_of ps.now) }
    requires frame { IsLaid program.now frame.now }
    ensures { OnOk result (code.new.items ≡ code.old.items
        ++ (pieces_code (program_of program.now) (slots_in program.now frame.now) (map piece_of ps.now) h
        (length code.old.items) ++ show_code (slots_in program.now frame.now) line (map piece_of ps.now) h)) }
{
    emit_operands(code, program, frame, ps, h)?;
    emit_shown(code, program, frame, line, ps, h)?;
    Ok(())
}

/// A panic with a value.
pub fn emit_raised(
    code: &mut Vec<Instr>,
    program: &Program,
    frame: &Frame,
    type_id: TypeId,
    e: &Expr,
    h: u16,
) -> Result<(), NoMemory>
    requires fits { (h < frame.now.temps) × Fits (program_of program.now) (slots_in program.now frame.now) frame.now.sites h
        (ex_of e.now) }
    requires frame { IsLaid program.now frame.now }
    ensures { OnOk result (code.new.items ≡ code.old.items
        ++ (ex_code (program_of program.now) (slots_in program.now frame.now) (ex_of e.now) h (length code.old.items)
        ++ raised_code (type_of type_id.0) (temp (slots_in program.now frame.now) h) ∷ [])) }
{
    emit_expr(code, program, frame, e, h)?;
    put(code, raised(type_id, frame.temp(h)))?;
    Ok(())
}

/// An exit with a status.
pub fn emit_exit(
    code: &mut Vec<Instr>,
    program: &Program,
    frame: &Frame,
    e: &Expr,
    h: u16,
) -> Result<(), NoMemory>
    requires fits { (h < frame.now.temps) × Fits (program_of program.now) (slots_in program.now frame.now) frame.now.sites h
        (ex_of e.now) }
    requires frame { IsLaid program.now frame.now }
    ensures { OnOk result (code.new.items ≡ code.old.items
        ++ (ex_code (program_of program.now) (slots_in program.now frame.now) (ex_of e.now) h (length code.old.items)
        ++ Instr.Exit (temp (slots_in program.now frame.now) h) ∷ [])) }
{
    emit_expr(code, program, frame, e, h)?;
    let a = frame.temp(h);
    put(code, Instr::Exit { a })?;
    Ok(())
}
