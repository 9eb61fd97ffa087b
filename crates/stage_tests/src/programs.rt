//! Typed programs, written down in short: a local variable is the number of its site after a `v`, a package variable its own after a `g`, a function that of itself after an `f`, a
//! string that of itself after an `s`, a type that of itself after a `t`; a step to a field or an element is its number after a `.`, one to an element by an index is the
//! index in brackets; a place in the text is a column after an `@`.

use base::{Pos, SiteId, TypeId};
use std::alloc::AllocError;
use std::str::from_utf8;
use typed::{
    BOOL, BinOp, Const, Element, Expr, Func, INT, Left, Piece, Place, Program, Step, Stmt, UnOp,
    Values,
};

fn prefix_sign(op: UnOp) -> &'static str {
    match op {
        UnOp::Plus => "+",
        UnOp::Negate => "-",
        UnOp::Complement => "^",
        UnOp::Not => "!",
    }
}

fn sign(op: BinOp) -> &'static str {
    match op {
        BinOp::Add => "+",
        BinOp::Sub => "-",
        BinOp::Mul => "*",
        BinOp::Div => "/",
        BinOp::Rem => "%",
        BinOp::And => "&",
        BinOp::Or => "|",
        BinOp::Xor => "^",
        BinOp::AndNot => "&^",
        BinOp::ShiftLeft => "<<",
        BinOp::ShiftRight => ">>",
        BinOp::Equal => "==",
        BinOp::NotEqual => "!=",
        BinOp::Less => "<",
        BinOp::LessEqual => "<=",
        BinOp::Greater => ">",
        BinOp::GreaterEqual => ">=",
    }
}

/// An operator, with the place that a panic would name where it can panic.
fn write_sign(op: BinOp, pos: Pos, out: &mut String) -> Result<(), AllocError> {
    out.push_str(sign(op))?;
    match op {
        BinOp::Div | BinOp::Rem | BinOp::ShiftLeft | BinOp::ShiftRight => {
            write!(out, "@{}", pos.col)
        }
        _ => Ok(()),
    }
}

fn type_name(type_id: TypeId) -> &'static str {
    match type_id {
        INT => "int",
        BOOL => "bool",
        _ => "?",
    }
}

/// Each type after a space.
fn write_types(types: &[TypeId], out: &mut String) -> Result<(), AllocError> {
    for type_id in types {
        out.push(' ')?;
        out.push_str(type_name(*type_id))?;
    }
    Ok(())
}

/// Each variable after a space.
fn write_sites(sites: &[SiteId], out: &mut String) -> Result<(), AllocError> {
    for site in sites {
        write!(out, " v{}", site.0)?;
    }
    Ok(())
}

/// A place after a space.
#[cycle(expressions)]
fn write_place(place: &Place, out: &mut String) -> Result<(), AllocError> {
    match place {
        Place::Local(site, steps) => {
            write!(out, " v{}", site.0)?;
            write_steps(steps, out)
        }
        Place::Global(number, steps) => {
            write!(out, " g{number}")?;
            write_steps(steps, out)
        }
        // The checker gives none through pointers and slices.
        _ => out.push_str(" ?"),
    }
}

/// The steps to a part; an index has its place and the number of elements.
#[cycle(expressions)]
fn write_steps(steps: &[Step], out: &mut String) -> Result<(), AllocError> {
    for step in steps {
        match step {
            Step::Inner(number) => write!(out, ".{number}")?,
            Step::Index(pos, e, count) => {
                out.push('[')?;
                write_expr(e, out)?;
                write!(out, " of {count}]@{}", pos.col)?;
            }
        }
    }
    Ok(())
}

/// An expression after a space.
#[cycle(expressions)]
fn write_expr(e: &Expr, out: &mut String) -> Result<(), AllocError> {
    match e {
        Expr::Constant(Const::Int(n)) => write!(out, " {n}"),
        Expr::Constant(Const::Bool(b)) => write!(out, " {b}"),
        Expr::Read(place) => write_place(place, out),
        Expr::Unary(op, operand) => {
            write!(out, " ({}", prefix_sign(*op))?;
            write_expr(operand, out)?;
            out.push(')')
        }
        Expr::Binary(pos, op, left, right) => {
            out.push_str(" (")?;
            write_sign(*op, *pos, out)?;
            write_expr(left, out)?;
            write_expr(right, out)?;
            out.push(')')
        }
        Expr::LogicalAnd(left, right) => {
            out.push_str(" (&&")?;
            write_expr(left, out)?;
            write_expr(right, out)?;
            out.push(')')
        }
        Expr::LogicalOr(left, right) => {
            out.push_str(" (||")?;
            write_expr(left, out)?;
            write_expr(right, out)?;
            out.push(')')
        }
        Expr::Call(function, arguments) => {
            write!(out, " (f{}", function.0)?;
            write_values(arguments, out)?;
            out.push(')')
        }
        Expr::Part(type_id, number, whole) => {
            write!(out, " (t{}", type_id.0)?;
            write_expr(whole, out)?;
            write!(out, ").{number}")
        }
        Expr::Literal(type_id, elements) => {
            write!(out, " (t{} of", type_id.0)?;
            write_elements(elements, out)?;
            out.push(')')
        }
        // The checker gives none that makes or follows pointers and slices.
        _ => out.push_str(" ?"),
    }
}

/// Elements, each with its number after a space.
#[cycle(expressions)]
fn write_elements(elements: &[Element], out: &mut String) -> Result<(), AllocError> {
    for element in elements {
        match element {
            Element::For(number, e) => {
                write!(out, " .{number}")?;
                write_expr(e, out)?;
            }
        }
    }
    Ok(())
}

/// Values, each after a space; all results of one call are after an `all`.
#[cycle(expressions)]
fn write_values(values: &Values, out: &mut String) -> Result<(), AllocError> {
    match values {
        Values::Each(es) => {
            for e in es {
                write_expr(e, out)?;
            }
            Ok(())
        }
        Values::Results(function, arguments) => {
            write!(out, " (all f{}", function.0)?;
            write_values(arguments, out)?;
            out.push(')')
        }
        Values::ReadInt => out.push_str(" (all readInt)"),
    }
}

/// A left side after a space; a new variable is after a `+`.
fn write_left(left: &Left, out: &mut String) -> Result<(), AllocError> {
    match left {
        Left::Blank => out.push_str(" _"),
        Left::New(site) => write!(out, " +v{}", site.0),
        Left::To(place) => write_place(place, out),
    }
}

fn write_lefts(lefts: &[Left], out: &mut String) -> Result<(), AllocError> {
    for left in lefts {
        write_left(left, out)?;
    }
    Ok(())
}

/// An operand after a space, with its type.
fn write_piece(piece: &Piece, out: &mut String) -> Result<(), AllocError> {
    match piece {
        Piece::Text(number) => write!(out, " s{number}"),
        Piece::Shown(type_id, e) => {
            out.push(' ')?;
            out.push_str(type_name(*type_id))?;
            write_expr(e, out)
        }
    }
}

fn write_pieces(pieces: &[Piece], out: &mut String) -> Result<(), AllocError> {
    for piece in pieces {
        write_piece(piece, out)?;
    }
    Ok(())
}

/// What stands in a statement that has no statements in it.
fn write_plain(stmt: &Stmt, out: &mut String) -> Result<(), AllocError> {
    match stmt {
        Stmt::Declare(sites) => {
            out.push_str("new")?;
            write_sites(sites, out)
        }
        Stmt::Assign(lefts, values) => {
            out.push_str("set")?;
            write_lefts(lefts, out)?;
            out.push_str(" =")?;
            write_values(values, out)
        }
        Stmt::Update(pos, place, op, e) => {
            write_sign(*op, *pos, out)?;
            out.push('=')?;
            write_place(place, out)?;
            write_expr(e, out)
        }
        Stmt::Bump(_, place, op) => {
            write!(out, "{}1", sign(*op))?;
            write_place(place, out)
        }
        Stmt::Discard(values) => {
            out.push_str("do")?;
            write_values(values, out)
        }
        Stmt::Return(values) => {
            out.push_str("return")?;
            write_values(values, out)
        }
        Stmt::Print(is_line, pieces) => {
            out.push_str(if *is_line { "println" } else { "print" })?;
            write_pieces(pieces, out)
        }
        Stmt::Panic(pos, piece) => {
            write!(out, "panic@{}", pos.col)?;
            write_piece(piece, out)
        }
        Stmt::Exit(pos, e) => {
            write!(out, "exit@{}", pos.col)?;
            write_expr(e, out)
        }
        Stmt::Break => out.push_str("break"),
        Stmt::Continue => out.push_str("continue"),
        _ => out.push('?'),
    }
}

/// The header of a `range`.
fn write_range(stmt: &Stmt, out: &mut String) -> Result<(), AllocError> {
    match stmt {
        Stmt::Count(e, left, _) => {
            out.push_str(" (count")?;
            write_expr(e, out)?;
            write_left(left, out)
        }
        Stmt::Indices(count, left, _) => {
            write!(out, " (indices {count}")?;
            write_left(left, out)
        }
        Stmt::Elements(site, e, count, key, value, _) => {
            write!(out, " (elements v{} of {count}", site.0)?;
            write_expr(e, out)?;
            write_left(key, out)?;
            write_left(value, out)
        }
        _ => out.push('?'),
    }
}

#[cycle(statements)]
fn write_stmt(stmt: &Stmt, out: &mut String) -> Result<(), AllocError> {
    match stmt {
        Stmt::Block(body) => write_block(body, out),
        Stmt::If(condition, then, otherwise) => {
            out.push_str(" (if")?;
            write_expr(condition, out)?;
            write_block(then, out)?;
            write_block(otherwise, out)?;
            out.push(')')
        }
        Stmt::For(sites, condition, post, body) => {
            out.push_str(" (loop")?;
            write_sites(sites, out)?;
            out.push(';')?;
            if let Some(condition) = condition {
                write_expr(condition, out)?;
            }
            out.push(';')?;
            write_block(post, out)?;
            write_block(body, out)?;
            out.push(')')
        }
        Stmt::Count(_, _, body) | Stmt::Indices(_, _, body) | Stmt::Elements(_, _, _, _, _, body) =>
            {
                write_range(stmt, out)?;
                write_block(body, out)?;
                out.push(')')
            }
        plain => {
            out.push_str(" (")?;
            write_plain(plain, out)?;
            out.push(')')
        }
    }
}

/// Statements, each after a space.
#[cycle(statements)]
pub fn write_stmts(body: &[Stmt], out: &mut String) -> Result<(), AllocError> {
    for stmt in body {
        write_stmt(stmt, out)?;
    }
    Ok(())
}

/// The same in braces, after a space.
#[cycle(statements)]
fn write_block(body: &[Stmt], out: &mut String) -> Result<(), AllocError> {
    out.push_str(" {")?;
    write_stmts(body, out)?;
    out.push_str(" }")
}

/// A function: its first site and how many it has, its parameters with their types, the types of its results, their variables, and its
/// body.
fn write_func(func: &Func, out: &mut String) -> Result<(), AllocError> {
    write!(
        out,
        " (func@{} {}+{}:",
        func.pos.col, func.first_site, func.sites
    )?;
    for param in &func.params {
        match param {
            Some(site) => write!(out, " v{}", site.0)?,
            None => out.push_str(" _")?,
        }
    }
    out.push(':')?;
    write_types(&func.param_types, out)?;
    out.push(':')?;
    write_types(&func.results, out)?;
    write_sites(&func.named, out)?;
    write_block(&func.body, out)?;
    out.push(')')
}

/// Which function is `main`, the functions, the types of all sites with their places, and the strings.
pub fn write_program(program: &Program, out: &mut String) -> Result<(), AllocError> {
    write!(out, "f{}", program.main.0)?;
    for func in &program.funcs {
        write_func(func, out)?;
    }
    for site in &program.sites {
        write!(out, " {}@{}", type_name(site.type_id), site.pos.col)?;
    }
    for string in &program.strings {
        write!(out, " \"{}\"", from_utf8(string).unwrap_or("?"))?;
    }
    Ok(())
}
