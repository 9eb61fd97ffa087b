//! Trees, written down in short: a node stands in parentheses after its sign, and what the text itself has in parentheses in brackets.

use std::alloc::AllocError;
use std::str::from_utf8;
use syntax::{
    ArithmeticOp, BinOp, Bound, Clause, CompareOp, Decl, Element, Else, Expr, Field, Func, Guard,
    Name, Params, Simple, Stmt, Targets, Tree, TypeSpec, UnOp, ValueSpec,
};

fn prefix_sign(op: UnOp) -> &'static str {
    match op {
        UnOp::Plus => "+",
        UnOp::Negate => "-",
        UnOp::Not => "!",
        UnOp::Complement => "^",
        UnOp::Star => "*",
        UnOp::Address => "&",
    }
}

fn arithmetic_sign(op: ArithmeticOp) -> &'static str {
    match op {
        ArithmeticOp::Add => "+",
        ArithmeticOp::Sub => "-",
        ArithmeticOp::Mul => "*",
        ArithmeticOp::Div => "/",
        ArithmeticOp::Rem => "%",
        ArithmeticOp::And => "&",
        ArithmeticOp::Or => "|",
        ArithmeticOp::Xor => "^",
        ArithmeticOp::AndNot => "&^",
        ArithmeticOp::ShiftLeft => "<<",
        ArithmeticOp::ShiftRight => ">>",
    }
}

fn sign(op: BinOp) -> &'static str {
    match op {
        BinOp::Arithmetic(op) => arithmetic_sign(op),
        BinOp::Compare(CompareOp::Equal) => "==",
        BinOp::Compare(CompareOp::NotEqual) => "!=",
        BinOp::Compare(CompareOp::Less) => "<",
        BinOp::Compare(CompareOp::LessEqual) => "<=",
        BinOp::Compare(CompareOp::Greater) => ">",
        BinOp::Compare(CompareOp::GreaterEqual) => ">=",
        BinOp::LogicalAnd => "&&",
        BinOp::LogicalOr => "||",
    }
}

/// What the text has between two offsets.
fn write_span(text: &[u8], start: u32, end: u32, out: &mut String) -> Result<(), AllocError> {
    let bytes = text.get(start as usize..end as usize).unwrap_or(b"?");
    out.push_str(from_utf8(bytes).unwrap_or("?"))
}

fn write_name(text: &[u8], name: Name, out: &mut String) -> Result<(), AllocError> {
    write_span(text, name.pos.offset, name.end, out)
}

/// A name, and the offset where it stands.
fn write_placed(text: &[u8], name: Name, out: &mut String) -> Result<(), AllocError> {
    write_name(text, name, out)?;
    write!(out, "@{}", name.pos.offset)
}

/// Each name after a space.
fn write_names(text: &[u8], names: &[Name], out: &mut String) -> Result<(), AllocError> {
    for name in names {
        out.push(' ')?;
        write_name(text, *name, out)?;
    }
    Ok(())
}

/// Opens a node.
fn begin(sign: &str, out: &mut String) -> Result<(), AllocError> {
    out.push('(')?;
    out.push_str(sign)
}

#[cycle(expressions)]
fn write_expr(text: &[u8], e: &Expr, out: &mut String) -> Result<(), AllocError> {
    match e {
        Expr::Int(_, n) => write!(out, "{n}"),
        Expr::String(pos, end) => write_span(text, pos.offset, *end, out),
        Expr::Name(name) => write_name(text, *name, out),
        Expr::Unary(_, op, operand) => {
            begin(prefix_sign(*op), out)?;
            write_part(text, operand, out)?;
            out.push(')')
        }
        Expr::Binary(_, op, left, right) => {
            begin(sign(*op), out)?;
            write_part(text, left, out)?;
            write_part(text, right, out)?;
            out.push(')')
        }
        Expr::Paren(_, inner) => {
            out.push('[')?;
            write_expr(text, inner, out)?;
            out.push(']')
        }
        Expr::Call(function, arguments, spread) => {
            begin(if *spread { "spread" } else { "call" }, out)?;
            write_part(text, function, out)?;
            write_parts(text, arguments, out)?;
            out.push(')')
        }
        Expr::Selector(value, _, name) => {
            begin(".", out)?;
            write_part(text, value, out)?;
            out.push(' ')?;
            write_name(text, *name, out)?;
            out.push(')')
        }
        Expr::Index(value, _, at) => {
            begin("at", out)?;
            write_part(text, value, out)?;
            write_part(text, at, out)?;
            out.push(')')
        }
        Expr::Slice(value, _, low, high) => {
            begin("slice", out)?;
            write_part(text, value, out)?;
            write_bound(text, low, out)?;
            write_bound(text, high, out)?;
            out.push(')')
        }
        Expr::ArrayType(_, length, of) => {
            begin("array", out)?;
            write_part(text, length, out)?;
            write_part(text, of, out)?;
            out.push(')')
        }
        Expr::SliceType(_, of) => {
            begin("of", out)?;
            write_part(text, of, out)?;
            out.push(')')
        }
        Expr::Literal(type_expr, elements) => {
            begin("literal", out)?;
            write_part(text, type_expr, out)?;
            write_elements(text, elements, out)
        }
        Expr::Elements(_, elements) => {
            begin("braces", out)?;
            write_elements(text, elements, out)
        }
    }
}

/// An expression after a space.
#[cycle(expressions)]
fn write_part(text: &[u8], e: &Expr, out: &mut String) -> Result<(), AllocError> {
    out.push(' ')?;
    write_expr(text, e, out)
}

#[cycle(expressions)]
fn write_parts(text: &[u8], es: &[Expr], out: &mut String) -> Result<(), AllocError> {
    for e in es {
        write_part(text, e, out)?;
    }
    Ok(())
}

#[cycle(expressions)]
fn write_bound(text: &[u8], bound: &Bound, out: &mut String) -> Result<(), AllocError> {
    match bound {
        Bound::Absent => out.push_str(" _"),
        Bound::At(e) => write_part(text, e, out),
    }
}

/// Elements, and the parenthesis that closes their node.
#[cycle(expressions)]
fn write_elements(text: &[u8], elements: &[Element], out: &mut String) -> Result<(), AllocError> {
    for element in elements {
        match element {
            Element::Plain(e) => write_part(text, e, out)?,
            Element::Keyed(name, e) => {
                out.push(' ')?;
                write_name(text, *name, out)?;
                out.push(':')?;
                write_part(text, e, out)?;
            }
        }
    }
    out.push(')')
}

fn write_simple(text: &[u8], simple: &Simple, out: &mut String) -> Result<(), AllocError> {
    match simple {
        Simple::Express(e) => write_expr(text, e, out),
        Simple::Assign(lefts, _, values) => write_setting(text, lefts, "", values, out),
        Simple::Update(lefts, _, op, values) => {
            write_setting(text, lefts, arithmetic_sign(*op), values, out)
        }
        Simple::Define(names, _, values) => {
            begin("new", out)?;
            write_names(text, names, out)?;
            out.push_str(" =")?;
            write_parts(text, values, out)?;
            out.push(')')
        }
        Simple::Increment(left, _) => write_step(text, "++", left, out),
        Simple::Decrement(left, _) => write_step(text, "--", left, out),
    }
}

fn write_step(text: &[u8], sign: &str, left: &Expr, out: &mut String) -> Result<(), AllocError> {
    begin(sign, out)?;
    write_part(text, left, out)?;
    out.push(')')
}

/// An assignment, with the sign before its `=`.
fn write_setting(
    text: &[u8],
    lefts: &[Expr],
    sign: &str,
    values: &[Expr],
    out: &mut String,
) -> Result<(), AllocError> {
    begin("set", out)?;
    write_parts(text, lefts, out)?;
    write!(out, " {sign}=")?;
    write_parts(text, values, out)?;
    out.push(')')
}

/// A simple statement that may be absent, after a space.
fn write_optional(
    text: &[u8],
    simple: &Option<Simple>,
    out: &mut String,
) -> Result<(), AllocError> {
    out.push(' ')?;
    match simple {
        Some(simple) => write_simple(text, simple, out),
        None => out.push('_'),
    }
}

fn write_clause(text: &[u8], clause: &Clause, out: &mut String) -> Result<(), AllocError> {
    match clause {
        Clause::Forever => Ok(()),
        Clause::While(e) => write_part(text, e, out),
        Clause::Counting(init, condition, post) => {
            write_optional(text, init, out)?;
            out.push(';')?;
            match condition {
                Some(e) => write_part(text, e, out)?,
                None => out.push_str(" _")?,
            }
            out.push(';')?;
            write_optional(text, post, out)
        }
        Clause::Range(targets, _, e) => {
            match targets {
                Targets::Absent => {}
                Targets::Assign(lefts, _) => {
                    write_parts(text, lefts, out)?;
                    out.push_str(" =")?;
                }
                Targets::Define(names, _) => {
                    write_names(text, names, out)?;
                    out.push_str(" :=")?;
                }
            }
            out.push_str(" range")?;
            write_part(text, e, out)
        }
    }
}

/// The names, the type, and the values, each after a space.
fn write_specs(text: &[u8], specs: &[ValueSpec], out: &mut String) -> Result<(), AllocError> {
    for spec in specs {
        write_names(text, &spec.names, out)?;
        if let Some(type_expr) = &spec.type_expr {
            out.push_str(" :")?;
            write_part(text, type_expr, out)?;
        }
        if !spec.values.is_empty() {
            out.push_str(" =")?;
            write_parts(text, &spec.values, out)?;
        }
        out.push(';')?;
    }
    Ok(())
}

/// What stands between an `if` and its body.
fn write_guard(text: &[u8], guard: &Guard, out: &mut String) -> Result<(), AllocError> {
    if guard.init.is_some() {
        write_optional(text, &guard.init, out)?;
        out.push(';')?;
    }
    write_part(text, &guard.condition, out)
}

#[cycle(statements)]
fn write_stmt(text: &[u8], stmt: &Stmt, out: &mut String) -> Result<(), AllocError> {
    match stmt {
        Stmt::Var(_, specs) => {
            begin("var", out)?;
            write_specs(text, specs, out)?;
            out.push(')')
        }
        Stmt::Simple(simple) => write_simple(text, simple, out),
        Stmt::Block(body) => write_block(text, body, out),
        Stmt::If(_, guard, body, otherwise) => {
            begin("if", out)?;
            write_guard(text, guard, out)?;
            out.push(' ')?;
            write_block(text, body, out)?;
            write_else(text, otherwise, out)?;
            out.push(')')
        }
        Stmt::For(_, clause, body) => {
            begin("for", out)?;
            write_clause(text, clause, out)?;
            out.push(' ')?;
            write_block(text, body, out)?;
            out.push(')')
        }
        Stmt::Break(_) => out.push_str("break"),
        Stmt::Continue(_) => out.push_str("continue"),
        Stmt::Return(_, values) => {
            begin("return", out)?;
            write_parts(text, values, out)?;
            out.push(')')
        }
    }
}

/// Each statement after a space.
#[cycle(statements)]
pub fn write_stmts(text: &[u8], body: &[Stmt], out: &mut String) -> Result<(), AllocError> {
    for stmt in body {
        out.push(' ')?;
        write_stmt(text, stmt, out)?;
    }
    Ok(())
}

#[cycle(statements)]
fn write_block(text: &[u8], body: &[Stmt], out: &mut String) -> Result<(), AllocError> {
    out.push('{')?;
    write_stmts(text, body, out)?;
    out.push_str(" }")
}

#[cycle(statements)]
fn write_else(text: &[u8], otherwise: &Else, out: &mut String) -> Result<(), AllocError> {
    match otherwise {
        Else::Absent => Ok(()),
        Else::Block(body) => {
            out.push_str(" else ")?;
            write_block(text, body, out)
        }
        Else::If(_, guard, body, otherwise) => {
            out.push_str(" else if")?;
            write_guard(text, guard, out)?;
            out.push(' ')?;
            write_block(text, body, out)?;
            write_else(text, otherwise, out)
        }
    }
}

fn write_fields(text: &[u8], fields: &[Field], out: &mut String) -> Result<(), AllocError> {
    for field in fields {
        write_names(text, &field.names, out)?;
        out.push_str(" :")?;
        write_part(text, &field.type_expr, out)?;
        out.push(';')?;
    }
    Ok(())
}

/// Types in parentheses, or names with types in brackets.
fn write_params(text: &[u8], params: &Params, out: &mut String) -> Result<(), AllocError> {
    match params {
        Params::Unnamed(types) => {
            out.push_str(" (")?;
            write_parts(text, types, out)?;
            out.push_str(" )")
        }
        Params::Named(fields) => {
            out.push_str(" [")?;
            write_fields(text, fields, out)?;
            out.push_str(" ]")
        }
    }
}

/// A function, with the offset of the closing brace of its body.
fn write_func(text: &[u8], func: &Func, out: &mut String) -> Result<(), AllocError> {
    write!(out, "func@{} ", func.pos.offset)?;
    write_placed(text, func.name, out)?;
    write_params(text, &func.params, out)?;
    write_params(text, &func.results, out)?;
    match &func.body {
        None => Ok(()),
        Some(body) => {
            out.push(' ')?;
            write_block(text, &body.statements, out)?;
            write!(out, "@{}", body.end.offset)
        }
    }
}

fn write_types(text: &[u8], specs: &[TypeSpec], out: &mut String) -> Result<(), AllocError> {
    for spec in specs {
        out.push(' ')?;
        write_placed(text, spec.name, out)?;
        out.push_str(" {")?;
        write_fields(text, &spec.fields, out)?;
        out.push_str(" }")?;
    }
    Ok(())
}

/// A declaration, with the offset of its word.
fn write_decl(text: &[u8], decl: &Decl, out: &mut String) -> Result<(), AllocError> {
    match decl {
        Decl::Const(pos, specs) => {
            write!(out, "const@{}", pos.offset)?;
            write_specs(text, specs, out)
        }
        Decl::Var(pos, specs) => {
            write!(out, "var@{}", pos.offset)?;
            write_specs(text, specs, out)
        }
        Decl::Type(pos, specs) => {
            write!(out, "type@{}", pos.offset)?;
            write_types(text, specs, out)
        }
        Decl::Func(func) => write_func(text, func, out),
    }
}

/// The name of the package, and the declarations, each after a space.
pub fn write_tree(tree: &Tree, out: &mut String) -> Result<(), AllocError> {
    write_placed(&tree.text, tree.package, out)?;
    for decl in &tree.decls {
        out.push(' ')?;
        write_decl(&tree.text, decl, out)?;
    }
    Ok(())
}
