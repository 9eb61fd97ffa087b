//! The types of statements that have statements in them, and of what stands in a block.

ghost use Rattle.std.specs.Prelude.{◌≡◌, ◌<◌, ◌⊎◌, Option, Some, None, IfOk, OnOk, map, length, not, [], ◌∷◌, ◌++◌};
ghost use Rattle.std.specs.Option.{option_map};
ghost use Rattle.syntax.specs.Statements.{guard_of, clause_of, stm_of, stms_of, els_of};
ghost use Rattle.typed_syntax.specs.Syntax.{block, break_stmt, continue_stmt};
ghost use Rattle.typed.specs.View.{ex_of, st_of, sts_of, site_numbers, left_of as left_view};
ghost use Rattle.type_faults.specs.Least.{IsLeast, lesser};
ghost use Rattle.type_faults.specs.Given.{allowed};
ghost use Rattle.type_faults.specs.Faults.{fault as fault_at, IsFault};
ghost use Rattle.type_faults.specs.declared.fault.FaultKind.TheVariants.{BreakOutside as Outside};
ghost use Rattle.names.specs.Scope.{scope_of, opened, closed};
ghost use Rattle.simple_statements.specs.SimpleStatements.{returns_view, before};
ghost use Rattle.types_go.specs.Statements.{alone, headed, new_in, declared_in, chosen, range_stmt, for_of, choice_of, loop_of, statement, alternative, statements, behind, behind_else, behind_all};
ghost use Rattle.signatures.specs.Failing.{fault_where};
ghost use Rattle.types_go.specs.StatementFaults.{FailsInStatement, FailsInElse, FailsInStatements};
ghost use Rattle.types_go.specs.StatementPassing.{choice_view, range_view, head_view, with_more};

use crate::heads::{Choice, Guarded, Head, Headed, alone, carries, check_clause, check_guard};
use crate::ranges::Range;
use base::{NoMemory, Pos, SiteId};
use names::Scope;
use signatures::fault_where;
use simple_statements::{Line, Lines, Returns, check_return, check_simple, check_var};
use std::alloc::Global;
use syntax::{Clause, Else, Guard, Stmt};
use type_faults::{Fault, FaultKind, lesser};
use typed::Left;

/// More statements after those that have typed forms.
fn with_statements(
    statements: Option<Vec<typed::Stmt>>,
    more: Option<Vec<typed::Stmt>>,
) -> Result<Option<Vec<typed::Stmt>>, NoMemory>
    ensures { IfOk result (λ r. option_map (λ v. v.items) r
        ≡ with_more (option_map (λ v. v.items) statements) (option_map (λ v. v.items) more)) }
{
    match (statements, more) {
        (Some(mut statements), Some(mut more)) => {
            statements.append(&mut more)?;
            Ok(Some(statements))
        }
        _ => Ok(None),
    }
}

/// One more site, where a left side is a new variable.
fn with_new(sites: Vec<SiteId>, left: &Left) -> Result<Vec<SiteId>, NoMemory>
    ensures { IfOk result (λ v. site_numbers v.items ≡ site_numbers sites.items ++ new_in (left_view left.now ∷ [])) }
{
    let mut sites = sites;
    if let Left::New(site) = left {
        sites.push(*site)?;
    }
    Ok(sites)
}

/// The new variables among left sides.
fn new_in(alloc: Global, lefts: &[Left]) -> Result<Vec<SiteId>, NoMemory>
    ensures { IfOk result (λ v. site_numbers v.items ≡ new_in (map left_view lefts.now)) }
{
    let mut sites = Vec::new(alloc);
    for left in lefts {
        sites = with_new(sites, left)?;
    }
    Ok(sites)
}

/// The new variables of an init statement.
fn declared_in(alloc: Global, init: &Option<typed::Stmt>) -> Result<Vec<SiteId>, NoMemory>
    ensures { IfOk result (λ v. site_numbers v.items ≡ declared_in (option_map st_of init.now)) }
{
    let Some(init) = init else {
        return Ok(Vec::new(alloc));
    };
    match init {
        typed::Stmt::Assign(lefts, _) => new_in(alloc, lefts),
        _ => Ok(Vec::new(alloc)),
    }
}

/// A statement after the init statement of its header, in the block around both.
#[tactic(auto, using(typed::proofs::Rows::stmt_rows))]
fn headed(
    alloc: Global,
    init: Option<typed::Stmt>,
    statement: typed::Stmt,
) -> Result<typed::Stmt, NoMemory>
    ensures { IfOk result (λ s. st_of s ≡ headed (option_map st_of init) (st_of statement)) }
{
    match init {
        Some(init) => {
            let statements = Vec::from_array(alloc, [init, statement])?;
            Ok(typed::Stmt::Block(statements))
        }
        None => Ok(statement),
    }
}

/// An `if` of its header and its branches.
#[tactic(auto, using(typed::proofs::Rows::stmt_rows))]
fn chosen(
    alloc: Global,
    choice: Choice,
    body: Vec<typed::Stmt>,
    rest: Vec<typed::Stmt>,
) -> Result<typed::Stmt, NoMemory>
    ensures { IfOk result (λ s. st_of s ≡ chosen (choice_view choice) (sts_of body.items) (sts_of rest.items)) }
{
    let Choice { init, condition } = choice;
    headed(alloc, init, typed::Stmt::If(condition, body, rest))
}

/// A `range` of its header and its body.
#[tactic(auto, using(typed::proofs::Rows::stmt_rows))]
fn range_stmt(header: Range, body: Vec<typed::Stmt>) -> typed::Stmt
    ensures { st_of result ≡ range_stmt (range_view header) (sts_of body.items) }
{
    match header {
        Range::Count(e, key) => typed::Stmt::Count(e, key, body),
        Range::Indices(length, key) => typed::Stmt::Indices(length, key, body),
        Range::Elements(site, e, length, key, value) => {
            typed::Stmt::Elements(site, e, length, key, value, body)
        }
    }
}

/// A loop of its header and its body.
#[tactic(auto, using(typed::proofs::Rows::stmt_rows))]
fn for_of(alloc: Global, head: Head, body: Vec<typed::Stmt>) -> Result<typed::Stmt, NoMemory>
    ensures { IfOk result (λ s. st_of s ≡ for_of (head_view head) (sts_of body.items)) }
{
    match head {
        Head::ForClause(init, test, post) => {
            let Ok(sites) = declared_in(alloc, &init) else {
                drop(init);
                drop(test);
                return Err(NoMemory);
            };
            headed(alloc, init, typed::Stmt::For(sites, test, post, body))
        }
        Head::RangeClause(range) => Ok(range_stmt(range, body)),
    }
}

fn choice_of(
    alloc: Global,
    choice: Option<Choice>,
    body: Option<Vec<typed::Stmt>>,
    rest: Option<Vec<typed::Stmt>>,
) -> Result<Option<typed::Stmt>, NoMemory>
    ensures { IfOk result (λ r. option_map st_of r
        ≡ choice_of (option_map choice_view choice) (option_map (λ v. sts_of v.items) body)
        (option_map (λ v. sts_of v.items) rest)) }
{
    match (choice, body, rest) {
        (Some(choice), Some(body), Some(rest)) => Ok(Some(chosen(alloc, choice, body, rest)?)),
        (choice, body, rest) => {
            drop(choice);
            drop(body);
            drop(rest);
            Ok(None)
        }
    }
}

fn loop_of(
    alloc: Global,
    head: Option<Head>,
    body: Option<Vec<typed::Stmt>>,
) -> Result<Option<typed::Stmt>, NoMemory>
    ensures { IfOk result (λ r. option_map st_of r
        ≡ loop_of (option_map head_view head) (option_map (λ v. sts_of v.items) body)) }
{
    match (head, body) {
        (Some(head), Some(body)) => Ok(Some(for_of(alloc, head, body)?)),
        (head, body) => {
            drop(head);
            drop(body);
            Ok(None)
        }
    }
}

/// An `if` of what its parts are.
fn choice(alloc: Global, head: Guarded, body: Lines, rest: Lines) -> Result<Lines, NoMemory>
    ensures statements { IfOk result (λ c. option_map (λ v. sts_of v.items) c.statements
        ≡ option_map alone (choice_of (option_map choice_view head.choice) (option_map (λ v. sts_of v.items) body.statements)
        (option_map (λ v. sts_of v.items) rest.statements))) }
    ensures fault { IfOk result (λ c. c.fault ≡ lesser (lesser head.fault body.fault) rest.fault) }
{
    let fault = lesser(lesser(head.fault, body.fault), rest.fault);
    let statement = choice_of(alloc, head.choice, body.statements, rest.statements)?;
    let statements = alone(alloc, statement)?;
    Ok(Lines { statements, fault })
}

/// A loop of what its parts are.
fn for_clause(alloc: Global, head: Headed, body: Lines) -> Result<Lines, NoMemory>
    ensures statements { IfOk result (λ c. option_map (λ v. sts_of v.items) c.statements
        ≡ option_map alone (loop_of (option_map head_view head.head) (option_map (λ v. sts_of v.items) body.statements))) }
    ensures fault { IfOk result (λ c. c.fault ≡ lesser head.fault body.fault) }
{
    let fault = lesser(head.fault, body.fault);
    let statement = loop_of(alloc, head.head, body.statements)?;
    let statements = alone(alloc, statement)?;
    Ok(Lines { statements, fault })
}

#[tactic(auto, using(typed::proofs::Rows::stmt_rows))]
fn block_of(statements: Option<Vec<typed::Stmt>>) -> Option<typed::Stmt>
    ensures { option_map st_of result ≡ option_map block (option_map (λ v. sts_of v.items) statements) }
{
    match statements {
        Some(statements) => Some(typed::Stmt::Block(statements)),
        None => None,
    }
}

/// A block as a statement.
fn as_block(alloc: Global, body: Lines) -> Result<Lines, NoMemory>
    ensures statements { IfOk result (λ c. option_map (λ v. sts_of v.items) c.statements
        ≡ option_map (λ b. alone (block b)) (option_map (λ v. sts_of v.items) body.statements)) }
    ensures fault { IfOk result (λ c. c.fault ≡ body.fault) }
{
    let Lines { statements, fault } = body;
    let statements = alone(alloc, block_of(statements))?;
    Ok(Lines { statements, fault })
}

/// A statement by itself.
fn line(alloc: Global, line: Line) -> Result<Lines, NoMemory>
    ensures statements { IfOk result (λ c. option_map (λ v. sts_of v.items) c.statements
        ≡ option_map alone (option_map st_of line.statement)) }
    ensures fault { IfOk result (λ c. c.fault ≡ line.fault) }
{
    let Line { statement, fault } = line;
    let statements = alone(alloc, statement)?;
    Ok(Lines { statements, fault })
}

/// A statement that stands in a loop alone.
fn check_jump(
    alloc: Global,
    looped: bool,
    pos: Pos,
    statement: typed::Stmt,
) -> Result<Lines, NoMemory>
    ensures statements { IfOk result (λ c. option_map (λ v. sts_of v.items) c.statements
        ≡ allowed looped (Some (alone (st_of statement)))) }
    ensures fault { IfOk result (λ c. c.fault ≡ fault_where (not looped) (fault_at Outside pos)) }
{
    let own = Fault {
        kind: FaultKind::BreakOutside,
        pos,
    };
    let statement = if looped {
        Some(statement)
    } else {
        drop(statement);
        None
    };
    let statements = alone(alloc, statement)?;
    Ok(Lines {
        statements,
        fault: fault_where(!looped, own),
    })
}

/// A statement; `looped` where a loop is around it. The scope becomes the one after it.
#[cycle(statements)]
#[tactic(auto, using(syntax::proofs::Views::stmt_rows))]
fn check_stmt(
    alloc: Global,
    text: &[u8],
    returns: &Returns,
    looped: bool,
    scope: &mut Scope,
    s: &Stmt,
) -> Result<Lines, NoMemory>
    requires { 0 < length scope.old.names }
    ensures statements { IfOk result (λ c. option_map (λ v. sts_of v.items) c.statements
        ≡ statement text.now (returns_view returns.now) looped (scope_of scope.old) (stm_of s.now)) }
    ensures fault { IfOk result (λ c. IsLeast
        (FailsInStatement text.now (returns_view returns.now) looped (scope_of scope.old) (stm_of s.now)) c.fault) }
    ensures scope { OnOk result (scope_of scope.new ≡ behind text.now (scope_of scope.old) (stm_of s.now)) }
{
    match s {
        Stmt::Simple(simple) => {
            let simple = check_simple(alloc, text, scope, simple)?;
            line(alloc, simple)
        }
        Stmt::Block(body) => {
            let body = check_inner(alloc, text, returns, looped, scope, body)?;
            as_block(alloc, body)
        }
        Stmt::If(pos, guard, body, rest) => {
            let head = check_guard(alloc, text, scope, *pos, guard)?;
            let body = check_inner(alloc, text, returns, looped, scope, body)?;
            let rest = check_else(alloc, text, returns, looped, scope, rest)?;
            scope.close();
            choice(alloc, head, body, rest)
        }
        Stmt::For(pos, clause, body) => {
            let around = scope.setting;
            let in_header = around.in_header(carries(clause))?;
            scope.setting = in_header;
            let head = check_clause(alloc, text, scope, *pos, clause)?;
            let in_body = scope.setting.in_body();
            scope.setting = in_body;
            let Ok(body) = check_inner(alloc, text, returns, true, scope, body) else {
                drop(head);
                return Err(NoMemory);
            };
            scope.close();
            scope.setting = around;
            for_clause(alloc, head, body)
        }
        Stmt::Return(pos, es) => {
            let given = check_return(alloc, text, returns, scope, *pos, es)?;
            line(alloc, given)
        }
        Stmt::Var(pos, specs) => check_var(alloc, text, scope, *pos, specs),
        Stmt::Break(pos) => check_jump(alloc, looped, *pos, typed::Stmt::Break),
        Stmt::Continue(pos) => check_jump(alloc, looped, *pos, typed::Stmt::Continue),
    }
}

/// What stands after the body of an `if`.
#[cycle(statements)]
#[tactic(auto, using(syntax::proofs::Views::stmt_rows))]
fn check_else(
    alloc: Global,
    text: &[u8],
    returns: &Returns,
    looped: bool,
    scope: &mut Scope,
    e: &Else,
) -> Result<Lines, NoMemory>
    requires { 0 < length scope.old.names }
    ensures statements { IfOk result (λ c. option_map (λ v. sts_of v.items) c.statements
        ≡ alternative text.now (returns_view returns.now) looped (scope_of scope.old) (els_of e.now)) }
    ensures fault { IfOk result (λ c. IsLeast
        (FailsInElse text.now (returns_view returns.now) looped (scope_of scope.old) (els_of e.now)) c.fault) }
    ensures scope { OnOk result (scope_of scope.new ≡ behind_else text.now (scope_of scope.old) (els_of e.now)) }
{
    match e {
        Else::Absent => Ok(Lines {
            statements: Some(Vec::new(alloc)),
            fault: None,
        }),
        Else::Block(body) => check_inner(alloc, text, returns, looped, scope, body),
        Else::If(pos, guard, body, rest) => {
            let rest: &Else = rest;
            let head = check_guard(alloc, text, scope, *pos, guard)?;
            let body = check_inner(alloc, text, returns, looped, scope, body)?;
            let rest = check_else(alloc, text, returns, looped, scope, rest)?;
            scope.close();
            choice(alloc, head, body, rest)
        }
    }
}

/// The statements of a block, whose names end with it.
#[cycle(statements)]
fn check_inner(
    alloc: Global,
    text: &[u8],
    returns: &Returns,
    looped: bool,
    scope: &mut Scope,
    ms: &[Stmt],
) -> Result<Lines, NoMemory>
    requires { 0 < length scope.old.names }
    ensures statements { IfOk result (λ c. option_map (λ v. sts_of v.items) c.statements
        ≡ statements text.now (returns_view returns.now) looped (opened (scope_of scope.old)) (stms_of ms.now)) }
    ensures fault { IfOk result (λ c. IsLeast
        (FailsInStatements text.now (returns_view returns.now) looped (opened (scope_of scope.old)) (stms_of ms.now)) c.fault) }
    ensures scope { OnOk result (scope_of scope.new
        ≡ closed (behind_all text.now (opened (scope_of scope.old)) (stms_of ms.now))) }
{
    scope.open()?;
    let lines = check_stmts(alloc, text, returns, looped, scope, ms)?;
    scope.close();
    Ok(lines)
}

/// The statements of a block that is open, one after the other.
#[cycle(statements)]
pub fn check_stmts(
    alloc: Global,
    text: &[u8],
    returns: &Returns,
    looped: bool,
    scope: &mut Scope,
    ms: &[Stmt],
) -> Result<Lines, NoMemory>
    requires { 0 < length scope.old.names }
    ensures statements { IfOk result (λ c. option_map (λ v. sts_of v.items) c.statements
        ≡ statements text.now (returns_view returns.now) looped (scope_of scope.old) (stms_of ms.now)) }
    ensures fault { IfOk result (λ c. IsLeast
        (FailsInStatements text.now (returns_view returns.now) looped (scope_of scope.old) (stms_of ms.now)) c.fault) }
    ensures scope { OnOk result (scope_of scope.new ≡ behind_all text.now (scope_of scope.old) (stms_of ms.now)) }
{
    let mut statements = Some(Vec::new(alloc));
    let mut fault = None;
    for s in ms {
        let lines = check_stmt(alloc, text, returns, looped, scope, s)?;
        statements = with_statements(statements, lines.statements)?;
        fault = lesser(fault, lines.fault);
    }
    Ok(Lines { statements, fault })
}
