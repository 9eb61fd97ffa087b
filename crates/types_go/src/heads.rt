//! The headers of `if` and `for`: what stands between the word and the body.

ghost use Rattle.std.specs.Prelude.{◌≡◌, ◌⊎◌, Option, Some, None, IfOk, OnOk};
ghost use Rattle.std.specs.Option.{option_map};
ghost use Rattle.syntax.specs.Expressions.{ex_of as tree_of};
ghost use Rattle.syntax.specs.Statements.{simple_of, simple_in, guard_of, targets_of, while_true, clause_of};
ghost use Rattle.typed.specs.View.{ex_of, test_of, st_of, sts_of};
ghost use Rattle.type_faults.specs.Least.{IsLeast};
ghost use Rattle.names.specs.Scope.{scope_of, opened};
ghost use Rattle.expression_types.specs.Typing.{test, condition_in};
ghost use Rattle.expression_types.specs.Faults.{FailsInTest};
ghost use Rattle.types_go.specs.Ranges.{behind_range, range_in};
ghost use Rattle.types_go.specs.RangeFaults.{FailsInRange};
ghost use Rattle.types_go.specs.Statements.{carries, range_clause, alone, header, init_statement, post_simple, post_statement, behind_post_simple, behind_post, guard_head, choice_head, loop_head, clause_scope, clause_head};
ghost use Rattle.types_go.specs.StatementFaults.{FailsInInit, PostFails, FailsInPost, FailsInClause, FailsInGuard};
ghost use Rattle.types_go.specs.StatementPassing.{choice_view, head_view};

use crate::ranges::{Range, check_range};
use base::{NoMemory, Pos};
use expression_types::{Condition, Test, check_condition, check_test};
use names::Scope;
use simple_statements::{Line, check_simple, left_out, names_pos};
use std::alloc::Global;
use syntax::{Clause, Expr, Guard, Simple, Targets};
use type_faults::{Fault, lesser};

/// The header of an `if`: its init statement, where it has one, and its condition.
#[derive(Drop)]
pub struct Choice {
    pub init: Option<typed::Stmt>,
    pub condition: typed::Expr,
}

/// The header of a loop.
#[derive(Drop)]
pub enum Head {
    /// The init statement, where there is one, the condition, where there is one, and the post statement.
    ForClause(Option<typed::Stmt>, Option<typed::Expr>, Vec<typed::Stmt>),
    /// What a `range` goes over, and what gets its values.
    RangeClause(Range),
}

/// What is known of the header of an `if`.
#[derive(Drop)]
pub struct Guarded {
    pub choice: Option<Choice>,
    pub fault: Option<Fault>,
}

/// What is known of the header of a loop.
#[derive(Drop)]
pub struct Headed {
    pub head: Option<Head>,
    pub fault: Option<Fault>,
}

/// What is known of an init statement that may be absent.
#[derive(Drop)]
struct Init {
    statement: Option<Option<typed::Stmt>>,
    fault: Option<Fault>,
}

/// What is known of a post statement that may be absent.
#[derive(Drop)]
struct Post {
    statements: Option<Vec<typed::Stmt>>,
    fault: Option<Fault>,
}

/// Opens the block of a header, and checks its init statement.
fn check_init(
    alloc: Global,
    text: &[u8],
    scope: &mut Scope,
    init: &Option<Simple>,
) -> Result<Init, NoMemory>
    ensures statement { IfOk result (λ i. option_map (option_map st_of) i.statement
        ≡ init_statement text.now (scope_of scope.old) (simple_in init.now)) }
    ensures fault { IfOk result (λ i. IsLeast (FailsInInit text.now (scope_of scope.old) (simple_in init.now)) i.fault) }
    ensures scope { OnOk result (scope_of scope.new ≡ header text.now (scope_of scope.old) (simple_in init.now)) }
{
    scope.open()?;
    match init {
        Some(simple) => {
            let line = check_simple(alloc, text, scope, simple)?;
            Ok(Init {
                statement: line.statement.map(Some),
                fault: line.fault,
            })
        }
        None => Ok(Init {
            statement: Some(None),
            fault: None,
        }),
    }
}

fn choice_head(init: Option<Option<typed::Stmt>>, condition: Option<typed::Expr>) -> Option<Choice>
    ensures { option_map choice_view result ≡ choice_head (option_map (option_map st_of) init) (option_map ex_of condition) }
{
    match (init, condition) {
        (Some(init), Some(condition)) => Some(Choice { init, condition }),
        (init, condition) => {
            drop(init);
            drop(condition);
            None
        }
    }
}

/// The header of an `if` whose word stands at a place. Its block is open after it.
pub fn check_guard(
    alloc: Global,
    text: &[u8],
    scope: &mut Scope,
    pos: Pos,
    guard: &Guard,
) -> Result<Guarded, NoMemory>
    ensures choice { IfOk result (λ g. option_map choice_view g.choice
        ≡ guard_head text.now (scope_of scope.old) (guard_of guard.now)) }
    ensures fault { IfOk result (λ g. IsLeast (FailsInGuard text.now (scope_of scope.old) pos (guard_of guard.now)) g.fault) }
    ensures scope { OnOk result (scope_of scope.new ≡ header text.now (scope_of scope.old) (simple_in guard.now.init)) }
{
    let init = check_init(alloc, text, scope, &guard.init)?;
    let Ok(test) = check_condition(alloc, text, scope, pos, &guard.condition) else {
        drop(init);
        return Err(NoMemory);
    };
    Ok(Guarded {
        choice: choice_head(init.statement, test.value),
        fault: lesser(init.fault, test.fault),
    })
}

/// A post statement, which declares nothing.
fn check_post_simple(
    alloc: Global,
    text: &[u8],
    scope: &mut Scope,
    simple: &Simple,
) -> Result<Line, NoMemory>
    ensures statement { IfOk result (λ c. option_map st_of c.statement
        ≡ post_simple text.now (scope_of scope.old) (simple_of simple.now)) }
    ensures fault { IfOk result (λ c. IsLeast (PostFails text.now (scope_of scope.old) (simple_of simple.now)) c.fault) }
    ensures scope { OnOk result (scope_of scope.new ≡ behind_post_simple text.now (scope_of scope.old) (simple_of simple.now)) }
{
    match simple {
        Simple::Define(names, pos, _) => Ok(left_out(names_pos(names, *pos))),
        Simple::Express(_) => check_simple(alloc, text, scope, simple),
        Simple::Assign(_, _, _) => check_simple(alloc, text, scope, simple),
        Simple::Update(_, _, _, _) => check_simple(alloc, text, scope, simple),
        Simple::Increment(_, _) => check_simple(alloc, text, scope, simple),
        Simple::Decrement(_, _) => check_simple(alloc, text, scope, simple),
    }
}

/// A statement by itself.
pub fn alone(
    alloc: Global,
    statement: Option<typed::Stmt>,
) -> Result<Option<Vec<typed::Stmt>>, NoMemory>
    ensures { IfOk result (λ r. option_map (λ v. sts_of v.items) r ≡ option_map alone (option_map st_of statement)) }
{
    match statement {
        Some(statement) => Ok(Some(Vec::from_array(alloc, [statement])?)),
        None => Ok(None),
    }
}

fn check_post(
    alloc: Global,
    text: &[u8],
    scope: &mut Scope,
    post: &Option<Simple>,
) -> Result<Post, NoMemory>
    ensures statements { IfOk result (λ p. option_map (λ v. sts_of v.items) p.statements
        ≡ post_statement text.now (scope_of scope.old) (simple_in post.now)) }
    ensures fault { IfOk result (λ p. IsLeast (FailsInPost text.now (scope_of scope.old) (simple_in post.now)) p.fault) }
    ensures scope { OnOk result (scope_of scope.new ≡ behind_post text.now (scope_of scope.old) (simple_in post.now)) }
{
    match post {
        Some(simple) => {
            let line = check_post_simple(alloc, text, scope, simple)?;
            let statements = alone(alloc, line.statement)?;
            Ok(Post {
                statements,
                fault: line.fault,
            })
        }
        None => Ok(Post {
            statements: Some(Vec::new(alloc)),
            fault: None,
        }),
    }
}

fn loop_head(
    init: Option<Option<typed::Stmt>>,
    test: Option<Option<typed::Expr>>,
    post: Option<Vec<typed::Stmt>>,
) -> Option<Head>
    ensures { option_map head_view result ≡ loop_head (option_map (option_map st_of) init) (option_map test_of test)
        (option_map (λ v. sts_of v.items) post) }
{
    match (init, test, post) {
        (Some(init), Some(test), Some(post)) => Some(Head::ForClause(init, test, post)),
        (init, test, post) => {
            drop(init);
            drop(test);
            drop(post);
            None
        }
    }
}

/// The header of a `for` with three parts.
fn check_counting(
    alloc: Global,
    text: &[u8],
    scope: &mut Scope,
    pos: Pos,
    clause: &Clause,
    init: &Option<Simple>,
    post: &Option<Simple>,
) -> Result<Headed, NoMemory>
    ensures head { IfOk result (λ h. option_map head_view h.head
        ≡ loop_head (init_statement text.now (scope_of scope.old) (simple_in init.now))
        (test text.now (header text.now (scope_of scope.old) (simple_in init.now)) (condition_in (clause_of clause.now)))
        (post_statement text.now (header text.now (scope_of scope.old) (simple_in init.now)) (simple_in post.now))) }
    ensures fault { IfOk result (λ h. IsLeast
        (λ f. (FailsInInit text.now (scope_of scope.old) (simple_in init.now) f
        ⊎ FailsInTest text.now (header text.now (scope_of scope.old) (simple_in init.now)) pos
        (condition_in (clause_of clause.now)) f)
        ⊎ FailsInPost text.now (header text.now (scope_of scope.old) (simple_in init.now)) (simple_in post.now) f) h.fault) }
    ensures scope { OnOk result (scope_of scope.new
        ≡ behind_post text.now (header text.now (scope_of scope.old) (simple_in init.now)) (simple_in post.now)) }
{
    let init = check_init(alloc, text, scope, init)?;
    let Ok(test) = check_test(alloc, text, scope, pos, clause) else {
        drop(init);
        return Err(NoMemory);
    };
    let Ok(post) = check_post(alloc, text, scope, post) else {
        drop(init);
        drop(test);
        return Err(NoMemory);
    };
    Ok(Headed {
        head: loop_head(init.statement, test.value, post.statements),
        fault: lesser(lesser(init.fault, test.fault), post.fault),
    })
}

/// The header of a `for` with a condition alone.
fn check_while(
    alloc: Global,
    text: &[u8],
    scope: &mut Scope,
    pos: Pos,
    e: &Expr,
) -> Result<Headed, NoMemory>
    ensures head { IfOk result (λ h. option_map head_view h.head
        ≡ clause_head text.now (scope_of scope.old) (while_true (tree_of e.now))) }
    ensures fault { IfOk result (λ h. IsLeast
        (FailsInClause text.now (scope_of scope.old) pos (while_true (tree_of e.now))) h.fault) }
    ensures scope { OnOk result (scope_of scope.new ≡ opened (scope_of scope.old)) }
{
    scope.open()?;
    let test = check_condition(alloc, text, scope, pos, e)?;
    Ok(Headed {
        head: loop_head(Some(None), test.value.map(Some), Some(Vec::new(alloc))),
        fault: test.fault,
    })
}

/// The header of a `for` with a `range`.
fn check_ranging(
    alloc: Global,
    text: &[u8],
    scope: &mut Scope,
    pos: Pos,
    targets: &Targets,
    range_pos: Pos,
    e: &Expr,
) -> Result<Headed, NoMemory>
    ensures head { IfOk result (λ h. option_map head_view h.head
        ≡ option_map range_clause (range_in text.now (scope_of scope.old) (targets_of targets.now) (tree_of e.now))) }
    ensures fault { IfOk result (λ h. IsLeast
        (FailsInRange text.now (scope_of scope.old) pos (targets_of targets.now) (tree_of e.now)) h.fault) }
    ensures scope { OnOk result (scope_of scope.new
        ≡ behind_range text.now (scope_of scope.old) (targets_of targets.now) range_pos (tree_of e.now)) }
{
    let found = check_range(alloc, text, scope, pos, targets, range_pos, e)?;
    Ok(Headed {
        head: found.range.map(Head::RangeClause),
        fault: found.fault,
    })
}

/// Whether the variables of a header are carried on to the next iteration.
pub fn carries(clause: &Clause) -> bool
    ensures { result ≡ carries (clause_of clause.now) }
{
    match clause {
        Clause::Counting(_, _, _) => true,
        Clause::Forever => false,
        Clause::While(_) => false,
        Clause::Range(_, _, _) => false,
    }
}

/// The header of a `for` whose word stands at a place. Its block is open after it.
pub fn check_clause(
    alloc: Global,
    text: &[u8],
    scope: &mut Scope,
    pos: Pos,
    clause: &Clause,
) -> Result<Headed, NoMemory>
    ensures head { IfOk result (λ h. option_map head_view h.head
        ≡ clause_head text.now (scope_of scope.old) (clause_of clause.now)) }
    ensures fault { IfOk result (λ h. IsLeast (FailsInClause text.now (scope_of scope.old) pos (clause_of clause.now)) h.fault) }
    ensures scope { OnOk result (scope_of scope.new ≡ clause_scope text.now (scope_of scope.old) (clause_of clause.now)) }
{
    match clause {
        Clause::Forever => {
            scope.open()?;
            Ok(Headed {
                head: Some(Head::ForClause(None, None, Vec::new(alloc))),
                fault: None,
            })
        }
        Clause::While(e) => check_while(alloc, text, scope, pos, e),
        Clause::Counting(init, _, post) => {
            check_counting(alloc, text, scope, pos, clause, init, post)
        }
        Clause::Range(targets, range_pos, e) => {
            check_ranging(alloc, text, scope, pos, targets, *range_pos, e)
        }
    }
}
