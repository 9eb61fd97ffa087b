//! Statements from their parts.

ghost use Rattle.std.specs.Prelude.{◌≡◌, IfOk};
ghost use Rattle.syntax.specs.Statements.{stm_of, els_of, stms_of};
ghost use Rattle.syntax.specs.Lists.{joined, one};
ghost use Rattle.parse_statements.specs.Outer.{whole_if};
ghost use Rattle.parse_statements.specs.Outers.{branch_of, branches_of};

use crate::outer::Branch;
use std::alloc::{AllocError, Global};
use syntax::{Else, Stmt, else_if, if_stmt};

/// The statements of a block, and one more.
#[tactic(auto, using(syntax::proofs::Rows::stms_push))]
pub fn append(mut done: Vec<Stmt>, stmt: Stmt) -> Result<Vec<Stmt>, AllocError>
    ensures { IfOk result (λ v. stms_of v.items ≡ joined (stms_of done.items) (one (stm_of stmt))) }
{
    done.push(stmt)?;
    Ok(done)
}

/// The whole `if` of which a branch is the last.
pub fn whole_if(
    alloc: Global,
    mut branches: Vec<Branch>,
    mut last: Branch,
    mut otherwise: Else,
) -> Result<Stmt, AllocError>
    ensures { let bs = branches_of branches.items in
        IfOk result (λ s. stm_of s ≡ whole_if bs (branch_of last) (els_of otherwise)) }
{
    while let Some(before) = branches.pop() {
        otherwise = else_if(alloc, last.pos, last.guard, last.body, otherwise)?;
        last = before;
    }
    Ok(if_stmt(last.pos, last.guard, last.body, otherwise))
}
