//! A tree's typed program.

ghost use Rattle.std.specs.Prelude.{◌≡◌, IfOk, IfErr, map};
ghost use Rattle.syntax.specs.Declarations.{syntax_of};
ghost use Rattle.typed.specs.View.{program_of};
ghost use Rattle.typed_syntax.specs.Form.{IsInForm};
ghost use Rattle.typed_syntax.specs.Syntax.{Program as ProgramOf};
ghost use Rattle.types_go.specs.Checked.{Types, Reports, NoneFails, OnlyProgram, AreSites, AreAtNames};

use crate::pass::{Passed, pass};
use std::alloc::Global;
use syntax::Tree;
use type_faults::TypeFault;
use typed::Program;

/// The typed program of a tree (Go specification, "Declarations and scope", "Types", "Constants", "Assignability", "Calls", "Statements"). A
/// program of this part is one package of functions, structs, constants and variables, of ints, truth values, structs and arrays.
pub fn check(alloc: Global, tree: &Tree) -> Result<Program, TypeFault>
    // What is answered is the program that the rules give the tree.
    ensures typed { IfOk result (λ p. Types (syntax_of tree.now) (program_of p)) }
    ensures in_form { IfOk result (λ p. IsInForm (program_of p)) }

    // Each variable has a site at its name, and each function stands at its own.
    ensures sites { IfOk result (λ p. AreSites (syntax_of tree.now) p.sites.items p.names.items) }
    ensures places { IfOk result (λ p. AreAtNames (syntax_of tree.now) (map (λ f. f.pos) p.funcs.items)) }

    // Where a program is answered no rule fails.
    ensures none_fails { IfOk result (λ p. NoneFails (syntax_of tree.now)) }

    // Of the rules that fail, the one with the least offset, then with the least number.
    ensures fault { IfErr result (Reports (syntax_of tree.now)) }

    // Where the rules give the tree a program it is answered, unless memory runs out.
    ensures only { (p : ProgramOf) → Types (syntax_of tree.now) p → OnlyProgram result p }
{
    let Passed {
        main,
        funcs,
        sites,
        names,
        types,
        strings,
        globals,
        fault,
    } = pass(alloc, &tree.text, tree.package, &tree.decls)?;
    match fault {
        Some(fault) => Err(TypeFault::Fault(fault)),
        None => {
            let Some(main) = main else { unreachable!() };
            let Some(funcs) = funcs else { unreachable!() };
            Ok(Program {
                funcs,
                main,
                sites,
                types,
                strings,
                globals,
                names,
            })
        }
    }
}
