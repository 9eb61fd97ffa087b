//! The declarations of structs, one by one.

ghost use Rattle.std.specs.Prelude.{◌≡◌, ◌++◌, IfOk, OnOk};
ghost use Rattle.syntax.specs.Declarations.{type_specs_of, declarations_of};
ghost use Rattle.declared_structs.specs.Faults.{type_specs_in};
ghost use Rattle.declared_structs.specs.Passing.{spec_views};

use base::NoMemory;
use std::alloc::Global;
use syntax::{Decl, TypeSpec};

/// Adds the structs of a declaration.
fn add_specs<'a>(specs: &mut Vec<&'a TypeSpec>, declared: &'a [TypeSpec]) -> Result<(), NoMemory>
    ensures { OnOk result (spec_views specs.new.items ≡ spec_views specs.old.items ++ type_specs_of declared.now) }
{
    for spec in declared {
        specs.push(spec)?;
    }
    Ok(())
}

/// The declarations of structs, in the order of the text.
pub fn type_specs<'a>(alloc: Global, decls: &'a [Decl]) -> Result<Vec<&'a TypeSpec>, NoMemory>
    ensures { IfOk result (λ v. spec_views v.items ≡ type_specs_in (declarations_of decls.now)) }
{
    let mut specs = Vec::new(alloc);
    for decl in decls {
        if let Decl::Type(_, declared) = decl {
            add_specs(&mut specs, declared)?;
        }
    }
    Ok(specs)
}
