//! The stages of the compiler.

ghost use Rattle.std.specs.Prelude.{◌≡◌, IfOk, IfErr};
ghost use Rattle.typed_syntax.specs.Syntax.{Program as ProgramOf};
ghost use Rattle.compile.specs.Accepted.{Accepted, Refuses};
ghost use Rattle.compile.specs.Compiled.{Does, OnlyCompiled, compiled_program};

use crate::fault::CompileFault;
use codegen::emit;
use frame_layout::{Layouts, layout_of};
use isa::Code;
use parse_go::parse;
use placement::coarse;
use scan_go::scan;
use std::alloc::Global;
use typed::Program;
use types_go::check;

/// A compiled text: its typed program, the words of its frames, and its code.
#[derive(Drop)]
pub struct Compiled {
    pub program: Program,
    pub layouts: Layouts,
    pub code: Code,
}

/// Compiles a source text.
pub fn compile(alloc: Global, text: &[u8]) -> Result<Compiled, CompileFault>
    // What is answered is the program with which the text is accepted, and its code, which does what the program means.
    ensures accepted { IfOk result (λ c. Accepted text.now (compiled_program c)) }
    ensures does { IfOk result Does }

    // A text is refused for the fault of the first stage that has one.
    ensures refused { IfErr result (Refuses text.now) }

    // An accepted text is refused for want of memory alone, and has one program.
    ensures only { (p : ProgramOf) → Accepted text.now p → OnlyCompiled result p }
{
    let tokens = scan(alloc, text)?;
    let tree = parse(alloc, tokens)?;
    let program = check(alloc, &tree)?;
    let placement = coarse(alloc, &program)?;
    let layouts = layout_of(alloc, &program, &placement)?;
    let code = emit(alloc, &program, placement, &layouts)?;
    Ok(Compiled {
        program,
        layouts,
        code,
    })
}
