//! Places in the code, and jumps to them.
ghost use Rattle.std.specs.Prelude.{◌≡◌, ◌+◌, ◌≤◌, ◌++◌, ◌∷◌, [], length, IfOk, OnOk};
ghost use Rattle.isa.specs.declared.instr.Instr.{Instr};
ghost use Rattle.program_code.specs.Code.{temp};
ghost use Rattle.expression_code.specs.Frame.{slots_in, IsLaid};

use crate::lengths::{number, plus};
use crate::slots::Frame;
use base::NoMemory;
use isa::Instr;
use typed::Program;

/// The places where `break` and `continue` go on.
#[derive(Clone, Copy, Debug, PartialEq, Eq)]
pub struct Goals {
    pub out: u32,
    pub again: u32,
}

/// Puts an instruction after the code.
pub fn put(code: &mut Vec<Instr>, instr: Instr) -> Result<(), NoMemory>
    ensures { OnOk result (code.new.items ≡ code.old.items ++ instr ∷ []) }
{
    code.push(instr)?;
    Ok(())
}

/// The place after the code.
pub fn here(code: &Vec<Instr>) -> Result<u32, NoMemory>
    ensures { IfOk result (λ n. n ≡ length code.now.items) }
{
    number(code.len())
}

/// The place that stands `some + more` instructions after the code.
pub fn ahead(code: &Vec<Instr>, some: u32, more: u32) -> Result<u32, NoMemory>
    ensures { IfOk result (λ n. n ≡ length code.now.items + some + more) }
{
    let behind = plus(here(code)?, some)?;
    plus(behind, more)
}

/// Where the slot's word is 0, goes on `some + more` instructions from the jump on.
pub fn jump_if_zero(code: &mut Vec<Instr>, a: u16, some: u32, more: u32) -> Result<(), NoMemory>
    ensures { OnOk result (code.new.items ≡ code.old.items ++ Instr.JumpZero a (length code.old.items + some + more) ∷ []) }
{
    let to = ahead(code, some, more)?;
    put(code, Instr::JumpZero { a, to })?;
    Ok(())
}

/// Goes on `some + more` instructions from the jump on.
pub fn jump(code: &mut Vec<Instr>, some: u32, more: u32) -> Result<(), NoMemory>
    ensures { OnOk result (code.new.items ≡ code.old.items ++ Instr.Jump (length code.old.items + some + more) ∷ []) }
{
    let to = ahead(code, some, more)?;
    put(code, Instr::Jump { to })?;
    Ok(())
}

/// Where the condition in temp h is false, `more` instructions and the jump after them are passed over.
pub fn pass_unless(
    code: &mut Vec<Instr>,
    program: &Program,
    frame: &Frame,
    h: u16,
    len: u32,
) -> Result<(), NoMemory>
    requires temp { h ≤ frame.now.temps }
    requires frame { IsLaid program.now frame.now }
    ensures { OnOk result (code.new.items ≡ code.old.items
        ++ Instr.JumpZero (temp (slots_in program.now frame.now) h) (length code.old.items + len + 2) ∷ []) }
{
    jump_if_zero(code, frame.temp(h), len, 2)?;
    Ok(())
}
