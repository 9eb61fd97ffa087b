//! Words that go from slots to slots and tell nothing, and slots that get zeros.
ghost use Rattle.std.specs.Prelude.{◌≡◌, ◌++◌, OnOk};
ghost use Rattle.isa.specs.declared.instr.Instr.{Instr};
ghost use Rattle.isa.specs.declared.instr.MoveEvent.{MoveEvent};
ghost use Rattle.program_code.specs.Code.{move_code, zeros as zeros_of};

use crate::jumps::put;
use base::NoMemory;
use isa::{Instr, MoveEvent};

/// The n slots from a on get the words of those from b on.
pub fn silent(n: u16, a: u16, b: u16) -> Instr
    ensures { result ≡ Instr.Move MoveEvent.Silent a b n }
{
    let event = MoveEvent::Silent;
    Instr::Move { event, a, b, n }
}

/// Slots from a on get zeros.
#[tactic(auto, using(crate::proofs::InSlots::zeros_many))]
pub fn zeros(n: u16, a: u16) -> Instr
    ensures { result ≡ zeros_of n a }
{
    if n == 1 {
        Instr::Const { a, word: 0 }
    } else {
        Instr::Zero { a, n }
    }
}

/// Any number of words goes from slots from b on to slots from a on.
pub fn emit_move(code: &mut Vec<Instr>, n: u16, a: u16, b: u16) -> Result<(), NoMemory>
    ensures { OnOk result (code.new.items ≡ code.old.items ++ move_code n a b) }
{
    if n > 0 {
        put(code, silent(n, a, b))?;
    }
    Ok(())
}
