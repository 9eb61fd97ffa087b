//! The places of a literal's elements. Where their numbers ascend, each is worked out in its place, and what lies between it and the next
//! one is zeroed again; else each is worked out after the literal and moved.
ghost use Rattle.std.specs.Prelude.{◌≡◌, ◌+◌, ◌≤◌, ◌<◌, ◌++◌, ◌∷◌, [], OnOk, if◌then◌else◌};
ghost use Rattle.typed_syntax.specs.Types.{width, part_offset, part_type};
ghost use Rattle.typed_syntax.specs.Syntax.{ascend, gap_behind as gap_in, type_named, words_through as through_part};
ghost use Rattle.typed.specs.View.{elements_of, program_of};
ghost use Rattle.expression_code.specs.Frame.{slots_in, IsLaid};
ghost use Rattle.isa.specs.declared.instr.Instr.{Instr};
ghost use Rattle.isa.specs.declared.instr.MoveEvent.{MoveEvent};
ghost use Rattle.program_code.specs.Code.{gap_code, gap_size, temp};

use crate::jumps::put;
use crate::moving::{silent, zeros};
use crate::slots::Frame;
use base::{NoMemory, TypeId};
use isa::Instr;
use typed::{Element, Program};

/// Whether the numbers of elements ascend.
pub fn ascends(es: &[Element]) -> bool
    ensures { result ≡ ascend (elements_of es.now) }
{
    let mut least: u64 = 0;
    for element in es {
        let Element::For(number, _) = element;
        if u64::from(*number) < least {
            return false;
        }
        least = u64::from(*number) + 1;
    }
    true
}

/// The words between a part of a literal and the first of the elements after it.
pub fn gap_behind(program: &Program, id: TypeId, number: u32, behind: &[Element]) -> u64
    ensures { result ≡ gap_in (type_named (program_of program.now) id.0) number (elements_of behind.now) }
{
    let before = match behind.first() {
        Some(Element::For(next, _)) => program.types.part_offset(id, *next),
        None => u64::from(program.types.width(id)),
    };
    let part = program.types.part(id, number);
    before
        .saturating_sub(program.types.part_offset(id, number))
        .saturating_sub(u64::from(program.types.width(part)))
}

/// The number of instructions after an element: what zeroes the words up to the next one, or its move.
pub fn behind_len(
    program: &Program,
    id: TypeId,
    is_ordered: bool,
    number: u32,
    behind: &[Element],
) -> u32
    ensures is { result ≡ (if is_ordered then gap_size
        (gap_in (type_named (program_of program.now) id.0) number (elements_of behind.now)) else 1) }
    ensures few { result ≤ 1 }
{
    if is_ordered && gap_behind(program, id, number, behind) == 0 {
        0
    } else {
        1
    }
}

/// The words between a part of a literal, in temps from h on, and the next element get zeros.
pub fn emit_gap(
    code: &mut Vec<Instr>,
    program: &Program,
    frame: &Frame,
    id: TypeId,
    number: u32,
    behind: &[Element],
    h: u16,
) -> Result<(), NoMemory>
    requires room { h + through_part (type_named (program_of program.now) id.0) number + gap_in
        (type_named (program_of program.now) id.0) number (elements_of behind.now) ≤ frame.now.temps }
    requires frame { IsLaid program.now frame.now }
    ensures { OnOk result (code.new.items ≡ code.old.items
        ++ gap_code (gap_in (type_named (program_of program.now) id.0) number (elements_of behind.now))
        (temp (slots_in program.now frame.now) (h + through_part (type_named (program_of program.now) id.0) number))) }
{
    let gap = gap_behind(program, id, number, behind) as u16;
    if gap > 0 {
        let width = program.types.width(program.types.part(id, number)) as u16;
        let from = h + program.types.part_offset(id, number) as u16 + width;
        put(code, zeros(gap, frame.temp(from)))?;
    }
    Ok(())
}

/// A part of a value of a type goes from temps from `from` on to its place in a literal in temps from h on.
pub fn moved(program: &Program, frame: &Frame, id: TypeId, number: u32, from: u16, h: u16) -> Instr
    requires place { h + part_offset (type_named (program_of program.now) id.0) number + width
        (part_type (type_named (program_of program.now) id.0) number) ≤ frame.now.temps }
    requires from { from ≤ frame.now.temps }
    requires frame { IsLaid program.now frame.now }
    ensures { result ≡ Instr.Move MoveEvent.Silent
        (temp (slots_in program.now frame.now) (h + part_offset (type_named (program_of program.now) id.0) number))
        (temp (slots_in program.now frame.now) from) (width (part_type (type_named (program_of program.now) id.0) number)) }
{
    let n = program.types.width(program.types.part(id, number)) as u16;
    let to = h + program.types.part_offset(id, number) as u16;
    silent(n, frame.temp(to), frame.temp(from))
}

/// A part of a value of a type in temps from h on goes to these temps.
pub fn taken(program: &Program, frame: &Frame, id: TypeId, number: u32, h: u16) -> Instr
    requires place { h + part_offset (type_named (program_of program.now) id.0) number + width
        (part_type (type_named (program_of program.now) id.0) number) ≤ frame.now.temps }
    requires frame { IsLaid program.now frame.now }
    ensures { result ≡ Instr.Move MoveEvent.Silent (temp (slots_in program.now frame.now) h)
        (temp (slots_in program.now frame.now) (h + part_offset (type_named (program_of program.now) id.0) number))
        (width (part_type (type_named (program_of program.now) id.0) number)) }
{
    let n = program.types.width(program.types.part(id, number)) as u16;
    let from = h + program.types.part_offset(id, number) as u16;
    silent(n, frame.temp(h), frame.temp(from))
}
