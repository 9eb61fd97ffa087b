//! The code of a program: its tables, function by function.
ghost use Rattle.std.specs.Prelude.{◌≡◌, ◌+◌, ◌<◌, ◌^◌, ℕ, ◌++◌, ◌∷◌, [], IfOk, OnOk, length, map, replicate};
ghost use Rattle.typed.specs.View.{program_of};
ghost use Rattle.typed_syntax.specs.Types.{width};
ghost use Rattle.typed_syntax.specs.Syntax.{type_named};
ghost use Rattle.typed_syntax.specs.Form.{IsInForm};
ghost use Rattle.frames.specs.Placement.{IsPlaced};
ghost use Rattle.placement.specs.Told.{placement_of};
ghost use Rattle.frame_layout.specs.Layout.{layout_in, layouts as layouts_of};
ghost use Rattle.expression_code.specs.Frame.{func_in, global_addresses as addresses_of, slots_in, IsLaid};
ghost use Rattle.codegen.specs.Temps.{FuncFitsIn};
ghost use Rattle.program_code.specs.Code.{code_of, entry_of, func_code, func_size, slots_of};

use crate::emitting::emit_stmts;
use crate::returning::{emit_leave, emit_params, emit_zeros};
use base::NoMemory;
use expression_code::{Frame, Goals, Homes, global_addresses, here};
use frame_layout::{FrameLayout, Layouts, all_words};
use isa::{Code, Instr};
use placement::Placement;
use std::alloc::Global;
use typed::{Func, INT, Program};

// Tables that are being put together.
#[derive(Drop)]
struct Parts {
    instrs: Vec<Instr>,
    owners: Vec<u32>,
    funcs: Vec<isa::Func>,
}

// A function's code stands after the others'.
fn emit_func(
    code: &mut Vec<Instr>,
    program: &Program,
    frame: &Frame,
    func: &Func,
) -> Result<(), NoMemory>
    requires slots { slots_in program.now frame.now
        ≡ slots_of (program_of program.now) (placement_of frame.now.homes.placement) (func_in program.now func.now) }
    requires sites { frame.now.sites ≡ func.now.sites }
    requires fits { FuncFitsIn (program_of program.now) (placement_of frame.now.homes.placement) (func_in program.now func.now) }
    requires frame { IsLaid program.now frame.now }
    ensures { OnOk result (code.new.items ≡ code.old.items ++ func_code (program_of program.now)
        (placement_of frame.now.homes.placement) (func_in program.now func.now) (length code.old.items)) }
{
    emit_params(code, program, frame, &func.params, &func.param_types)?;
    emit_zeros(code, program, frame, &func.named)?;
    // No loop is around the body.
    let goals = Goals { out: 0, again: 0 };
    emit_stmts(code, program, frame, func, &func.body, 0, goals)?;
    emit_leave(code, program, frame, func)?;
    Ok(())
}

// `places` places belong to a function.
#[tactic(auto, using(crate::proofs::Whole::own_next))]
fn own(owners: &mut Vec<u32>, number: u32, places: u32) -> Result<(), NoMemory>
    ensures { OnOk result (owners.new.items ≡ owners.old.items ++ replicate places number) }
{
    let mut left = places;
    'places: while left > 0 {
        owners.push(number)?;
        left -= 1;
    }
    Ok(())
}

fn put_entry(entries: &mut Vec<isa::Func>, entry: isa::Func) -> Result<(), NoMemory>
    ensures { OnOk result (entries.new.items ≡ entries.old.items ++ entry ∷ []) }
{
    entries.push(entry)?;
    Ok(())
}

fn bytes_of(alloc: Global, bytes: &[u8]) -> Result<Vec<u8>, NoMemory>
    ensures { IfOk result (λ copy. copy.items ≡ bytes.now) }
{
    let mut copy = Vec::new(alloc);
    copy.extend_from_slice(bytes)?;
    Ok(copy)
}

// The bytes of the strings, in their order.
fn copied(alloc: Global, strings: &[Vec<u8>]) -> Result<Vec<Vec<u8>>, NoMemory>
    ensures { IfOk result (λ all. map (λ bytes. bytes.items) all.items ≡ map (λ bytes. bytes.items) strings.now) }
{
    let mut all = Vec::new(alloc);
    for bytes in strings {
        let copy = bytes_of(alloc, bytes)?;
        all.push(copy)?;
    }
    Ok(all)
}

// A function comes after the others, with this number. What is known of all variables goes through its frame.
fn add(
    alloc: Global,
    parts: &mut Parts,
    program: &Program,
    func: &Func,
    layout: FrameLayout,
    number: u32,
    homes: Homes,
) -> Result<Homes, NoMemory>
    requires globals { homes.globals.items ≡ addresses_of program.now }
    requires fits { FuncFitsIn (program_of program.now) (placement_of homes.placement) (func_in program.now func.now) }
    requires layout { layout ≡ layout_in (program_of program.now) (placement_of homes.placement) (func_in program.now func.now) }
    ensures instrs { OnOk result (parts.new.instrs.items ≡ parts.old.instrs.items ++ func_code (program_of program.now)
        (placement_of homes.placement) (func_in program.now func.now) (length parts.old.instrs.items)) }
    ensures owners { OnOk result (parts.new.owners.items ≡ parts.old.owners.items
        ++ replicate (func_size (program_of program.now) (placement_of homes.placement) (func_in program.now func.now)) number) }
    ensures funcs { OnOk result (parts.new.funcs.items ≡ parts.old.funcs.items ++ entry_of (program_of program.now)
        (placement_of homes.placement) (func_in program.now func.now) (length parts.old.instrs.items) ∷ []) }
    ensures homes { IfOk result (λ same. same ≡ homes) }
{
    let start = here(&parts.instrs)?;
    let frame = Frame::new(alloc, program, func, layout, homes)?;
    emit_func(&mut parts.instrs, program, &frame, func)?;
    let end = here(&parts.instrs)?;
    let size = end - start;
    own(&mut parts.owners, number, size)?;
    let arguments = all_words(program, &func.param_types)? as u16;
    let results = all_words(program, &func.results)? as u16;
    let entry = isa::Func {
        frame: layout.frame,
        arguments,
        results,
        start,
        size,
    };
    put_entry(&mut parts.funcs, entry)?;
    Ok(frame.into_homes())
}

// A table of types has none without words: any of its answers says that it is well formed.
fn tell_solid(program: &Program)
    ensures { (n : ℕ) → 0 < width (type_named (program_of program.now) n) }
{
    let _ = program.types.type_at(INT);
}

/// The code of a program whose variables live so, and whose frames are laid out so. Memory counts as refused, too, where the code
/// would have more than 2^32 - 1 instructions.
pub fn emit(
    alloc: Global,
    program: &Program,
    placement: Placement,
    layouts: &Layouts,
) -> Result<Code, NoMemory>
    requires form { IsInForm (program_of program.now) }
    requires placed { IsPlaced (program_of program.now) (placement_of placement) }
    requires layouts { layouts.now ≡ layouts_of (program_of program.now) (placement_of placement) }
    ensures is { IfOk result (λ code. code ≡ code_of (program_of program.now) (placement_of placement)) }
    ensures main { IfOk result (λ code. program.now.main.0 < length code.funcs) }
    ensures small { IfOk result (λ code. length code.instrs < 2 ^ 40) }
{
    let funcs = program.funcs.as_slice();
    let frames = layouts.frames();
    let mut parts = Parts {
        instrs: Vec::new(alloc),
        owners: Vec::new(alloc),
        funcs: Vec::new(alloc),
    };
    tell_solid(program);
    let globals = global_addresses(alloc, program)?;
    let mut homes = Homes { placement, globals };
    let mut number: u32 = 0;
    for func in funcs {
        let layout = frames[number as usize];
        homes = add(alloc, &mut parts, program, func, layout, number, homes)?;
        number += 1;
    }
    here(&parts.instrs)?;
    let strings = copied(alloc, &program.strings)?;
    Ok(Code::made(parts.instrs, parts.owners, parts.funcs, strings))
}
