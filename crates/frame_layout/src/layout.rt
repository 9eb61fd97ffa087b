//! The layout of each function's frame.

ghost use Rattle.std.specs.Prelude.{◌≡◌, ◌+◌, IfOk, IfErr, None};
ghost use Rattle.typed.specs.View.{func_of, program_of};
ghost use Rattle.typed.specs.Trees.{trees};
ghost use Rattle.placement.specs.Told.{placement_of};
ghost use Rattle.frame_layout.specs.Layout.{first_too_large, is_large, layout_in, layouts, IsTooLarge};

use crate::fault::LayoutFault;
use crate::outgoing::body_reach;
use crate::temps::func_temps;
use crate::words::{cells_of, sites_words};
use base::NoMemory;
use placement::Placement;
use std::alloc::Global;
use std::marker::Model;
use typed::{Func, Program};

/// The words of a frame: the outgoing area, the temps, and all of them.
#[derive(Clone, Copy, Debug, PartialEq, Eq)]
pub struct FrameLayout {
    pub outgoing: u16,
    pub temps: u16,
    pub frame: u16,
}

/// The frames of a program's functions, by their numbers.
#[derive(Drop)]
pub struct Layouts {
    frames: Vec<FrameLayout>,
}

impl Model for Layouts {
    ghost use Rattle.std.specs.Prelude.{List};
    ghost use Rattle.frame_layout.specs.declared.layout.FrameLayout.{FrameLayout};

    ghost Value = { List FrameLayout };

    ghost view = { λ l. l.frames.items };
}

impl Layouts {
    /// The frames, by the numbers of the functions.
    pub fn frames(&self) -> &[FrameLayout]
        ensures { result.now ≡ self.now }
    {
        &self.frames
    }
}

/// The words of the largest frame: its slots are numbers of 16 bits.
const LARGEST_FRAME: u64 = 65_535;

/// The words of a frame with these words of outgoing area, temps, cells and sites.
fn words_of(outgoing: u64, temps: u64, cells: u64, sites: u64) -> Result<u64, NoMemory>
    ensures { IfOk result (λ n. n ≡ 2 + sites + cells + temps + outgoing) }
{
    let below = temps.checked_add(outgoing).ok_or(NoMemory)?;
    let under = cells.checked_add(below).ok_or(NoMemory)?;
    let inside = sites.checked_add(under).ok_or(NoMemory)?;
    inside.checked_add(2).ok_or(NoMemory)
}

/// The layout of the frame of one of a program's functions.
fn frame_layout(
    program: &Program,
    placement: &Placement,
    func: &Func,
) -> Result<FrameLayout, LayoutFault>
    ensures layout { IfOk result (λ l. l ≡ layout_in (program_of program.now) (placement_of placement.now) (func_of (trees program.now.types) func.now)) }
    ensures small { IfOk result (λ l. is_large (program_of program.now) (placement_of placement.now) func.now ≡ None) }
    ensures fault { IfErr result (IsTooLarge (is_large (program_of program.now) (placement_of placement.now) func.now)) }
{
    let outgoing = body_reach(program, &func.body)?;
    let temps = func_temps(program, placement, func)?;
    let cells = cells_of(program, placement, func.first_site, func.sites);
    let sites = sites_words(program, placement, func.first_site, func.sites);
    let words = words_of(outgoing, temps, cells, sites)?;
    if words > LARGEST_FRAME {
        return Err(LayoutFault::FrameTooLarge {
            pos: func.pos,
            words,
        });
    }
    Ok(FrameLayout {
        outgoing: outgoing as u16,
        temps: temps as u16,
        frame: words as u16,
    })
}

/// The layouts of a program's functions, where the variables live so.
pub fn layout_of(
    alloc: Global,
    program: &Program,
    placement: &Placement,
) -> Result<Layouts, LayoutFault>
    // Each function's words are the definition's, and none has a frame of more than 65,535.
    ensures layouts { IfOk result (λ l. l ≡ layouts (program_of program.now) (placement_of placement.now)) }
    ensures small { IfOk result (λ l. first_too_large (program_of program.now) (placement_of placement.now) program.now.funcs.items ≡ None) }

    // Refused is the first function whose frame has more, with the words and the place of its name.
    ensures fault { IfErr result (IsTooLarge (first_too_large (program_of program.now) (placement_of placement.now) program.now.funcs.items)) }
{
    let funcs = program.funcs.as_slice();
    let mut frames = Vec::new(alloc);
    for func in funcs {
        let layout = frame_layout(program, placement, func)?;
        frames.push(layout)?;
    }
    Ok(Layouts { frames })
}
