//! Births of variables.
ghost use Rattle.std.specs.Prelude.{◌≡◌, ◌≤◌, ◌++◌, OnOk};
ghost use Rattle.expression_code.specs.Frame.{slots_in, IsLaid};
ghost use Rattle.expression_code.specs.Temps.{SiteFits};
ghost use Rattle.program_code.specs.Code.{birth_code, param_code};

use base::{NoMemory, SiteId};
use expression_code::{Access, Frame, born, fill_variable, put};
use isa::{Direction, Instr};
use typed::Program;

/// A variable of a site is born, and gets the words of temps from h on.
pub fn emit_birth(
    code: &mut Vec<Instr>,
    program: &Program,
    frame: &Frame,
    site: SiteId,
    h: u16,
) -> Result<(), NoMemory>
    requires temp { h ≤ frame.now.temps }
    requires site { SiteFits (slots_in program.now frame.now) frame.now.sites site.0 }
    requires frame { IsLaid program.now frame.now }
    ensures { OnOk result (code.new.items ≡ code.old.items ++ birth_code (slots_in program.now frame.now) site.0 h) }
{
    put(code, born(program, frame, site))?;
    put(code, fill_variable(program, frame, site, h))?;
    Ok(())
}

/// A parameter is born, and gets `n` incoming words from one on: at once where it lives in the frame, and else through temps.
pub fn emit_param(
    code: &mut Vec<Instr>,
    program: &Program,
    frame: &Frame,
    site: SiteId,
    n: u16,
    word: u16,
) -> Result<(), NoMemory>
    requires site { SiteFits (slots_in program.now frame.now) frame.now.sites site.0 }
    requires frame { IsLaid program.now frame.now }
    ensures { OnOk result (code.new.items ≡ code.old.items ++ param_code (slots_in program.now frame.now) site.0 word n) }
{
    put(code, born(program, frame, site))?;
    let (direction, b) = (Direction::ToSlots, word);
    let access = frame.access_of(program, site);
    match access {
        Access::InSlots(a) => put(code, Instr::Incoming { direction, a, b, n }),
        Access::ByAddress(_) => {
            let a = frame.temp(0);
            put(code, Instr::Incoming { direction, a, b, n })?;
            put(code, access.fill(n, a))
        }
    }
}
