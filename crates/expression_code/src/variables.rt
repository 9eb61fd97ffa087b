//! The variables of sites as wholes: their births, reads and writes, wherever they live.
ghost use Rattle.std.specs.Prelude.{◌≡◌, ◌≤◌};
ghost use Rattle.expression_code.specs.Frame.{slots_in, IsLaid};
ghost use Rattle.expression_code.specs.Temps.{SiteFits};
ghost use Rattle.program_code.specs.Code.{born_code, fetch, fill_code, land, local_root as root_of_local, site_access, site_words, temp};

use crate::slots::Frame;
use base::SiteId;
use isa::Instr;
use typed::Program;

/// A variable is born: in its slots, or on the heap, with its address in the cell.
pub fn born(program: &Program, frame: &Frame, site: SiteId) -> Instr
    requires site { SiteFits (slots_in program.now frame.now) frame.now.sites site.0 }
    requires frame { IsLaid program.now frame.now }
    ensures { result ≡ born_code (slots_in program.now frame.now) site.0 }
{
    let n = frame.width_of(program, site);
    frame.access_of(program, site).born(n, site)
}

/// A new variable gets its words from temps from h on.
pub fn fill_variable(program: &Program, frame: &Frame, site: SiteId, h: u16) -> Instr
    requires temp { h ≤ frame.now.temps }
    requires site { SiteFits (slots_in program.now frame.now) frame.now.sites site.0 }
    requires frame { IsLaid program.now frame.now }
    ensures { result ≡ fill_code (slots_in program.now frame.now) site.0 h }
{
    let n = frame.width_of(program, site);
    frame.access_of(program, site).fill(n, frame.temp(h))
}

/// The words of the variable go to temps from h on.
pub fn fetch_variable(program: &Program, frame: &Frame, site: SiteId, h: u16) -> Instr
    requires temp { h ≤ frame.now.temps }
    requires site { SiteFits (slots_in program.now frame.now) frame.now.sites site.0 }
    requires frame { IsLaid program.now frame.now }
    ensures { result ≡ fetch (site_access (slots_in program.now frame.now) site.0) 0
        (site_words (slots_in program.now frame.now) site.0) (temp (slots_in program.now frame.now) h) }
{
    let n = frame.width_of(program, site);
    frame.access_of(program, site).fetch(0, n, frame.temp(h))
}

/// The variable gets the words of temps from h on.
pub fn land_variable(program: &Program, frame: &Frame, site: SiteId, h: u16) -> Instr
    requires temp { h ≤ frame.now.temps }
    requires site { SiteFits (slots_in program.now frame.now) frame.now.sites site.0 }
    requires frame { IsLaid program.now frame.now }
    ensures { result ≡ land (site_access (slots_in program.now frame.now) site.0) 0
        (site_words (slots_in program.now frame.now) site.0) (temp (slots_in program.now frame.now) h) }
{
    let n = frame.width_of(program, site);
    frame.access_of(program, site).land(0, n, frame.temp(h))
}

/// The address of the variable goes to temp `at`.
pub fn local_root(program: &Program, frame: &Frame, site: SiteId, at: u16) -> Instr
    requires temp { at ≤ frame.now.temps }
    requires site { SiteFits (slots_in program.now frame.now) frame.now.sites site.0 }
    requires frame { IsLaid program.now frame.now }
    ensures { result ≡ root_of_local (slots_in program.now frame.now) site.0 at }
{
    frame.access_of(program, site).begin(frame.temp(at))
}
