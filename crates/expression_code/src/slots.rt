//! The slots of a frame, and the addresses of the package variables.
ghost use Rattle.std.specs.Prelude.{◌≡◌, ◌+◌, ◌<◌, ◌≤◌, IfOk, length};
ghost use Rattle.typed_syntax.specs.Types.{width};
ghost use Rattle.typed_syntax.specs.Syntax.{type_named};
ghost use Rattle.typed.specs.View.{program_of};
ghost use Rattle.frames.specs.Frames.{cells_between, words_between};
ghost use Rattle.placement.specs.Told.{placement_of};
ghost use Rattle.program_code.specs.Code.{global_address, site_access, site_words as words_of_site};
ghost use Rattle.expression_code.specs.Accesses.{access_of, Spans};
ghost use Rattle.expression_code.specs.Temps.{SiteFits};
ghost use Rattle.expression_code.specs.Frame.{AreSmall, IsLaid, global_addresses as addresses_of, globals_in, made_in, sites_in, slots_in, types_in};

use crate::access::Access;
use base::{NoMemory, SiteId, TypeId};
use frame_layout::{FrameLayout, site_starts, site_words};
use heap_bump::HEAP_LOW;
use placement::Placement;
use std::alloc::Global;
use typed::{Func, INT, Program};

/// Where variables live outside of frames: which do, and the addresses of the package variables. Both are told once for a
/// program, and go from the frame of one function to that of the next.
#[derive(Drop)]
pub struct Homes {
    pub placement: Placement,
    pub globals: Vec<u64>,
}

/// A frame from its lowest slot up: the words of the outgoing area, the temps, and the cells and the words of the sites from a
/// first one on. `starts` tells where each of these starts behind the temps, at its cell or at its words, so that a slot is told
/// without a walk over the sites.
#[derive(Drop)]
pub struct Frame {
    pub outgoing: u16,
    pub temps: u16,
    pub first: u32,
    pub sites: u32,
    pub starts: Vec<u16>,
    pub homes: Homes,
}

/// The address of each package variable. They stand one after the other in the heap; an address past 64 bits counts as
/// want of memory.
pub fn global_addresses(alloc: Global, program: &Program) -> Result<Vec<u64>, NoMemory>
    ensures { IfOk result (λ all. all.items ≡ addresses_of program.now) }
{
    let globals = program.globals.as_slice();
    let mut all = Vec::new(alloc);
    let mut next = HEAP_LOW;
    for global in globals {
        all.push(next)?;
        next = next
            .checked_add(site_words(program, global.site))
            .ok_or(NoMemory)?;
    }
    Ok(all)
}

// A table of types has none with more words than 16 bits tell: any of its answers says that it is well formed.
fn tell_words(program: &Program)
    ensures types { AreSmall (types_in program.now) }
    ensures sites { AreSmall (sites_in program.now) }
{
    let _ = program.types.type_at(INT);
}

impl Frame {
    /// The frame of a function, laid out so.
    pub fn new(
        alloc: Global,
        program: &Program,
        func: &Func,
        layout: FrameLayout,
        homes: Homes,
    ) -> Result<Frame, NoMemory>
        requires globals { homes.globals.items ≡ addresses_of program.now }
        requires words { layout.outgoing + layout.temps + cells_between (placement_of homes.placement) (made_in program.now) func.now.first_site func.now.sites
            + words_between (placement_of homes.placement) (sites_in program.now) func.now.first_site func.now.sites ≤ 65535 }
        ensures laid { IfOk result (λ f. IsLaid program.now f) }
        ensures slots { IfOk result (λ f. slots_in program.now f
            ≡ record { outgoing = layout.outgoing; temps = layout.temps; first = func.now.first_site; count = func.now.sites; placement = placement_of homes.placement; types = types_in program.now; sites = sites_in program.now; made = made_in program.now; globals = globals_in program.now }) }
        ensures sites { IfOk result (λ f. f.sites ≡ func.now.sites) }
        ensures homes { IfOk result (λ f. f.homes ≡ homes) }
    {
        let (first, sites) = (func.first_site, func.sites);
        let starts = site_starts(alloc, program, &homes.placement, first, sites)?;
        tell_words(program);
        Ok(Frame {
            outgoing: layout.outgoing,
            temps: layout.temps,
            first,
            sites,
            starts,
            homes,
        })
    }

    /// Lets go of a frame, but for what the next one takes over.
    pub fn into_homes(self) -> Homes
        ensures { result ≡ self.homes }
    {
        self.homes
    }

    /// The slot of a temp.
    pub fn temp(&self, h: u16) -> u16
        requires { self.now.outgoing + h ≤ 65535 }
        ensures { result ≡ self.now.outgoing + h }
    {
        self.outgoing + h
    }

    /// Where the words of a site's variables are: in their slots, or behind the address in the site's cell.
    pub fn access_of(&self, program: &Program, site: SiteId) -> Access
        requires site { SiteFits (slots_in program.now self.now) self.now.sites site.0 }
        requires frame { IsLaid program.now self.now }
        ensures is { access_of result ≡ site_access (slots_in program.now self.now) site.0 }
        ensures spans { Spans (access_of result) (words_of_site (slots_in program.now self.now) site.0) }
    {
        let start = self.starts[(site.0 - self.first) as usize];
        let slot = self.outgoing + self.temps + start;
        if self.homes.placement.is_on_heap(site) {
            Access::ByAddress(slot)
        } else {
            Access::InSlots(slot)
        }
    }

    /// The words of the variables of a site, wherever they live.
    pub fn width_of(&self, program: &Program, site: SiteId) -> u16
        requires frame { IsLaid program.now self.now }
        ensures { result ≡ words_of_site (slots_in program.now self.now) site.0 }
    {
        site_words(program, site) as u16
    }

    /// The words of values of a type.
    pub fn width_at(&self, program: &Program, id: TypeId) -> u16
        requires frame { IsLaid program.now self.now }
        ensures { result ≡ width (type_named (program_of program.now) id.0) }
    {
        program.types.width(id) as u16
    }

    /// The address of a package variable.
    pub fn of_global(&self, program: &Program, number: u32) -> u64
        requires global { number < length (globals_in program.now) }
        requires frame { IsLaid program.now self.now }
        ensures { result ≡ global_address (slots_in program.now self.now) number }
    {
        self.homes.globals[number as usize]
    }
}
