//! Where words are, and the instructions that reach them there.
ghost use Rattle.std.specs.Prelude.{◌≡◌};
ghost use Rattle.isa.specs.declared.instr.Instr.{Instr};
ghost use Rattle.isa.specs.declared.instr.StoreEvent.{StoreEvent};
ghost use Rattle.program_code.specs.Code.{fetch, fill, land, point};
ghost use Rattle.expression_code.specs.Accesses.{access_of, begin, born, Spans};

use crate::moving::silent;
use base::SiteId;
use isa::{Instr, MoveEvent, StoreEvent};

/// Where the words are that an instruction reads or writes: in slots of the frame from one on, or behind the address in a slot.
#[derive(Clone, Copy, Debug, PartialEq, Eq)]
pub enum Access {
    InSlots(u16),
    ByAddress(u16),
}

impl Access {
    /// n words of the part that lies `off` behind them go to slots from a on.
    pub fn fetch(self, off: u16, n: u16, a: u16) -> Instr
        requires { Spans (access_of self) off }
        ensures { result ≡ fetch (access_of self) off n a }
    {
        match self {
            Access::InSlots(slot) => {
                let (event, b) = (MoveEvent::Read, slot + off);
                Instr::Move { event, a, b, n }
            }
            Access::ByAddress(b) => Instr::Load { a, b, off, n },
        }
    }

    /// n words of the part get those of slots from c on.
    pub fn land(self, off: u16, n: u16, c: u16) -> Instr
        requires { Spans (access_of self) off }
        ensures { result ≡ land (access_of self) off n c }
    {
        match self {
            Access::InSlots(slot) => {
                let (event, a) = (MoveEvent::Write, slot + off);
                Instr::Move { event, a, b: c, n }
            }
            Access::ByAddress(a) => {
                let event = StoreEvent::Write;
                Instr::Store {
                    event,
                    a,
                    off,
                    c,
                    n,
                }
            }
        }
    }

    /// The address of the part goes to slot a.
    pub fn point(self, off: u16, a: u16) -> Instr
        requires { Spans (access_of self) off }
        ensures { result ≡ point (access_of self) off a }
    {
        match self {
            Access::InSlots(slot) => Instr::Address { a, b: slot + off },
            Access::ByAddress(b) => Instr::Offset { a, b, off },
        }
    }

    /// A variable of a site is born there with n words.
    pub fn born(self, n: u16, site: SiteId) -> Instr
        ensures { result ≡ born (access_of self) n site.0 }
    {
        match self {
            Access::InSlots(a) => Instr::Born { a, n, site: site.0 },
            Access::ByAddress(a) => Instr::Alloc { a, n, site: site.0 },
        }
    }

    /// The address of the words goes to slot a.
    pub fn begin(self, a: u16) -> Instr
        ensures { result ≡ begin (access_of self) a }
    {
        match self {
            Access::InSlots(b) => Instr::Address { a, b },
            Access::ByAddress(b) => silent(1, a, b),
        }
    }

    /// A new variable gets its n words from slots from c on.
    pub fn fill(self, n: u16, c: u16) -> Instr
        ensures { result ≡ fill (access_of self) n c }
    {
        match self {
            Access::InSlots(slot) => silent(n, slot, c),
            Access::ByAddress(a) => stored(n, a, c),
        }
    }
}

/// The n words behind the address in slot a get those of slots from c on, and nothing is told.
pub fn stored(n: u16, a: u16, c: u16) -> Instr
    ensures { result ≡ Instr.Store StoreEvent.Silent a 0 c n }
{
    let (event, off) = (StoreEvent::Silent, 0);
    Instr::Store {
        event,
        a,
        off,
        c,
        n,
    }
}
