//! What the flows of an expression depend on: the types of sites and places, and which of them have pointers.

ghost use Rattle.std.specs.Prelude.{◌≡◌};
ghost use Rattle.typed_syntax.specs.Types.{part_type};
ghost use Rattle.typed_syntax.specs.Paths.{type_at};
ghost use Rattle.typed_syntax.specs.Syntax.{path_of, place_type, site_type, global_site, type_named};
ghost use Rattle.typed.specs.View.{place_of, program_of, steps_of};
ghost use Rattle.typed_flows.specs.Pointers.{has_pointers};
ghost use Rattle.typed_flows.specs.Known.{AreAll};

use base::{SiteId, TypeId};
use std::alloc::Global;
use typed::{Place, Program, Step};

/// A program, whether the values of each of its types have pointers, by its number, and where memory comes from.
#[derive(Clone, Copy)]
pub struct Context<'a> {
    pub alloc: Global,
    pub program: &'a Program,
    pub pointers: &'a [bool],
    ghost known: { AreAll program.now.types pointers.now },
}

impl Context<'_> {
    /// Whether the values of the type that has a number have pointers.
    pub fn has(self, id: TypeId) -> bool
        ensures { result ≡ has_pointers (type_named (program_of self.entry.program.now) id.0) }
    {
        match self.pointers.get(id.0 as usize) {
            Some(has) => *has,
            None => false,
        }
    }

    /// Whether a field or an element, by its number, of the values of a type has pointers.
    pub fn part_has(self, id: TypeId, index: u32) -> bool
        ensures { result ≡ has_pointers (part_type (type_named (program_of self.entry.program.now) id.0) index) }
    {
        self.has(self.program.types.part(id, index))
    }

    /// The type of a site's variables.
    fn of_site(self, site: SiteId) -> TypeId
        ensures { type_named (program_of self.entry.program.now) result.0 ≡ site_type (program_of self.entry.program.now) site.0 }
    {
        match self.program.sites.get(site.0 as usize) {
            Some(site) => site.type_id,
            None => self.program.types.int(),
        }
    }

    /// Whether a site's variables have pointers.
    pub fn site_has(self, site: SiteId) -> bool
        ensures { result ≡ has_pointers (site_type (program_of self.entry.program.now) site.0) }
    {
        self.has(self.of_site(site))
    }

    /// The site of a package variable by its number.
    fn global_site(self, number: u32) -> SiteId
        ensures { result.0 ≡ global_site (program_of self.entry.program.now) number }
    {
        match self.program.globals.get(number as usize) {
            Some(global) => global.site,
            None => SiteId(0),
        }
    }

    /// The type of the part that steps lead to. All elements of an array are of the type of the first.
    fn behind(self, id: TypeId, steps: &[Step]) -> TypeId
        ensures { type_named (program_of self.entry.program.now) result.0
            ≡ type_at (type_named (program_of self.entry.program.now) id.0) (path_of (steps_of steps.now)) }
    {
        let mut part = id;
        for step in steps {
            let index = match step {
                Step::Inner(index) => *index,
                Step::Index(_, _, _) => 0,
            };
            part = self.program.types.part(part, index);
        }
        part
    }

    /// Whether what a place holds has pointers.
    #[tactic(auto, using(typed::proofs::Rows::expr_rows))]
    pub fn place_has(self, place: &Place) -> bool
        ensures { result ≡ has_pointers (place_type (program_of self.entry.program.now) (place_of place.now)) }
    {
        let id = match place {
            Place::Local(site, steps) => self.behind(self.of_site(*site), steps),
            Place::Global(number, steps) => {
                self.behind(self.of_site(self.global_site(*number)), steps)
            }
            Place::Indirect(_, _, id, steps) | Place::SliceElement(_, _, _, id, steps) => {
                self.behind(*id, steps)
            }
        };
        self.has(id)
    }
}
