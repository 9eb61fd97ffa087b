//! The placement of variables.
ghost use Rattle.std.specs.Prelude.{◌≡◌, ◌==◌, ◌||◌, ◌<◌, ℕ, false, get_or, length, map, IfOk, OnOk};
ghost use Rattle.frames.specs.Placement.{coarse as coarse_of};
ghost use Rattle.typed.specs.Trees.{trees};
ghost use Rattle.typed.specs.View.{program_of};
ghost use Rattle.placement.specs.Told.{is_apart, placement_of};

use base::{NoMemory, SiteId};
use std::alloc::Global;
use typed::{Program, Site};

/// The most words of a variable that lives in a frame.
const MOST_WORDS: u64 = 8192;

/// For each site, whether its variables live on the heap.
#[derive(Drop)]
pub struct Placement {
    // By the number of the site. Those past its end live in frames.
    on_heap: Vec<bool>,
}

// Bits reach as far as a number; the new ones are false.
#[tactic(auto, using(crate::proofs::Bits::padded))]
fn cover(bits: &mut Vec<bool>, number: usize) -> Result<(), NoMemory>
    requires { number < 4294967296 }
    ensures long { OnOk result (number < length bits.new.items) }
    ensures same { OnOk result ((k : ℕ) → get_or bits.new.items k false ≡ get_or bits.old.items k false) }
{
    if bits.len() <= number {
        bits.resize(number + 1, false)?;
    }
    Ok(())
}

impl Placement {
    /// The placement in which every variable lives in a frame.
    pub fn new(alloc: Global) -> Placement
        ensures { placement_of result ≡ record { on_heap = λ site. false } }
    {
        Placement {
            on_heap: Vec::new(alloc),
        }
    }

    /// Whether the variables of the site with this number live on the heap.
    pub fn at(&self, number: usize) -> bool
        ensures { result ≡ (placement_of self.now).on_heap number }
    {
        match self.on_heap.get(number) {
            Some(on_heap) => *on_heap,
            None => false,
        }
    }

    /// Whether the variables of a site live on the heap.
    pub fn is_on_heap(&self, site: SiteId) -> bool
        ensures { result ≡ (placement_of self.now).on_heap site.0 }
    {
        self.at(site.0 as usize)
    }

    /// Puts the variables of a site on the heap.
    pub fn put_on_heap(&mut self, site: SiteId) -> Result<(), NoMemory>
        ensures { OnOk result (placement_of self.new ≡ record { on_heap = λ s. (site.0 == s) || (placement_of self.old).on_heap s }) }
    {
        let number = site.0 as usize;
        cover(&mut self.on_heap, number)?;
        self.on_heap[number] = true;
        Ok(())
    }
}

// Whether the variables of a site live on the heap even where they aren't those of the package.
fn lives_apart(program: &Program, site: &Site) -> bool
    ensures { result ≡ is_apart (trees program.now.types) site.now }
{
    site.address_taken || u64::from(program.types.width(site.type_id)) > MOST_WORDS
}

// The bits of all sites, but for those of package variables.
fn apart(alloc: Global, program: &Program) -> Result<Vec<bool>, NoMemory>
    ensures { IfOk result (λ bits. bits.items ≡ map (is_apart (trees program.now.types)) program.now.sites.items) }
{
    let sites = program.sites.as_slice();
    let mut bits = Vec::new(alloc);
    for site in sites {
        bits.push(lives_apart(program, site))?;
    }
    Ok(bits)
}

/// The placement that needs no analysis: on the heap live the variables of the package, those whose address is taken, and large ones.
pub fn coarse(alloc: Global, program: &Program) -> Result<Placement, NoMemory>
    ensures { IfOk result (λ l. placement_of l ≡ coarse_of (program_of program.now)) }
{
    let on_heap = apart(alloc, program)?;
    let globals = program.globals.as_slice();
    let mut placement = Placement { on_heap };
    for global in globals {
        placement.put_on_heap(global.site)?;
    }
    Ok(placement)
}
