//! The parts that places are: what a place begins at, and the steps from there.
ghost use Rattle.std.specs.Prelude.{◌≡◌, ◌≤◌, IfOk, if◌then◌else◌};
ghost use Rattle.typed_syntax.specs.Paths.{offset as offset_at, type_at};
ghost use Rattle.typed_syntax.specs.Syntax.{path_of, site_type as type_of_site, type_named};
ghost use Rattle.frames.specs.Frames.{far, steps_far};
ghost use Rattle.typed.specs.View.{place_of, program_of, steps_of as these_steps};
ghost use Rattle.expression_code.specs.Frame.{slots_in, IsLaid};
ghost use Rattle.expression_code.specs.Parts.{part_number as number_of};
ghost use Rattle.expression_code.specs.Temps.{PlaceFits};
ghost use Rattle.program_code.specs.Code.{element_words as words_of_elements, index_count as count_of, near_offset as offset_near, near_words as words_near, root_type as type_of_root, steps_above, steps_of as steps_in};

use crate::lengths::plus;
use crate::slots::Frame;
use base::{NoMemory, SiteId, TypeId};
use frame_layout::{place_words, site_of_global};
use typed::{Place, Program, Step};

/// The number of the part that a step leads to; an index that is worked out counts as the first.
pub fn part_number(step: &Step) -> u32
    ensures { result ≡ number_of step.now }
{
    match step {
        Step::Inner(i) => *i,
        Step::Index(..) => 0,
    }
}

/// Whether an index is among the steps, so that what they lead to is reached by an address.
pub fn is_far(steps: &[Step]) -> bool
    ensures { steps_far (these_steps steps.now) ≡ (if result then 1 else 0) }
{
    for step in steps {
        if let Step::Index(..) = step {
            return true;
        }
    }
    false
}

/// The temp above the indices among steps, which are in temps from h on.
pub fn above_steps(steps: &[Step], h: u16) -> u16
    requires { steps_above (these_steps steps.now) h ≤ 65535 }
    ensures { result ≡ steps_above (these_steps steps.now) h }
{
    let mut above = h;
    for step in steps {
        if let Step::Index(..) = step {
            above += 1;
        }
    }
    above
}

/// How many of the steps are indices.
pub fn index_count(steps: &[Step]) -> Result<u32, NoMemory>
    ensures { IfOk result (λ n. n ≡ count_of (these_steps steps.now)) }
{
    let mut count = 0;
    for step in steps {
        if let Step::Index(..) = step {
            count = plus(count, 1)?;
        }
    }
    Ok(count)
}

/// The type of a site's variables.
fn site_type(program: &Program, site: SiteId) -> TypeId
    ensures { type_named (program_of program.now) result.0 ≡ type_of_site (program_of program.now) site.0 }
{
    match program.sites.get(site.0 as usize) {
        Some(site) => site.type_id,
        None => program.types.int(),
    }
}

/// The type of what a place begins at.
#[tactic(auto, using(typed::proofs::Rows::expr_rows))]
pub fn root_type(program: &Program, frame: &Frame, place: &Place) -> TypeId
    ensures { type_named (program_of program.now) result.0 ≡ type_of_root (slots_in program.now frame.now) (place_of place.now) }
{
    match place {
        Place::Local(site, _) => site_type(program, *site),
        Place::Global(number, _) => site_type(program, site_of_global(program, *number)),
        Place::Indirect(_, _, id, _) => *id,
        Place::SliceElement(_, _, _, id, _) => *id,
    }
}

/// The steps from there.
#[tactic(auto, using(typed::proofs::Rows::expr_rows))]
pub fn steps_of(place: &Place) -> &[Step]
    ensures { these_steps result.now ≡ steps_in (place_of place.now) }
{
    match place {
        Place::Local(_, steps) => steps,
        Place::Global(_, steps) => steps,
        Place::Indirect(_, _, _, steps) => steps,
        Place::SliceElement(_, _, _, _, steps) => steps,
    }
}

/// Whether a place is reached by an address of its own.
#[tactic(auto, using(typed::proofs::Rows::expr_rows))]
pub fn has_address(place: &Place) -> bool
    ensures { far (place_of place.now) ≡ (if result then 1 else 0) }
{
    match place {
        Place::Local(_, steps) => is_far(steps),
        Place::Indirect(_, _, _, steps) => is_far(steps),
        Place::Global(..) | Place::SliceElement(..) => true,
    }
}

// The words before the part that steps lead to from values of a type, but for those before elements by indices that are worked out.
fn offset(program: &Program, id: TypeId, steps: &[Step]) -> u16
    requires { offset_at (type_named (program_of program.now) id.0) (path_of (these_steps steps.now)) ≤ 65535 }
    ensures { result ≡ offset_at (type_named (program_of program.now) id.0) (path_of (these_steps steps.now)) }
{
    let (mut part, mut words) = (id, 0);
    for step in steps {
        let i = part_number(step);
        words += program.types.part_offset(part, i) as u16;
        part = program.types.part(part, i);
    }
    words
}

/// The words before a place from where it begins on, but for those before elements by indices.
pub fn near_offset(program: &Program, frame: &Frame, place: &Place) -> u16
    requires place { PlaceFits (slots_in program.now frame.now) frame.now.sites (place_of place.now) }
    requires frame { IsLaid program.now frame.now }
    ensures { result ≡ offset_near (slots_in program.now frame.now) (place_of place.now) }
{
    offset(program, root_type(program, frame, place), steps_of(place))
}

/// The words of a place.
pub fn near_words(program: &Program, frame: &Frame, place: &Place) -> u16
    requires place { PlaceFits (slots_in program.now frame.now) frame.now.sites (place_of place.now) }
    requires frame { IsLaid program.now frame.now }
    ensures { result ≡ words_near (slots_in program.now frame.now) (place_of place.now) }
{
    place_words(program, place) as u16
}

/// The words of an element of the array at a place.
pub fn element_words(program: &Program, frame: &Frame, place: &Place) -> u16
    requires frame { IsLaid program.now frame.now }
    ensures { result ≡ words_of_elements (slots_in program.now frame.now) (place_of place.now) }
{
    let id = end_type(program, root_type(program, frame, place), steps_of(place));
    frame.width_at(program, program.types.part(id, 0))
}

// The type of the part that steps lead to from values of a type.
fn end_type(program: &Program, id: TypeId, steps: &[Step]) -> TypeId
    ensures { type_named (program_of program.now) result.0
        ≡ type_at (type_named (program_of program.now) id.0) (path_of (these_steps steps.now)) }
{
    let mut part = id;
    for step in steps {
        part = program.types.part(part, part_number(step));
    }
    part
}
