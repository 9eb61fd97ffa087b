//! Calls and returns.
ghost use Rattle.std.specs.Prelude.{◌≡◌, ◌≢◌, ◌↔◌, ◌+◌, ◌-◌, ◌<◌, ◌≤◌, ◌^◌, length, drop, IsTrue, Some, None, []};
ghost use Rattle.machine.specs.Machine.{upper_end, full_range, address_of, entered, calls, first_return, returns, owner_of};
ghost use Rattle.machine.specs.Inside.{Inside};
ghost use Rattle.machine.specs.Answers.{ComesTo, StatusFits};

use crate::block::make_room;
use crate::code_tables::Tables;
use crate::run_state::{Ending, Next, RunState};
use crate::slots::{set_slot, slot, zero_slots};
use isa::Func;
use std::alloc::Global;

const STACK_START: u64 = 1 << 40;

/// The address of the place that lies `distance` words below the upper end of a stack of at most `stack_max` words.
#[inline(always)]
pub fn address(stack_max: u64, distance: usize) -> u64
    requires { (distance ≤ stack_max) × (stack_max ≤ 2 ^ 32) }
    ensures { result ≡ address_of (upper_end stack_max) distance }
{
    STACK_START + stack_max - distance as u64
}

// A frame of `frame` words stands below `base`, and the answer is the index of its lowest word.
#[inline(always)]
fn push(words: &mut Vec<u64>, base: usize, frame: usize, link: u64, ret: u64) -> usize
    requires room { (2 ≤ frame) × (frame ≤ base) × (base ≤ length words.old.items) }
    ensures is { result ≡ base - frame }
    ensures words { drop (base - frame) words.new.items ≡ entered frame link ret (drop base words.old.items) }
    ensures length { length words.new.items ≡ length words.old.items }
{
    let low = base - frame;
    zero_slots(words, low, 0, frame - 2);
    set_slot(words, low, frame - 2, link);
    set_slot(words, low, frame - 1, ret);
    low
}

/// Calls a function from a frame of `frame` words.
#[inline(always)]
pub fn call(
    alloc: Global,
    words: &mut Vec<u64>,
    stack_max: u64,
    at: RunState,
    frame: usize,
    callee: Func,
) -> Next
    requires words { (length words.old.items ≤ stack_max) × (stack_max ≤ 2 ^ 32) }
    requires frame { at.base + frame ≤ length words.old.items }
    requires callee { (2 ≤ callee.frame) × (at.base + (callee.arguments + callee.results) ≤ length words.old.items) }
    requires place { at.pc < 2 ^ 40 }
    ensures calls { ComesTo (full_range stack_max) (calls stack_max frame (Some callee)) words.old.items at words.new.items result }
    ensures entered { result.ending ≡ None
        → (result.at.pc ≡ callee.start) × (result.at.base + callee.frame ≤ length words.new.items) }
    ensures length { length words.new.items ≤ stack_max }
    ensures status { StatusFits result.ending }
    ensures read { result.ending ≢ Some Ending.ReadFault }
    ensures refused { result.ending ≡ Some Ending.NoMemory → (at.base < callee.frame)
        × (length (drop at.base words.old.items) + callee.frame ≤ stack_max) × (words.new ≡ words.old) }
{
    let asked = callee.frame as usize;
    let used = words.len() - at.base;
    if used + asked > stack_max as usize {
        return Next::ended(
            at,
            Ending::StackLimit {
                used: used as u64,
                asked: asked as u64,
                limit: stack_max,
            },
        );
    }
    match make_room(alloc, words, at.base, asked, stack_max) {
        Ok(base) => {
            zero_slots(
                words,
                base,
                callee.arguments as usize,
                callee.results as usize,
            );
            let link = address(stack_max, used - frame);
            let low = push(words, base, asked, link, (at.pc + 1) as u64);
            Next::to(callee.start as usize, low)
        }
        Err(_) => Next::ended(at, Ending::NoMemory),
    }
}

// How the first frame's return ends.
#[inline(always)]
fn exit(ret: u64, link: u64) -> Ending
    ensures exits { result ≡ first_return ret link }
    ensures status { StatusFits (Some result) }
    ensures memory { result ≢ Ending.NoMemory }
    ensures write { result ≢ Ending.WriteFault }
    ensures read { result ≢ Ending.ReadFault }
{
    if ret != 0 {
        return Ending::WildReturn(ret);
    }
    if link != 0 {
        return Ending::WildLink(link);
    }
    Ending::Exit(0)
}

// Whether a link is the address after a frame that ends at an index of the block.
#[inline(always)]
fn links(words: &Vec<u64>, stack_max: u64, outer: usize, link: u64) -> bool
    requires { (length words.now.items ≤ stack_max) × (stack_max ≤ 2 ^ 32) }
    ensures { IsTrue result ↔ (outer ≤ length words.now.items) × (link ≡ address_of (upper_end stack_max) (length words.now.items - outer)) }
{
    outer <= words.len() && link == address(stack_max, words.len() - outer)
}

/// Returns from the function of a place.
#[inline(always)]
pub fn leave(tables: &Tables<'_>, words: &Vec<u64>, stack_max: u64, at: RunState) -> Next
    requires words { (length words.now.items ≤ stack_max) × (stack_max ≤ 2 ^ 32) }
    requires inside { Inside tables.now (length words.now.items) at.pc at.base }
    requires place { at.pc < length tables.now.instrs }
    ensures returns { ComesTo (full_range stack_max) (returns tables.now (owner_of tables.now at.pc))
        words.now.items at words.now.items result }
    ensures stays { result.ending ≡ None → Inside tables.now (length words.now.items) result.at.pc result.at.base }
    ensures status { StatusFits result.ending }
    ensures memory { result.ending ≢ Some Ending.NoMemory }
    ensures read { result.ending ≢ Some Ending.ReadFault }
{
    let frame = tables.own_frame(words, at);
    let ret = slot(words, at.base, frame - 1);
    let link = slot(words, at.base, frame - 2);
    let end = at.base + frame;
    if end == words.len() {
        return Next::ended(at, exit(ret, link));
    }
    if !tables.follows_call(tables.owner(at.pc), ret) {
        return Next::ended(at, Ending::WildReturn(ret));
    }
    let above = tables.frame_at((ret - 1) as usize);
    if !links(words, stack_max, end + above, link) {
        return Next::ended(at, Ending::WildLink(link));
    }
    Next::to(ret as usize, end)
}
