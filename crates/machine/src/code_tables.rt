//! The tables of a well-formed code, as a run reads them.
ghost use Rattle.std.specs.Prelude.{◌≡◌, ◌+◌, ◌-◌, ◌<◌, ◌≤◌, ◌^◌, length, slice_get, Some, IsTrue};
ghost use Rattle.isa.specs.Code.{IsCode};
ghost use Rattle.machine.specs.Machine.{frame_of, follows_call, owner_of, string_of};
ghost use Rattle.machine.specs.Inside.{Inside, Callable, Leads, Touches};

use crate::RunState;
use isa::{Code, Func, Instr};
use std::marker::Model;

/// The tables of a code. A run takes them once, so that its loop holds them in registers.
#[derive(Drop)]
pub struct Tables<'a> {
    instrs: &'a [Instr],
    owners: &'a [u32],
    funcs: &'a [Func],
    strings: &'a [Vec<u8>],
}

impl<'a> Model for Tables<'a> {
    ghost use Rattle.std.specs.Prelude.{map};
    ghost use Rattle.isa.specs.Code.{Tables as CodeTables, IsCode};

    ghost Value = { CodeTables };

    ghost view = { λ t. record {
      instrs = t.instrs.now;
      owners = t.owners.now;
      funcs = t.funcs.now;
      strings = map (λ bytes. bytes.items) t.strings.now;
    } };

    ghost invariant = { λ t. IsCode (record {
      instrs = t.instrs.now;
      owners = t.owners.now;
      funcs = t.funcs.now;
      strings = map (λ bytes. bytes.items) t.strings.now;
    }) };
}

impl<'a> Tables<'a> {
    /// The tables of a code.
    #[inline(always)]
    pub fn of(code: &'a Code) -> Tables<'a>
        ensures value { result ≡ code.now }
        ensures is_code { IsCode result }
    {
        Tables {
            instrs: code.instrs(),
            owners: code.owners(),
            funcs: code.funcs(),
            strings: code.strings(),
        }
    }

    // The number of a place's function.
    #[inline(always)]
    pub(crate) fn owner(&self, place: usize) -> u32
        requires { place < length self.now.instrs }
        ensures { result ≡ owner_of self.now place }
    {
        let owners = self.owners;
        owners[place]
    }

    // The words of the frame of a place's function.
    #[inline(always)]
    pub(crate) fn frame_at(&self, place: usize) -> usize
        requires { place < length self.now.instrs }
        ensures is { result ≡ frame_of self.now (owner_of self.now place) }
        ensures small { result < 2 ^ 16 }
        ensures linked { 2 ≤ result }
    {
        let owners = self.owners;
        let funcs = self.funcs;
        funcs[owners[place] as usize].frame as usize
    }

    // The words of the frame that stands inside the words.
    #[inline(always)]
    pub(crate) fn own_frame(&self, _words: &Vec<u64>, at: RunState) -> usize
        requires inside { Inside self.now (length _words.now.items) at.pc at.base }
        requires place { at.pc < length self.now.instrs }
        ensures is { result ≡ frame_of self.now (owner_of self.now at.pc) }
        ensures small { result < 2 ^ 16 }
        ensures linked { 2 ≤ result }
        ensures room { at.base + result ≤ length _words.now.items }
    {
        self.frame_at(at.pc)
    }

    // A function that can be called from the frame at an index.
    #[inline(always)]
    pub(crate) fn callee(&self, _words: &Vec<u64>, _base: usize, func: u32) -> Func
        requires { Callable self.now (length _words.now.items) _base func }
        ensures is { slice_get self.now.funcs func ≡ Some result }
        ensures linked { 2 ≤ result.frame }
        ensures starts { slice_get self.now.owners result.start ≡ Some func }
        ensures room { _base + (result.arguments + result.results) ≤ length _words.now.items }
    {
        self.funcs[func as usize]
    }

    // The bytes of a string.
    #[inline(always)]
    pub(crate) fn string(&self, text: u32) -> &[u8]
        requires { text < length self.now.strings }
        ensures { result.now ≡ string_of self.now text }
    {
        &self.strings[text as usize]
    }

    // Whether a place stands after a call of a function.
    #[inline(always)]
    pub(crate) fn follows_call(&self, f: u32, ret: u64) -> bool
        ensures is { result ≡ follows_call self.now f ret }
        ensures inside { IsTrue result → (0 < ret) × (ret ≤ length self.now.instrs) }
        ensures named { IsTrue result → slice_get self.now.instrs (ret - 1) ≡ Some (Instr.Call f) }
        ensures is_code { IsCode self.now }
    {
        let instrs = self.instrs;
        if ret == 0 || ret > instrs.len() as u64 {
            return false;
        }
        match instrs[(ret - 1) as usize] {
            Instr::Call { func } => func == f,
            _ => false,
        }
    }

    // The instruction at a place.
    #[inline(always)]
    pub(crate) fn fetch(&self, _words: &Vec<u64>, at: RunState) -> &Instr
        requires inside { Inside self.now (length _words.now.items) at.pc at.base }
        requires place { at.pc < length self.now.instrs }
        ensures is { slice_get self.now.instrs at.pc ≡ Some result.now }
        ensures touches { Touches self.now (length _words.now.items) at.base result.now }
        ensures leads { Leads self.now (length _words.now.items) at.pc at.base result.now }
    {
        let instrs = self.instrs;
        &instrs[at.pc]
    }
}
