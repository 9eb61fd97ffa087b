//! The tables of a code.
ghost use Rattle.std.specs.Prelude.{◌≡◌, map};
ghost use Rattle.isa.specs.Code.{IsCode};

use crate::{Func, Instr};
use std::marker::Model;

/// A code: the instructions of all functions, the number of the function that each belongs to, and the functions by
/// their numbers, and the strings by theirs. Each instruction fits its place.
#[derive(Drop)]
pub struct Code {
    instrs: Vec<Instr>,
    owners: Vec<u32>,
    funcs: Vec<Func>,
    strings: Vec<Vec<u8>>,
}

impl Model for Code {
    ghost use Rattle.std.specs.Prelude.{map};
    ghost use Rattle.isa.specs.Code.{Tables, IsCode};

    ghost Value = { Tables };

    ghost view = { λ c. record { instrs = c.instrs.items; owners = c.owners.items; funcs = c.funcs.items; strings = map (λ bytes. bytes.items) c.strings.items } };

    ghost invariant = { λ c. IsCode (record { instrs = c.instrs.items; owners = c.owners.items; funcs = c.funcs.items; strings = map (λ bytes. bytes.items) c.strings.items }) };
}

impl Code {
    /// The code of tables that are one.
    pub fn made(
        instrs: Vec<Instr>,
        owners: Vec<u32>,
        funcs: Vec<Func>,
        strings: Vec<Vec<u8>>,
    ) -> Code
        requires { IsCode (record { instrs = instrs.items; owners = owners.items; funcs = funcs.items; strings = map (λ bytes. bytes.items) strings.items }) }
        ensures { result ≡ record { instrs = instrs.items; owners = owners.items; funcs = funcs.items; strings = map (λ bytes. bytes.items) strings.items } }
    {
        Code {
            instrs,
            owners,
            funcs,
            strings,
        }
    }

    /// The instructions, by their places.
    #[inline(always)]
    pub fn instrs(&self) -> &[Instr]
        ensures value { result.now ≡ self.now.instrs }
        ensures is_code { IsCode self.now }
    {
        &self.instrs
    }

    /// The number of each place's function.
    #[inline(always)]
    pub fn owners(&self) -> &[u32]
        ensures { result.now ≡ self.now.owners }
    {
        &self.owners
    }

    /// The functions, by their numbers.
    #[inline(always)]
    pub fn funcs(&self) -> &[Func]
        ensures { result.now ≡ self.now.funcs }
    {
        &self.funcs
    }

    /// The strings, by their numbers.
    pub fn strings(&self) -> &[Vec<u8>]
        ensures { map (λ bytes. bytes.items) result.now ≡ self.now.strings }
    {
        &self.strings
    }
}
