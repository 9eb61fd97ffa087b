//! The instructions of the machine, and the tables of a code.
//!
//! A code is three flat tables: the instructions of all functions one after the other, for each instruction the number
//! of the function that it belongs to, and the functions. A `Code` is known to be well formed: the functions lie one after the
//! other, from the first instruction to the last, each instruction names
//! slots of its own function's frame and words of its arguments and results alone, a call names a function whose arguments
//! and results have room in the caller's slots, and where an instruction goes on, an instruction of the same function
//! stands. So a run never leaves the tables, and the machine tests none of this as it runs.
#![tactic(auto)]

mod code;
mod func;
mod instr;

pub use code::Code;
pub use func::Func;
pub use instr::{
    Added, BinFault, BinOp, Direction, Instr, MoveEvent, Sameness, StoreEvent, UnOp, bin, bit, un,
};
