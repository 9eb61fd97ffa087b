//! The machine: one step, and a run of steps.
//!
//! One definition says what a step does: `act` takes the tables of a code, the most words that the stack may have, the
//! items of the input, and a state, which is the place of the next instruction, the words of the stack in use, how many
//! items were read, and the heap. It gives what comes of it, a line for each instruction: the machine goes on in a state
//! or stops by an ending, each with the events that it tells. The contract of `step` speaks of `act`, the one of `run` of its
//! iteration, and whoever has a theorem on the code has it on the iteration too, so the two meet there.
//!
//! In the definition the stack is the list of its used words from the lowest address: the running frame comes first,
//! and slot a is word a. A call puts a frame before them, a return takes its frame away. A place is named by its distance
//! from the stack's upper end, and its address follows from that alone. A frame's two highest words are its links: the
//! place after the call, and the address after the caller's frame. A return tests both, so words that a program wrote
//! over are found out and not followed.
//!
//! Some instructions reach memory by an address: the words from it on must be taken ones of the heap, or lie in the stack
//! from the running frame on. One definition says which of both, or that they lie nowhere, and then the run stops. Such a
//! spot is what words move from and to, as through a copy. By the address 0 a load or a store panics. The heap is a part of
//! the state. Three instructions take words of it: `Alloc`, `Make`, and an `Append` whose elements have no room. A slice's
//! header is tested by `Append` alone; the others read its words as numbers with a sign.
//!
//! The items of the input have numbers, and the definition takes them as a function of these, as though all were known
//! before the run. In truth nobody knows an item before it was read. So a contract tells the answers that came from the
//! reader, and says what was done for whatever items have them from the number of reads on. Where a read fails, the
//! definition asks for an item after just these answers, and the sink took what is printed up to there.
//!
//! In the program the stack stands at the upper end of a block of words, and its lowest word has an index: slot a is
//! `block[base + a]`. What lies below the index is not used and no definition sees it. Where a call's frame has no room
//! there, the block is doubled at its low end; what else takes memory is the heap. `Inside` says that the frame lies within the
//! block. It holds at the start, each step keeps it (a return by its tests), and a well-formed code gives the rest, so
//! that no slot is tested as a run goes on. What an instruction writes goes to the sink at once, so a fault ends the run
//! at the very instruction that met it.
#![tactic(auto)]

mod allocating;
mod block;
mod code_tables;
mod links;
mod memory;
mod run_state;
mod running;
mod slices;
mod slots;
mod spots;
mod steps;

pub use code_tables::Tables;
pub use memory::Spot;
pub use run_state::{Ending, Next, Panic, RunState};
pub use running::run;
pub use steps::step;
