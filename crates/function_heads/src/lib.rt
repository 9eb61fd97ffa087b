//! The heads of a package's functions, and the rules of its declarations.
//!
//! What the types of parameters and results state is looked up among the names of the package: its types, and its constants, which array
//! types have in their lengths. No function is known there, since what they are is told by these types; so the package block is declared
//! after it, with each function's signature. The rules of the types are looked at in that block. `readInt` and `exit` are the two functions
//! without a body, known by their names and types.
//!
//! Also from here: whether a function may have its name and its number, the words of its signature, which declarations a package may have,
//! and which function is `main`. `specs/HeadTypes`, `specs/PackageBlock` and `specs/Heads` say what these give, `specs/HeadFaults` which
//! rules fail in them, and where.
//!
//! Where no rule fails and yet the types in a function's head aren't all known, declarations go in a circle: `heads_open` tells
//! the first such function at its name, as one that needs itself.
#![tactic(auto)]

mod declarations;
mod head_types;
mod heads;
mod open_heads;
mod package_block;

pub use declarations::{declaration_faults, main_number, no_main_fault};
pub use head_types::{signature_in, slots_of};
pub use heads::{Check, assemble, check_head, check_words, missing_body_fault};
pub use open_heads::heads_open;
pub use package_block::{add_items, is_external};
