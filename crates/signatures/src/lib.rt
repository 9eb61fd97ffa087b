//! Names with types, and what a package declares: what parameters, results and other new variables are, and the names of the package.
//!
//! The constants, package variables and structs of a package are declared with numbers, and nothing is known yet of the first two; so are
//! the names of its functions. The first declaration of a name stays. The fields of each struct are noted by their names. Parameters,
//! results and other new variables are noted one by one in the innermost block, each with a site of its own. `specs/Signatures`,
//! `specs/Structs` and `specs/Entries` say what names and heads give; `specs/SignatureFaults` and `specs/EntryFaults` which rules fail in
//! them, and where.
#![tactic(auto)]

mod entries;
mod failing;
mod signatures;
mod slots;
mod structs;

pub use entries::{Entries, Role, check_entries, entry_lefts, sites_of};
pub use failing::fault_where;
pub use signatures::{
    add_constants, add_heads, add_name, add_package_variables, add_types, function_name_fault,
    is_init, is_small, may_be_named, size_fault,
};
pub use slots::{Slot, has_some, is_named, slot_types, slots_each, slots_with, types_of};
