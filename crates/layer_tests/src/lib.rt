//! What single crates answer, from the outside: tests of their public calls, and nothing else.
//!
//! A test is proved like any function, and a crate with tests is proved a second time for them. So tests that need only the public calls of
//! a crate stand here, above the crates that they test, and each of those is proved once. A module tests one crate, which its head names.
#![tactic(auto)]

#[cfg(test)]
mod declared_structs;
#[cfg(test)]
mod demo_programs;
#[cfg(test)]
mod devices;
#[cfg(test)]
mod folding;
#[cfg(test)]
mod frame_layouts;
#[cfg(test)]
mod graphs;
#[cfg(test)]
mod heap;
#[cfg(test)]
mod marked_sites;
#[cfg(test)]
mod run_limits;
#[cfg(test)]
mod scanner;
#[cfg(test)]
mod scopes;
#[cfg(test)]
mod sites;
#[cfg(test)]
mod slice_frames;
#[cfg(test)]
mod stack_region;
#[cfg(test)]
mod string_literals;
#[cfg(test)]
mod type_table;
