//! Constants with their types.
//!
//! A constant has an exact value, and a type or none. A type holds it or not; where it has to be a value, an int holds it or not.
#![tactic(auto)]

mod constant;

pub use constant::{
    Constant, Fixed, constant_type, int_constant, is_held, is_negative, is_zero, untyped,
};
