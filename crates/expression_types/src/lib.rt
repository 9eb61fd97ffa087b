//! The types of expressions: what the rules of the language give each, or the first rule that fails in it.
//!
//! An expression gives a constant, whose value is exact and which has a type or none, or a value of a type, or all the results of a call;
//! an untyped constant takes its type where a value is wanted, and a number where an int can hold it. A form that is left out of the
//! profile is refused at its first byte. All rules are looked at, also after one that failed, but never one whose operands gave nothing; of
//! those that fail the one that stands first is reported. `specs/Typing` says what an expression gives in a scope, `specs/Faults` which rules
//! fail in it, and where. Neither side is made from the other; the proofs show that exactly one of them speaks, where each name has a type.
#![tactic(auto)]

mod conditions;
mod declared;
mod expressions;
mod literals;
mod measures;

pub use conditions::{Condition, Test, check_condition, check_test};
pub use declared::{check_before, fault_before, spec_wanted};
pub use expressions::{
    Checked, Listed, Single, check_early, check_expr, check_list, check_single, check_stated,
};
pub use literals::Stated;
pub use measures::early_value_fault;
