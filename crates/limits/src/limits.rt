//! The limits of a run.
ghost use Rattle.std.specs.Prelude.{◌≡◌, ◌≤◌, IfOk, IfErr};
ghost use Rattle.limits.specs.Limits.{Bounds, bounds, AreLimits, IsFirstFault, fault_number, most_words};

use std::marker::Model;
use thiserror::Error;

/// The fewest words that a stack starts with.
const LEAST_START: u64 = 16;

/// The most words that a stack or a heap may be allowed.
const MOST_WORDS: u64 = 1 << 32;

/// Why numbers are no limits of a run.
#[derive(Clone, Copy, Debug, PartialEq, Eq, Error)]
pub enum LimitFault {
    /// The stack would start with fewer than `LEAST_START` words.
    #[error("the stack starts with too few words")]
    StartTooSmall,
    /// The stack would start with more words than it may ever have.
    #[error("the stack starts with more words than it may have")]
    StartOverMax,
    /// The stack or the heap would be allowed more than `MOST_WORDS` words.
    #[error("the stack or the heap is allowed too many words")]
    OverTop,
}

impl LimitFault {
    /// The number by which the fault is reported.
    pub fn number(self) -> u8
        ensures { result ≡ fault_number self }
    {
        match self {
            LimitFault::StartTooSmall => 1,
            LimitFault::StartOverMax => 2,
            LimitFault::OverTop => 3,
        }
    }
}

/// The limits of a run: the words that the stack starts with, the most words of the stack and of the heap, and the most
/// instructions. Words have 64 bits.
#[derive(Drop)]
pub struct Limits {
    start: u64,
    stack_max: u64,
    heap_max: u64,
    steps: u64,
}

impl Model for Limits {
    ghost Value = { Bounds };

    ghost view = { λ l. bounds l.start l.stack_max l.heap_max l.steps };

    ghost invariant = { λ l. AreLimits (bounds l.start l.stack_max l.heap_max l.steps) };
}

impl Limits {
    /// The limits with these numbers. A stack starts with at least `LEAST_START` words and at most those that it may
    /// have, and neither stack nor heap may have more than `MOST_WORDS` words. The fault is the first of them in this order.
    pub fn new(start: u64, stack_max: u64, heap_max: u64, steps: u64) -> Result<Limits, LimitFault>
        ensures is { IfOk result (λ l. l ≡ bounds start stack_max heap_max steps) }
        ensures taken { IfOk result (λ l. AreLimits (bounds start stack_max heap_max steps)) }
        ensures refused { IfErr result (IsFirstFault (bounds start stack_max heap_max steps)) }
    {
        if start < LEAST_START {
            return Err(LimitFault::StartTooSmall);
        }
        if start > stack_max {
            return Err(LimitFault::StartOverMax);
        }
        if stack_max > MOST_WORDS || heap_max > MOST_WORDS {
            return Err(LimitFault::OverTop);
        }
        Ok(Limits {
            start,
            stack_max,
            heap_max,
            steps,
        })
    }

    /// The words that the stack starts with.
    pub fn start(&self) -> u64
        ensures { result ≡ self.now.start }
    {
        self.start
    }

    /// The most words of the stack.
    pub fn stack_max(&self) -> u64
        ensures is { result ≡ self.now.stack_max }
        ensures low { result ≤ most_words }
    {
        self.stack_max
    }

    /// The most words of the heap.
    pub fn heap_max(&self) -> u64
        ensures is { result ≡ self.now.heap_max }
        ensures low { result ≤ most_words }
    {
        self.heap_max
    }

    /// The most instructions.
    pub fn steps(&self) -> u64
        ensures { result ≡ self.now.steps }
    {
        self.steps
    }
}
