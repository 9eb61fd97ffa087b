//! The block of words that holds the stack at its upper end.
ghost use Rattle.std.specs.Prelude.{◌≡◌, ◌+◌, ◌-◌, ◌<◌, ◌≤◌, ◌^◌, ◌++◌, length, drop, replicate, IfOk, OnErr};

use base::NoMemory;
use std::alloc::Global;
use std::cmp::{max, min};

// `below` zeros, and these words after them.
fn behind_zeros(alloc: Global, below: usize, words: &[u64]) -> Result<Vec<u64>, NoMemory>
    requires { below + length words.now ≤ 2 ^ 33 }
    ensures { IfOk result (λ v. v.items ≡ replicate below 0 ++ words.now) }
{
    let mut block = Vec::with_capacity(alloc, below + words.len())?;
    block.resize(below, 0)?;
    block.extend_from_slice(words)?;
    Ok(block)
}

// Doubles a block at its low end, or more where `need` words would not have room below `base`, or less where the block
// would have more than `stack_max`. The answer is where that index is then.
#[inline(never)]
fn extend(
    alloc: Global,
    block: &mut Vec<u64>,
    base: usize,
    need: usize,
    stack_max: u64,
) -> Result<usize, NoMemory>
    requires sizes { (base ≤ length block.old.items) × (length block.old.items ≤ stack_max) × (stack_max ≤ 2 ^ 32) }
    requires fits { length block.old.items - base + need ≤ stack_max }
    ensures room { IfOk result (λ b. (need ≤ b) × (b ≤ length block.new.items) × (length block.new.items ≤ stack_max)) }
    ensures words { IfOk result (λ b. drop b block.new.items ≡ drop base block.old.items) }
    ensures same { OnErr result (block.new ≡ block.old) }
{
    let used = block.len() - base;
    let long = min(max(2 * block.len(), used + need), stack_max as usize);
    let below = long - used;
    let wide = behind_zeros(alloc, below, &block[base..])?;
    *block = wide;
    Ok(below)
}

/// Makes room for `need` words below `base` in a block that may have at most `stack_max`. The answer is where that index
/// is then. Where memory is refused, the block is as it was.
#[inline(always)]
pub fn make_room(
    alloc: Global,
    block: &mut Vec<u64>,
    base: usize,
    need: usize,
    stack_max: u64,
) -> Result<usize, NoMemory>
    requires sizes { (base ≤ length block.old.items) × (length block.old.items ≤ stack_max) × (stack_max ≤ 2 ^ 32) }
    requires fits { length block.old.items - base + need ≤ stack_max }
    ensures room { IfOk result (λ b. (need ≤ b) × (b ≤ length block.new.items) × (length block.new.items ≤ stack_max)) }
    ensures words { IfOk result (λ b. drop b block.new.items ≡ drop base block.old.items) }
    ensures same { OnErr result (block.new ≡ block.old) }
    ensures refused { OnErr result (base < need) }
{
    if need <= base {
        return Ok(base);
    }
    extend(alloc, block, base, need, stack_max)
}
