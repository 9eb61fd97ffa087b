//! The ranges of `limits` at their ends.

use limits::{LimitFault, Limits};
use std::test::Fail;

#[test]
fn ranges(rt: HostRuntime) -> Result<(), Fail> {
    let top: u64 = 4_294_967_296;
    // Start, most words of stack and heap, and the fault.
    let table: [(u64, u64, u64, Option<LimitFault>); 9] = [
        (64, 131_072, 1_048_576, None),
        (16, 16, 0, None),
        (15, 131_072, 1_048_576, Some(LimitFault::StartTooSmall)),
        (15, 14, top + 1, Some(LimitFault::StartTooSmall)),
        (64, 63, 1_048_576, Some(LimitFault::StartOverMax)),
        (64, 63, top + 1, Some(LimitFault::StartOverMax)),
        (64, top, top, None),
        (64, top + 1, 0, Some(LimitFault::OverTop)),
        (64, 64, top + 1, Some(LimitFault::OverTop)),
    ];
    for (i, (start, stack_max, heap_max, fault)) in table.iter().enumerate() {
        let got = match Limits::new(*start, *stack_max, *heap_max, 7) {
            Ok(limits) => {
                assert_eq!(rt; limits.start(), *start, "row {i}");
                assert_eq!(rt; limits.stack_max(), *stack_max, "row {i}");
                assert_eq!(rt; limits.heap_max(), *heap_max, "row {i}");
                assert_eq!(rt; limits.steps(), 7, "row {i}");
                None
            }
            Err(fault) => Some(fault),
        };
        assert_eq!(rt; got, *fault, "row {i}");
    }
    Ok(())
}
