//! What no clause of `demo_gen` says: that memory is given where it is ample, and the lengths of some texts.

use demo_gen::text;
use std::test::Fail;

#[test]
fn lengths(rt: HostRuntime) -> Result<(), Fail> {
    assert_eq!(rt; text(rt.alloc(), 1)?.len(), 207);
    assert_eq!(rt; text(rt.alloc(), 3)?.len(), 379);
    assert_eq!(rt; text(rt.alloc(), 400)?.len(), 36_626);
    Ok(())
}
