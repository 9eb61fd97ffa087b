//! What no clause of `region` says: that memory is given where it is ample; and a worked example.

use region::Region;
use std::alloc::Global;
use std::test::Fail;

// The words from the mark on.
fn all_words(alloc: Global, region: &Region) -> Result<Vec<u64>, Fail> {
    let mut words = Vec::new(alloc);
    for at in region.mark()..region.hi() {
        words.push(region.get(at))?;
    }
    Ok(words)
}

#[test]
fn stack_moves_into_twice_the_room(rt: HostRuntime) -> Result<(), Fail> {
    let base = 1 << 40;
    let mut old = Region::new(rt.alloc(), base, 16)?;
    assert_eq!(rt;
        (old.lo(), old.mark(), old.hi(), old.capacity()),
        (base, base + 16, base + 16, 16)
    );
    old.lower_mark(base + 8);
    old.set(base + 9, 5);
    assert_eq!(rt; old.get(base + 9), 5);

    let mut new = Region::new(rt.alloc(), base + 32, 32)?;
    new.copy_top(&old);
    assert_eq!(rt; new.mark(), base + 56);
    assert_eq!(rt; new.get(base + 57), 5);
    assert_eq!(rt;
        all_words(rt.alloc(), &new)?.as_slice(),
        [0, 5, 0, 0, 0, 0, 0, 0].as_slice()
    );
    Ok(())
}

#[test]
fn block_serves_again(rt: HostRuntime) -> Result<(), Fail> {
    let mut region = Region::new(rt.alloc(), 64, 16)?;
    region.lower_mark(64);
    region.set(64, 1);
    region.set(78, 2);
    region.set(79, 3);
    region.raise_mark(78);
    assert_eq!(rt;
        all_words(rt.alloc(), &region)?.as_slice(),
        [2, 3].as_slice()
    );

    region.reset(100, 8);
    assert_eq!(rt;
        (region.lo(), region.mark(), region.hi(), region.capacity()),
        (100, 108, 108, 16)
    );
    region.lower_mark(105);
    assert_eq!(rt;
        all_words(rt.alloc(), &region)?.as_slice(),
        [0, 0, 0].as_slice()
    );
    Ok(())
}
