//! Selectors and indices (Go specification, "Selectors", "Index expressions").

use crate::answers::check_rows;
use std::test::Fail;

const SELECTORS: &str = "
p.x => int place
(p).y => int place
l.on => bool place
l.ends => [2]P place
l.ends[1].y => int place
P{1, 2}.x => int
L{}.ends => [2]P
p.z => 1 at 3
i.x => 14 at 1
a.x => 14 at 1
n.x => 14 at 1
nil.x => 14 at 1
p.x.y => 14 at 1
q.x => 1 at 1
";

const INDICES: &str = "
a[2] => int place
a[i] => int place
a[a[p.x]] => int place
m[1] => [3]int place
m[i][0] => int place
(m)[n - 1][n] => int place
a[3] => 13 at 1
a[-1] => 13 at 1
a[1 << 63] => 13 at 1
m[2][3] => 13 at 1
a[true] => 14 at 1
a[nil] => 14 at 1
a[a] => 14 at 1
i[0] => 14 at 1
n[0] => 14 at 1
p[0] => 14 at 1
a[q] => 1 at 3
[3]int{}[0] => 20 at 1
[3]int{}[true] => 20 at 1
L{}.ends[0].y => 20 at 1
";

#[test]
fn selectors(rt: HostRuntime) -> Result<(), Fail> {
    check_rows(&rt, rt.alloc(), SELECTORS)
}

#[test]
fn indices(rt: HostRuntime) -> Result<(), Fail> {
    check_rows(&rt, rt.alloc(), INDICES)
}
