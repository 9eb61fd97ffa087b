//! Composite literals (Go specification, "Composite literals"), and comparisons of wholes ("Comparison operators").

use crate::answers::check_rows;
use std::test::Fail;

const STRUCTS: &str = "
P{} => P
P{1, 2} => P
P{y: 2} => P
P{y: 2, x: 1} => P
P{x: i, y: a[0]} => P
L{[2]P{}, true} => L
L{ends: [2]P{{1, 2}}} => L
P{1} => 8 at 1
P{1, 2, 3} => 8 at 1
P{1, y: 2} => 14 at 1
P{z: 1} => 1 at 3
P{x: 1, x: 2} => 2 at 9
P{true, 1} => 4 at 3
P{nil, 1} => 4 at 3
P{y: true} => 4 at 6
P{x: 1 << 63} => 12 at 6
P{{1}, 2} => 14 at 3
L{ends: {{1, 2}}} => 14 at 9
L{[2]P{{1}}, true} => 8 at 8
P{x: 1, y: q} => 1 at 12
Q{z: 1} => 1 at 1
n{} => 14 at 1
int8{} => 20 at 1
";

const ARRAYS: &str = "
[3]int{} => [3]int
[3]int{1, 2} => [3]int
[n + 1]int{i, i, i} => [3]int
[2]P{{1, 2}, {y: 3}} => [2]P
[2]P{P{1, 2}} => [2]P
[2][3]int{{1}, {2, 3}} => [2][3]int
[3]int{1, 2, 3, 4} => 8 at 1
[2][3]int{{1, 2, 3, 4}} => 8 at 11
[3]int{x: 1} => 20 at 1
[3]int{true} => 4 at 8
[3]int{1 << 63} => 12 at 8
[3]int{{1}} => 14 at 8
[2]P{{z: 1}} => 1 at 7
int{1} => 14 at 1
";

const COMPARISONS: &str = "
P{1, 2} == p => bool
a == [3]int{} => bool
l != L{} => bool
p == a => 4 at 1
p == nil => 4 at 1
p < p => 14 at 1
";

#[test]
fn struct_literals(rt: HostRuntime) -> Result<(), Fail> {
    check_rows(&rt, rt.alloc(), STRUCTS)
}

#[test]
fn array_literals(rt: HostRuntime) -> Result<(), Fail> {
    check_rows(&rt, rt.alloc(), ARRAYS)
}

#[test]
fn comparisons(rt: HostRuntime) -> Result<(), Fail> {
    check_rows(&rt, rt.alloc(), COMPARISONS)
}
