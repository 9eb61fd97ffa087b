//! Array types, as they stand before the braces of literals (Go specification, "Array types").

use crate::answers::check_rows;
use std::test::Fail;

/// Of an array type that is refused nothing is said of the elements that the literal has. One that the table doesn't have is left out.
const LENGTHS: &str = "
[(n) + 1](int){} => [3]int
[n]P{} => [2]P
[0]int{} => 16 at 1
[2][0]int{} => 16 at 4
[65536]int{} => 21 at 1
[32768]P{} => 21 at 1
[i]int{} => 14 at 2
[true]int{} => 14 at 2
[-1]int{} => 13 at 2
[1 << 63]int{} => 13 at 2
[q]int{} => 1 at 2
[0]q{} => 1 at 4
[2]int{} => 20 at 1
[2]int{{1}} => 20 at 1
[32767]P{} => 20 at 1
";

#[test]
fn lengths(rt: HostRuntime) -> Result<(), Fail> {
    check_rows(&rt, rt.alloc(), LENGTHS)
}
