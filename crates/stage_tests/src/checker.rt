//! Texts with their typed programs.

use crate::programs::{write_program, write_stmts};
use compile::{Compiled, compile};
use std::alloc::{AllocError, Global};
use std::test::Fail;

/// What stands before each of the bodies: f0, f1 and f2, the first two sites, and the two functions that are none.
const BEFORE: &str =
    "package main; func f(n int, b bool) int { return n }; func g() (int, bool) { return 1, true }; func e() { }; func exit(int); func readInt() (int, bool); func main() {";

/// Bodies of `main`, on a line of their own (Go specification, "Statements"). Names stand for the innermost variable, `:=` declares what
/// the block doesn't have, and each iteration has its own copy of the variables of the header.
const BODIES: &str = "
a, b := 1, true => (set +v2 +v3 = 1 true)
a := 1; a, c := 2, a => (set +v2 = 1) (set v2 +v3 = 2 v2)
a := 1; { a := a; a = 3 }; a = 4 => (set +v2 = 1) { (set +v3 = v2) (set v3 = 3) } (set v2 = 4)
a := 1; _, (a) = a, 2 => (set +v2 = 1) (set _ v2 = v2 2)
var a, _ int; var b = a + 1; var _, c bool = true, false => (new v2) (set +v3 = (+ v2 1)) (set _ +v4 = true false)
var (a int; b, c = a, a) => (new v2) (set +v3 +v4 = v2 v2)
a := 7; a /= 2; a <<= 1; a -= a; a++; a-- => (set +v2 = 7) (/@11= v2 2) (<<@19= v2 1) (-= v2 v2) (+1 v2) (-1 v2)
a := 1; a = -a + ^a*2 - a/3%4 => (set +v2 = 1) (set v2 = (- (+ (- v2) (* (^ v2) 2)) (%@28 (/@26 v2 3) 4)))
a := 1<<3 + 4/3; b := a < 9 && true || !(a == 1 << 2) => (set +v2 = 9) (set +v3 = (|| (&& (< v2 9) true) (! (== v2 4))))
a := f(1, true); f(a, false) => (set +v2 = (f0 1 true)) (do (all f0 v2 false))
a, b := g(); a, _ = g(); f(g()) => (set +v2 +v3 = (all f1)) (set v2 _ = (all f1)) (do (all f0 (all f1)))
e(); (e()) => (do (all f2)) (do (all f2))
n, ok := readInt(); readInt(); f(readInt()); var _, m = readInt() => (set +v2 +v3 = (all readInt)) (do (all readInt)) (do (all f0 (all readInt))) (set _ +v4 = (all readInt))
exit(f(3, true)) => (exit@1 (f0 3 true))
println(\"a\", 1, (\"b\"), true); print(); panic(\"c\"); panic(5) => (println s0 int 1 s1 bool true) (print) (panic@40 s2) (panic@52 int 5)
if a := 1; a > 0 { a = 2 } else if b := a; b < 0 { } else { b = 3 } => { (set +v2 = 1) (if (> v2 0) { (set v2 = 2) } { { (set +v3 = v2) (if (< v3 0) { } { (set v3 = 3) }) } }) }
if true { } => (if true { } { })
for i, j := 0, 1; i < j; i++ { i := i; continue } => { (set +v2 +v3 = 0 1) (loop v2 v3; (< v2 v3); { (+1 v2) } { (set +v4 = v2) (continue) }) }
i := 0; for i = 1; ; { break } => (set +v2 = 0) { (set v2 = 1) (loop;; { } { (break) }) }
for f(1, true) < 2 { } => (loop; (< (f0 1 true) 2); { } { })
for i := range 3 { for range i { } } => (count 3 +v2 { (count v2 _ { }) })
i := 0; for i = range i { }; for _ = range 2 { } => (set +v2 = 0) (count v2 v2 { }) (count 2 _ { })
var a [3]int; for i, x := range a { a[i] = x } => (new v2) (elements v5 of 3 v2 +v3 +v4 { (set v2[ v3 of 3]@38 = v4) })
var a [2]bool; for range a { }; for i := range a { i = cap(a) - len(a) } => (new v2) (indices 2 _ { }) (indices 2 +v3 { (set v3 = 0) })
return => (return)
";

/// Whole programs after the clause of their package, on a line of their own: their functions, sites and strings in the order of the text.
const PROGRAMS: &str = "
func main() { } => f0 (func@6 0+0::: { })
func f(a int, _ bool, b int) (int, bool) { return b, true }; func main() { c := 1; f(c, true, 2) } => f1 (func@6 0+2: v0 _ v1: int bool int: int bool { (return v1 true) }) (func@67 2+1::: { (set +v2 = 1) (do (all f0 v2 true 2)) }) int@8 int@23 int@76
func main() { }; func f(int) (q, r int) { q = 1; return } => f0 (func@6 0+0::: { }) (func@23 0+2: _: int: int int v0 v1 { (set v0 = 1) (return) }) int@31 int@34
func f() bool { print(\"b\"); return c }; func main() { print(\"a\", \"b\") }; const c = b > 1; const b = 2 => f1 (func@6 0+0::: bool { (print s0) (return true) }) (func@46 0+0::: { (print s1 s2) }) \"b\" \"a\" \"b\"
func exit(int); func main() { exit(0) }; func readInt() (int, bool); func f() { } => f0 (func@22 0+0::: { (exit@31 0) }) (func@75 0+0::: { })
func exit(n int) { }; func main() { exit(0) } => f1 (func@6 0+1: v0: int: { }) (func@28 1+0::: { (do (all f0 0)) }) int@11
";

/// The body of `main`, which stands last.
fn write_main(compiled: &Compiled, out: &mut String) -> Result<(), AllocError> {
    match compiled.program.funcs.last() {
        Some(func) => write_stmts(&func.body, out),
        None => out.push_str("no function"),
    }
}

/// What a text comes to: the body of `main` or the whole program, or the fault.
fn write_outcome(
    alloc: Global,
    text: &str,
    is_body: bool,
    out: &mut String,
) -> Result<(), AllocError> {
    match compile(alloc, text.as_bytes()) {
        Ok(compiled) if is_body => write_main(&compiled, out),
        Ok(compiled) => write_program(&compiled.program, out),
        Err(fault) => write!(out, "{fault:?}"),
    }
}

#[test]
fn bodies(rt: HostRuntime) -> Result<(), Fail> {
    let alloc = rt.alloc();
    for row in BODIES.lines() {
        match row.split_once(" => ") {
            Some((line, want)) => {
                let text = format!(in alloc; "{BEFORE}\n{line}\n}}")?;
                let mut got = String::new(alloc);
                write_outcome(alloc, text.as_str(), true, &mut got)?;
                assert_eq!(rt; got.as_str().trim_start(), want, "{line}");
            }
            None => assert!(rt; row.is_empty(), "{row}"),
        }
    }
    Ok(())
}

#[test]
fn programs(rt: HostRuntime) -> Result<(), Fail> {
    let alloc = rt.alloc();
    for row in PROGRAMS.lines() {
        match row.split_once(" => ") {
            Some((line, want)) => {
                let text = format!(in alloc; "package main\n{line}")?;
                let mut got = String::new(alloc);
                write_outcome(alloc, text.as_str(), false, &mut got)?;
                assert_eq!(rt; got.as_str(), want, "{line}");
            }
            None => assert!(rt; row.is_empty(), "{row}"),
        }
    }
    Ok(())
}
