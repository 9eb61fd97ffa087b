//! Texts with their trees, and the limit of the nesting.

use crate::trees::{write_stmts, write_tree};
use parse_go::{ParseFault, parse};
use scan_go::{Tokens, scan};
use std::alloc::{AllocError, Global};
use std::test::Fail;
use syntax::{Decl, Tree};

/// Bodies of functions (Go specification, "Expressions", "Types").
const EXPRESSIONS: &str = "
1+2*x => (+ 1 (* 2 x))
1-2-x => (- (- 1 2) x)
-1*2 => (* (- 1) 2)
!x==x||x&&x => (|| (== (! x) x) (&& x x))
x<1+2<<x => (< x (+ 1 (<< 2 x)))
a%b/c>>d <= e => (<= (>> (/ (% a b) c) d) e)
a > b != (c >= d) => (!= (> a b) [(>= c d)])
-x.y(1)[2] => (- (at (call (. x y) 1) 2))
*x.y&^(+x) => (&^ (* (. x y)) [(+ x)])
x[1:2][:][1:][:2] => (slice (slice (slice (slice x 1 2) _ _) 1 _) _ 2)
x([]x, *x, ([2]*x)...,) => (spread x (of x) (* x) [(array 2 (* x))])
f(1, []int, *T, (T), s) => (call f 1 (of int) (* T) [T] s)
x(1, x(),) => (call x 1 (call x))
[]x{1, y: 2, {}, {1},} => (literal (of x) 1 y: 2 (braces) (braces 1))
&x{y: {}}.z => (& (. (literal x y: (braces)) z))
[1+1](x){}[1] => (at (literal (array (+ 1 1) [x])) 1)
[][]int{{1}, {}} => (literal (of (of int)) (braces 1) (braces))
*[]x{} => (* (literal (of x)))
\"\"+(x)(^1) => (+ \"\" (call [x] (^ 1)))
x = 1+2*3<<4&^5 - 6|7^8 == 9 && a || b != c => (set x = (|| (&& (== (^ (| (- (+ 1 (&^ (<< (* 2 3) 4) 5)) 6) 7) 8) 9) a) (!= b c)))
x = +1 - -2 * !a ^ ^b * *p & &q => (set x = (^ (- (+ 1) (* (- 2) (! a))) (& (* (^ b) (* p)) (& q))))
var v x => (var v : x;)
var v *[2](x) => (var v : (* (array 2 [x]));)
var v [x{1}.y][]x => (var v : (array (. (literal x 1) y) (of x));)
if x { } => (if x { })
if 1+x { } => (if (+ 1 x) { })
if (x{1}) { } => (if [(literal x 1)] { })
if x(x{}) { } => (if (call x (literal x)) { })
if []x{1} { } => (if (literal (of x) 1) { })
";

/// Bodies of functions (Go specification, "Statements").
const STATEMENTS: &str = "
; ; { } => { }
f(); x => (call f) x
x, y = y, x => (set x y = y x)
a, b[1] = b, 1 => (set a (at b 1) = b 1)
x += 1; x++; a.b-- => (set x += 1) (++ x) (-- (. a b))
a <<= 2; a &^= 3 => (set a <<= 2) (set a &^= 3)
x, y := T{}, 2 => (new x y = (literal T) 2)
var x int; var y, z = 1, 2 => (var x : int;) (var y z = 1 2;)
var (x T; y []T = z;) => (var x : T; y : (of T) = z;)
var () => (var)
if ; x == (T{}) { } => (if (== x [(literal T)]) { })
if x := 1; x < 2 { } else if y { } else { x } => (if (new x = 1); (< x 2) { } else if y { } else { x })
for { break; continue } => (for { break continue })
for x < 1 { } => (for (< x 1) { })
for ; ; { } => (for _; _; _ { })
for i := 0; i < 3; i++ { } => (for (new i = 0); (< i 3); (++ i) { })
for x := []T{}; f(T{}); { } => (for (new x = (literal (of T))); (call f (literal T)); _ { })
for range x { } => (for range x { })
for x, y := range z { } => (for x y := range z { })
for a[0], b = range x { } => (for (at a 0) b = range x { })
return => (return)
return 1, x; { { } } => (return 1 x) { { } }
";

/// Whole texts, with the offsets of words, names and closing braces (Go specification, "Declarations and scope"); and some that
/// break off, with the column after their last byte.
const TEXTS: &str = "
package m => m@8
package m; const a = 1 => m@8 const@11 a = 1;
package m; const a, b int = 1, 2 => m@8 const@11 a b : int = 1 2;
package m; const (a = 1; b int = 2;) => m@8 const@11 a = 1; b : int = 2;
package m; const () => m@8 const@11
package m; var a, b int => m@8 var@11 a b : int;
package m; var a, b int = 1, 2 => m@8 var@11 a b : int = 1 2;
package m; var (a int; b = 1) => m@8 var@11 a : int; b = 1;
package m; var a *[n + 1][](*T) => m@8 var@11 a : (* (array (+ n 1) (of [(* T)])));
package m; type T struct { } => m@8 type@11 T@16 { }
package m; type T struct { a, b int; c []T } => m@8 type@11 T@16 { a b : int; c : (of T); }
package m; type (T struct { a int; }; U struct { }) => m@8 type@11 T@17 { a : int; } U@38 { }
package m; func f() => m@8 func@11 f@16 ( ) ( )
package m; func f(int) => m@8 func@11 f@16 ( int ) ( )
package m; func f(a, []b,) []T => m@8 func@11 f@16 ( a (of b) ) ( (of T) )
package m; func f(a, b int, c *T) int => m@8 func@11 f@16 [ a b : int; c : (* T); ] ( int )
package m; func f(a [2]int) () => m@8 func@11 f@16 [ a : (array 2 int); ] ( )
package m; func f() (int, error) => m@8 func@11 f@16 ( ) ( int error )
package m; func f(n int) (q, r int,) => m@8 func@11 f@16 [ n : int; ] [ q r : int; ]
package m; func f() { } => m@8 func@11 f@16 ( ) ( ) { }@22
package m; func f() { ;; x }; func g() => m@8 func@11 f@16 ( ) ( ) { x }@27 func@30 g@35 ( ) ( )
package => kind 1 at 8
package m; const (a = 1; b = 2 => kind 1 at 31
package m; var a * => kind 1 at 19
package m; type T struct { => kind 1 at 27
package m; type (T struct { } => kind 1 at 30
package m; func f() { }; func => kind 1 at 30
";

/// Words, what stands N times before a middle, the middle, what stands N times after it, the greatest N that is not too deep,
/// and the column that is with once more. The body of the function is one bracket, and a call is one higher than its parts.
const LIMITS: &str = "
|(|1|)|199|223
|- |1||199|423
||1|+1|200|424
|1*|1|-1|100|424
||f|()|200|424
||f|(1)|200|624
|f(||)|200|423
|f(|1|)|199|423
||x|.a|200|424
||x|[:]|200|624
|x[|1|]|199|423
|T{|1|}|199|423
|[]|x{}||199|423
|[|1|]x{}[1]|66|557
var x |*|T||199|229
|{||}|200|223
|if x{}else |{}||200|2223
";

fn write_fault(fault: &ParseFault, out: &mut String) -> Result<(), AllocError> {
    match (fault.number(), fault.pos()) {
        (Some(number), Some(pos)) => write!(out, "kind {number} at {}", pos.col),
        _ => out.push_str("no memory"),
    }
}

/// The body of the first function.
fn write_body(tree: &Tree, out: &mut String) -> Result<(), AllocError> {
    if let Some(Decl::Func(func)) = tree.decls.first() {
        if let Some(body) = &func.body {
            return write_stmts(&tree.text, &body.statements, out);
        }
    }
    out.push_str("no body")
}

/// What a parse gave: another text, the first body alone or the whole tree, or the fault.
fn write_parsed(
    parsed: &Result<Tree, ParseFault>,
    text: &str,
    is_body: bool,
    out: &mut String,
) -> Result<(), AllocError> {
    match parsed {
        Ok(tree) if tree.text.as_slice() != text.as_bytes() => out.push_str("another text"),
        Ok(tree) if is_body => write_body(tree, out),
        Ok(tree) => write_tree(tree, out),
        Err(fault) => write_fault(fault, out),
    }
}

/// The tree of the tokens of a text, or of its first body alone, or the fault.
fn write_outcome(
    alloc: Global,
    tokens: Tokens,
    text: &str,
    is_body: bool,
    out: &mut String,
) -> Result<(), AllocError> {
    let parsed = parse(alloc, tokens);
    write_parsed(&parsed, text, is_body, out)
}

fn outcome(alloc: Global, text: &str, is_body: bool) -> Result<String, Fail> {
    let tokens = scan(alloc, text.as_bytes())?;
    let mut out = String::new(alloc);
    write_outcome(alloc, tokens, text, is_body, &mut out)?;
    Ok(out)
}

#[test]
fn bodies(rt: HostRuntime) -> Result<(), Fail> {
    let alloc = rt.alloc();
    for table in [EXPRESSIONS, STATEMENTS] {
        for row in table.lines() {
            match row.split_once(" => ") {
                Some((line, want)) => {
                    let text = format!(in alloc; "package m; func f() {{\n{line}\n}}")?;
                    let got = outcome(alloc, text.as_str(), true)?;
                    assert_eq!(rt; got.as_str().trim_start(), want, "{line}");
                }
                None => assert!(rt; row.is_empty(), "{row}"),
            }
        }
    }
    Ok(())
}

#[test]
fn texts(rt: HostRuntime) -> Result<(), Fail> {
    let alloc = rt.alloc();
    for row in TEXTS.lines() {
        match row.split_once(" => ") {
            Some((text, want)) => {
                let got = outcome(alloc, text, false)?;
                assert_eq!(rt; got.as_str(), want, "{text}");
            }
            None => assert!(rt; row.is_empty(), "{row}"),
        }
    }
    Ok(())
}

fn push_times(out: &mut String, part: &str, times: u32) -> Result<(), AllocError> {
    for _ in 0..times {
        out.push_str(part)?;
    }
    Ok(())
}

/// What becomes of a body in which parts stand a number of times around a middle.
fn nested(
    alloc: Global,
    words: &str,
    parts: (&str, &str, &str),
    times: u32,
) -> Result<String, Fail> {
    let (front, middle, back) = parts;
    let mut text = format!(in alloc; "package m; func f() {{ {words}")?;
    push_times(&mut text, front, times)?;
    text.push_str(middle)?;
    push_times(&mut text, back, times)?;
    text.push_str(" }")?;
    outcome(alloc, text.as_str(), false)
}

#[test]
fn limits(rt: HostRuntime) -> Result<(), Fail> {
    let alloc = rt.alloc();
    for row in LIMITS.lines() {
        let fields: Vec<&str> = row.split('|').collect(alloc)?;
        match fields.as_slice() {
            [words, front, middle, back, most, col] => {
                let parts = (*front, *middle, *back);
                let most = most.parse::<u32>()?;
                let good = nested(alloc, words, parts, most)?;
                assert!(rt; good.as_str().starts_with("m@8"), "{row}: {good}");
                let deep = nested(alloc, words, parts, most.saturating_add(1))?;
                let want = format!(in alloc; "kind 2 at {col}")?;
                assert_eq!(rt; deep, want, "{row}");
            }
            _ => assert!(rt; row.is_empty(), "{row}"),
        }
    }
    Ok(())
}
