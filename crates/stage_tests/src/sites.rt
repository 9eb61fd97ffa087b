//! Texts with the sites of their typed programs.

use compile::compile;
use std::alloc::{AllocError, Global};
use std::test::Fail;
use typed::{Program, Site};

/// Programs after the clause of their package, on a line of their own, and their sites: the name, its column, the kind, the function, the
/// depth, whether it is carried on, the words, and why its variables are on the heap whatever flows.
const SITES: &str = "
var g [9000]int; func f(n int) (r [2]bool) { x := n; return }; var h int; func main() { } => g@5 Package 9000 Package; n@25 Parameter f0 0 1; r@33 Result f0 0 2; x@46 Variable f0 0 1; h@68 Package 1 Package;
func main() { for i, j := 0, 1; ; { x := 1; for { y := 2; break }; z := 3; if w := 4; true { } }; v := 5 } => i@19 Variable f0 1 carried 1; j@22 Variable f0 1 carried 1; x@37 Variable f0 1 1; y@51 Variable f0 2 1; z@68 Variable f0 1 1; w@79 Variable f0 1 1; v@99 Variable f0 0 1;
func main() { var a [3]int; for i, x := range a { y := x }; for { for j, k := range a { l := j } } } => a@19 Variable f0 0 3; i@33 Variable f0 1 1; x@36 Variable f0 1 1; @41 Range f0 0 3; y@51 Variable f0 1 1; j@71 Variable f0 2 1; k@74 Variable f0 2 1; @79 Range f0 1 3; l@89 Variable f0 2 1;
func f(p [9000]int) (r [8193]bool) { var x [8192]int; for _, v := range p { }; return }; func main() { } => p@8 Parameter f0 0 9000 Size; r@22 Result f0 0 8193 Size; x@42 Variable f0 0 8192; v@62 Variable f0 1 1; @67 Range f0 0 9000 Size;
func exit(int); func _(p int) { }; func f(_, q int) { for i := 0; ; { if b := true; b { var c int } } }; func main() { } => p@24 Parameter f0 0 1; q@46 Parameter f1 0 1; i@59 Variable f1 1 carried 1; b@74 Variable f1 1 1; c@93 Variable f1 1 1;
";

fn write_name(program: &Program, site: Site, out: &mut String) -> Result<(), AllocError> {
    for index in site.name.start..site.name.end {
        if let Some(byte) = program.names.get(index as usize) {
            out.push(char::from(*byte))?;
        }
    }
    Ok(())
}

fn write_site(program: &Program, site: Site, out: &mut String) -> Result<(), AllocError> {
    out.push(' ')?;
    write_name(program, site, out)?;
    write!(out, "@{} {:?}", site.pos.col, site.kind)?;
    if let Some(func) = site.func {
        write!(out, " f{} {}", func.0, site.depth)?;
    }
    if site.carried {
        out.push_str(" carried")?;
    }
    write!(out, " {}", site.words)?;
    if let Some(reason) = site.known {
        write!(out, " {reason:?}")?;
    }
    if site.address_taken {
        out.push_str(" taken")?;
    }
    out.push(';')
}

fn write_outcome(alloc: Global, text: &str, out: &mut String) -> Result<(), AllocError> {
    match compile(alloc, text.as_bytes()) {
        Ok(compiled) => {
            for site in &compiled.program.sites {
                write_site(&compiled.program, *site, out)?;
            }
            Ok(())
        }
        Err(fault) => write!(out, " {fault:?}"),
    }
}

#[test]
fn sites(rt: HostRuntime) -> Result<(), Fail> {
    let alloc = rt.alloc();
    for row in SITES.lines() {
        match row.split_once(" => ") {
            Some((line, want)) => {
                let text = format!(in alloc; "package main\n{line}")?;
                let mut got = String::new(alloc);
                write_outcome(alloc, text.as_str(), &mut got)?;
                assert_eq!(rt; got.as_str().trim_start(), want, "{line}");
            }
            None => assert!(rt; row.is_empty(), "{row}"),
        }
    }
    Ok(())
}
