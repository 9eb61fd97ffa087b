//! The verdicts of all structs.

ghost use Rattle.std.specs.Prelude.{◌≡◌, ℕ, ◌<◌, IfOk, length, replicate, None, List};
ghost use Rattle.struct_sizes.specs.declared.verdicts.Verdict.TheVariants.{Sized};
ghost use Rattle.struct_sizes.specs.Structs.{structs_of};
ghost use Rattle.struct_sizes.specs.Verdicts.{IsSettled};
ghost use Rattle.struct_sizes.specs.Filling.{judged_all};
ghost use Rattle.components.specs.Graph.{Among, rows};
ghost use Rattle.components.specs.Components.{AreComponents, component_lists};

use crate::faults::{Flaw, flaws};
use crate::filling::known_words;
use crate::forms::DeclaredStruct;
use crate::graphs::{holds, mentions};
use crate::judging::judge;
use crate::verdicts::{Verdict, Verdicts};
use base::NoMemory;
use components::{Components, strong_components};
use std::alloc::Global;

/// The verdicts of the components in turn. A struct whose turn has not come counts as not refused: it stands in the component
/// itself, where a component mentions it.
fn judge_all(
    alloc: Global,
    mentions: &[Vec<u32>],
    components: &Components,
    flaws: &[Flaw],
    table: &[Option<u32>],
) -> Result<Vec<Verdict>, NoMemory>
    requires { AreComponents (rows mentions.now) (component_lists components.now.components.items) }
    ensures { IfOk result (λ v. v.items ≡ judged_all (rows mentions.now) flaws.now table.now (replicate (length mentions.now) (Sized 0)) (component_lists components.now.components.items)) }
{
    let mut verdicts = vec![in alloc; Verdict::Sized(0); mentions.len()]?;
    for component in &components.components {
        judge(mentions, flaws, table, &mut verdicts, &component.nodes);
    }
    Ok(verdicts)
}

/// The verdict of each struct of a program.
pub fn settle(alloc: Global, structs: &[DeclaredStruct]) -> Result<Verdicts, NoMemory>
    ensures { IfOk result (λ v. IsSettled (structs_of structs.now) v) }
{
    let held = holds(alloc, structs)?;
    let by_holding = strong_components(alloc, &held)?;
    let on_cycles = by_holding.on_cycles(alloc, &held)?;
    let words = known_words(alloc, structs, &on_cycles, &by_holding)?;
    let flaws = flaws(alloc, structs, &on_cycles, &words)?;
    let mentioned = mentions(alloc, structs)?;
    let by_mentioning = strong_components(alloc, &mentioned)?;
    let verdicts = judge_all(alloc, &mentioned, &by_mentioning, &flaws, &words)?;
    Ok(Verdicts { words, verdicts })
}
