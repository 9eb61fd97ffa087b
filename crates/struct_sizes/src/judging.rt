//! The verdicts of the structs of a component.

ghost use Rattle.std.specs.Prelude.{◌≡◌, ℕ, ◌<◌, length, List, slice_index_or, None};
ghost use Rattle.std.specs.List.{list_any};
ghost use Rattle.struct_sizes.specs.Filling.{is_by_form, is_fault, flaw_at, is_refused, verdict_at, mentions_refused, any_mentions_refused, any_by_form, any_fault, told, verdict, set_each, judged};
ghost use Rattle.components.specs.Graph.{Among, rows, row};

use crate::faults::Flaw;
use crate::verdicts::{Refusal, StructFault, Verdict};

/// What holds of all structs of a component: whether they are refused, whether their sizes are told, and whether no other component
/// has to be mended before.
#[derive(Clone, Copy)]
pub struct Ruling {
    pub refused: bool,
    pub sizes: bool,
    pub is_source: bool,
}

/// Whether a struct is at fault by its form.
fn is_by_form(flaw: Flaw) -> bool
    ensures { result ≡ is_by_form flaw }
{
    match flaw {
        Flaw::InForm | Flaw::OnCycle => true,
        Flaw::Fine | Flaw::InSize(_) => false,
    }
}

/// Whether a struct is at fault.
fn is_fault(flaw: Flaw) -> bool
    ensures { result ≡ is_fault flaw }
{
    match flaw {
        Flaw::Fine => false,
        Flaw::InForm | Flaw::OnCycle | Flaw::InSize(_) => true,
    }
}

/// What is wrong with the struct of a number.
fn flaw_at(flaws: &[Flaw], node: u32) -> Flaw
    ensures { result ≡ flaw_at flaws.now node }
{
    flaws.get(node as usize).copied().unwrap_or(Flaw::InForm)
}

/// Whether a number's struct is refused, or it is no struct's.
pub fn is_refused(verdicts: &[Verdict], node: u32) -> bool
    ensures { result ≡ is_refused (verdict_at verdicts.now node) }
{
    match verdicts.get(node as usize) {
        Some(Verdict::Sized(_)) => false,
        _ => true,
    }
}

/// Whether one of some numbers' structs is refused.
fn any_refused(verdicts: &[Verdict], nodes: &[u32]) -> bool
    ensures { result ≡ list_any (λ j. is_refused (verdict_at verdicts.now j)) nodes.now }
{
    nodes.iter().any(|node| is_refused(verdicts, *node))
}

/// Whether a struct mentions one that is refused.
fn mentions_refused(mentions: &[Vec<u32>], verdicts: &[Verdict], node: u32) -> bool
    ensures { result ≡ mentions_refused (rows mentions.now) verdicts.now node }
{
    match mentions.get(node as usize) {
        Some(ends) => any_refused(verdicts, ends),
        None => false,
    }
}

/// Whether one of some structs mentions one that is refused.
fn any_mentions_refused(mentions: &[Vec<u32>], verdicts: &[Verdict], nodes: &[u32]) -> bool
    ensures { result ≡ any_mentions_refused (rows mentions.now) verdicts.now nodes.now }
{
    nodes
        .iter()
        .any(|node| mentions_refused(mentions, verdicts, *node))
}

/// Whether one of some structs is at fault by its form.
fn any_by_form(flaws: &[Flaw], nodes: &[u32]) -> bool
    ensures { result ≡ any_by_form flaws.now nodes.now }
{
    nodes.iter().any(|node| is_by_form(flaw_at(flaws, *node)))
}

/// Whether one of some structs is at fault.
fn any_fault(flaws: &[Flaw], nodes: &[u32]) -> bool
    ensures { result ≡ any_fault flaws.now nodes.now }
{
    nodes.iter().any(|node| is_fault(flaw_at(flaws, *node)))
}

/// What is told of a struct.
fn told(sizes: bool, flaw: Flaw) -> Option<StructFault>
    ensures { result ≡ told sizes flaw }
{
    match flaw {
        Flaw::Fine | Flaw::InForm => None,
        Flaw::OnCycle => Some(StructFault::HoldsItself),
        Flaw::InSize(fault) => {
            if sizes {
                Some(StructFault::Size(fault))
            } else {
                None
            }
        }
    }
}

/// The verdict of a struct.
fn verdict(ruling: Ruling, flaw: Flaw, words: Option<u32>) -> Verdict
    ensures { result ≡ verdict ruling flaw words }
{
    match words {
        Some(words) if !ruling.refused => Verdict::Sized(words),
        _ => Verdict::Refused(Refusal {
            told: told(ruling.sizes, flaw),
            is_source: ruling.is_source,
        }),
    }
}

/// Enters the verdicts of some structs.
fn enter(
    flaws: &[Flaw],
    table: &[Option<u32>],
    ruling: Ruling,
    verdicts: &mut [Verdict],
    nodes: &[u32],
)
    requires { (k : ℕ) → Among k nodes.now → k < length verdicts.old }
    ensures { verdicts.new ≡ set_each (λ k. verdict ruling (flaw_at flaws.now k) (slice_index_or table.now k None)) verdicts.old nodes.now }
{
    for node in nodes {
        let words = table.get(*node as usize).copied().unwrap_or(None);
        verdicts[*node as usize] = verdict(ruling, flaw_at(flaws, *node), words);
    }
}

/// Enters the verdicts of the structs of a component. They are refused together, and their sizes are told together.
pub fn judge(
    mentions: &[Vec<u32>],
    flaws: &[Flaw],
    table: &[Option<u32>],
    verdicts: &mut [Verdict],
    nodes: &[u32],
)
    requires { (k : ℕ) → Among k nodes.now → k < length verdicts.old }
    ensures { verdicts.new ≡ judged (rows mentions.now) flaws.now table.now verdicts.old nodes.now }
{
    let is_led_out = any_mentions_refused(mentions, verdicts, nodes);
    let ruling = Ruling {
        refused: is_led_out || any_fault(flaws, nodes),
        sizes: !is_led_out && !any_by_form(flaws, nodes),
        is_source: !is_led_out,
    };
    enter(flaws, table, ruling, verdicts, nodes);
}
