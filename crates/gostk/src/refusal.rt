//! Why a source text is refused.
ghost use Rattle.std.specs.Prelude.{◌≡◌};
ghost use Rattle.gostk.specs.Refusal.{refusal_at, refusal_of, stage_text};

use base::Pos;
use compile::CompileFault;
use frame_layout::LayoutFault;
use type_faults::TypeFault;

/// The stage of the compiler that refuses a text.
#[derive(Clone, Copy, Debug, PartialEq, Eq)]
pub enum Stage {
    Scan,
    Parse,
    Typing,
    Layout,
}

impl Stage {
    /// The stage's name in the line of a refusal.
    pub fn text(self) -> &'static [u8]
        ensures { result.now ≡ stage_text self }
    {
        match self {
            Stage::Scan => b"scan",
            Stage::Parse => b"parse",
            Stage::Typing => b"type",
            Stage::Layout => b"layout",
        }
    }
}

/// A refusal of a source text: the stage that refuses it, the number of the fault's kind in that stage, its place, and
/// for a frame that is too large its size in words.
#[derive(Clone, Copy, Debug, PartialEq, Eq)]
pub struct Refusal {
    pub stage: Stage,
    pub kind: u32,
    pub pos: Pos,
    pub words: Option<u64>,
}

// A refusal with this number at this place, where there are both.
fn refusal_at(stage: Stage, kind: Option<u32>, pos: Option<Pos>) -> Option<Refusal>
    ensures { result ≡ refusal_at stage kind pos }
{
    match (kind, pos) {
        (Some(kind), Some(pos)) => Some(Refusal {
            stage,
            kind,
            pos,
            words: None,
        }),
        _ => None,
    }
}

/// The refusal that a fault of the compiler is. Want of memory is none.
pub fn refusal_of(fault: CompileFault) -> Option<Refusal>
    ensures { result ≡ refusal_of fault }
{
    match fault {
        CompileFault::NoMemory => None,
        CompileFault::Scan(fault) => refusal_at(Stage::Scan, fault.number(), fault.pos()),
        CompileFault::Parse(fault) => refusal_at(Stage::Parse, fault.number(), fault.pos()),
        CompileFault::Typing(TypeFault::NoMemory) => None,
        CompileFault::Typing(TypeFault::Fault(fault)) => Some(Refusal {
            stage: Stage::Typing,
            kind: u32::from(fault.kind.number()),
            pos: fault.pos,
            words: None,
        }),
        CompileFault::Layout(LayoutFault::NoMemory) => None,
        CompileFault::Layout(LayoutFault::FrameTooLarge { pos, words }) => Some(Refusal {
            stage: Stage::Layout,
            kind: 1,
            pos,
            words: Some(words),
        }),
    }
}
