//! Sites for tests of frames, which ask for their types and kinds alone.

use base::{FuncId, Pos, TypeId};
use typed::{NameRange, Site, SiteKind};

/// A variable of the first function.
pub fn variable(pos: Pos, type_id: TypeId) -> Site {
    site(pos, type_id, SiteKind::Variable)
}

/// A site of the first function.
pub fn site(pos: Pos, type_id: TypeId, kind: SiteKind) -> Site {
    Site {
        pos,
        type_id,
        kind,
        func: Some(FuncId(0)),
        depth: 0,
        carried: false,
        words: 1,
        known: None,
        name: NameRange { start: 0, end: 0 },
        address_taken: false,
    }
}
