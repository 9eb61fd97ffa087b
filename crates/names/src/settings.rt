//! Where new sites stand.

ghost use Rattle.std.specs.Prelude.{◌≡◌, IfOk};
ghost use Rattle.names.specs.Scope.{first_setting, declaring, in_header, in_body, of_copy, after_function};

use base::{FuncId, NoMemory};
use typed::SiteKind;

/// Where new sites stand.
#[derive(Clone, Copy, Debug, PartialEq, Eq)]
pub struct Setting {
    /// What a declaration makes there.
    pub kind: SiteKind,
    /// The function that it is in; outside of functions the one that comes next.
    pub func: FuncId,
    /// How many loops of the function are around it.
    pub depth: u32,
    /// Whether it is the init statement of a `for`.
    pub carried: bool,
}

impl Setting {
    /// At the level of the package, before its first function.
    pub fn first() -> Setting
        ensures { result ≡ first_setting }
    {
        Setting {
            kind: SiteKind::Package,
            func: FuncId(0),
            depth: 0,
            carried: false,
        }
    }

    /// Where variables of a kind are declared.
    pub fn declaring(self, kind: SiteKind) -> Setting
        ensures { result ≡ declaring kind self }
    {
        Setting {
            kind,
            func: self.func,
            depth: self.depth,
            carried: self.carried,
        }
    }

    /// In the header of a loop.
    pub fn in_header(self, carried: bool) -> Result<Setting, NoMemory>
        ensures { IfOk result (λ x. x ≡ in_header carried self) }
    {
        match self.depth.checked_add(1) {
            Some(depth) => Ok(Setting {
                kind: self.kind,
                func: self.func,
                depth,
                carried,
            }),
            None => Err(NoMemory),
        }
    }

    /// In the body of a loop in whose header this is.
    pub fn in_body(self) -> Setting
        ensures { result ≡ in_body self }
    {
        Setting {
            kind: self.kind,
            func: self.func,
            depth: self.depth,
            carried: false,
        }
    }

    /// The hidden copy of an array that a `range` goes over, in whose header this is.
    pub fn of_copy(self) -> Setting
        ensures { result ≡ of_copy self }
    {
        Setting {
            kind: SiteKind::Range,
            func: self.func,
            depth: self.depth.saturating_sub(1),
            carried: false,
        }
    }

    /// After a function.
    pub fn after_function(self) -> Result<Setting, NoMemory>
        ensures { IfOk result (λ x. x ≡ after_function self) }
    {
        match self.func.0.checked_add(1) {
            Some(number) => Ok(Setting {
                kind: SiteKind::Package,
                func: FuncId(number),
                depth: 0,
                carried: false,
            }),
            None => Err(NoMemory),
        }
    }
}
