//! Why a text is not compiled.

ghost use Rattle.std.specs.Prelude.{◌≡◌};
ghost use Rattle.compile.specs.declared.fault.CompileFault.TheVariants.{NoMemory as OutOfMemory};

use base::NoMemory;
use frame_layout::LayoutFault;
use parse_go::ParseFault;
use scan_go::ScanFault;
use thiserror::Error;
use type_faults::TypeFault;

/// Why a text is not compiled: the fault of the first stage that refuses it. Want of memory in any stage is `NoMemory`.
#[derive(Clone, Copy, Debug, PartialEq, Eq, Error)]
pub enum CompileFault {
    #[error("no memory")]
    NoMemory,
    #[error("the text has no tokens")]
    Scan(ScanFault),
    #[error("the tokens have no tree")]
    Parse(ParseFault),
    #[error("the tree has no typed program")]
    Typing(TypeFault),
    #[error("a frame is too large")]
    Layout(LayoutFault),
}

impl From<NoMemory> for CompileFault {
    ghost from_gives = { λ _ e. e ≡ OutOfMemory };

    fn from(_: NoMemory) -> CompileFault {
        CompileFault::NoMemory
    }
}

impl From<ScanFault> for CompileFault {
    ghost use Rattle.compile.specs.Faults.{of_scan};

    ghost from_gives = { λ f e. e ≡ of_scan f };

    fn from(fault: ScanFault) -> CompileFault {
        match fault {
            ScanFault::NoMemory => CompileFault::NoMemory,
            _ => CompileFault::Scan(fault),
        }
    }
}

impl From<ParseFault> for CompileFault {
    ghost use Rattle.compile.specs.Faults.{of_parse};

    ghost from_gives = { λ f e. e ≡ of_parse f };

    fn from(fault: ParseFault) -> CompileFault {
        match fault {
            ParseFault::NoMemory => CompileFault::NoMemory,
            _ => CompileFault::Parse(fault),
        }
    }
}

impl From<TypeFault> for CompileFault {
    ghost use Rattle.compile.specs.Faults.{of_typing};

    ghost from_gives = { λ f e. e ≡ of_typing f };

    fn from(fault: TypeFault) -> CompileFault {
        match fault {
            TypeFault::NoMemory => CompileFault::NoMemory,
            _ => CompileFault::Typing(fault),
        }
    }
}

impl From<LayoutFault> for CompileFault {
    ghost use Rattle.compile.specs.Faults.{of_layout};

    ghost from_gives = { λ f e. e ≡ of_layout f };

    fn from(fault: LayoutFault) -> CompileFault {
        match fault {
            LayoutFault::NoMemory => CompileFault::NoMemory,
            _ => CompileFault::Layout(fault),
        }
    }
}
