//! A rule that fails where something holds.

ghost use Rattle.std.specs.Prelude.{◌≡◌, Option, Some, None};
ghost use Rattle.signatures.specs.Failing.{fault_where};

use type_faults::Fault;

/// A rule that fails where this holds.
pub fn fault_where(fails: bool, own: Fault) -> Option<Fault>
    ensures { result ≡ fault_where fails own }
{
    if fails { Some(own) } else { None }
}
