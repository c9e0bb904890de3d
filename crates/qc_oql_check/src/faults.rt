// Faults at a place.
ghost use Rattle.qc_typing.specs.Checking.{Checks, need, or_fault};

use qc_types::Ty;
use qc_typing::TypeFault;

// The type, or else a fault at the place.
pub(crate) fn or_fault(at: u32, made: Option<Ty>) -> Result<Ty, TypeFault>
    ensures { Checks (or_fault at made) result }
{
    made.ok_or(TypeFault::BadType { at })
}

// A fault at the place, unless the test is true.
pub(crate) fn need(at: u32, test: bool) -> Result<(), TypeFault>
    ensures { Checks (need at test) result }
{
    if test {
        Ok(())
    } else {
        Err(TypeFault::BadType { at })
    }
}
