// Values that are had again without a copy of what they hold.
ghost use Rattle.std.specs.Prelude.{◌≡◌, IfOk};

use crate::memory::Memory;
use std::alloc::Global;

/// A value that can be had again.
pub trait Share {
    /// The same value, which shares what it holds: this takes the same time and memory, however large it is.
    fn share(&self, alloc: Global) -> Result<Self, Memory>
        ensures { IfOk result (λ same. same ≡ self.now) };
}

impl<A: Share + Drop, B: Share> Share for (A, B) {
    fn share(&self, alloc: Global) -> Result<(A, B), Memory> {
        let first = self.0.share(alloc)?;
        Ok((first, self.1.share(alloc)?))
    }
}
