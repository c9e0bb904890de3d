// Why a computation has no value.
use qc_containers::Memory;

/// Why a computation has no value.
#[derive(Clone, Copy, Debug, PartialEq, Eq)]
pub enum Halt {
    /// An integer left 64 bits.
    Range,
    /// A value was of another kind than its use wants.
    Stuck,
    /// Memory was wanting.
    Memory,
}

impl From<Memory> for Halt {
    ghost use Rattle.std.specs.Prelude.{◌≡◌};
    ghost use Rattle.qc_data.specs.declared.halt.Halt.TheVariants as halt;

    ghost from_gives = { λ _ error. error ≡ halt.Memory };

    fn from(_: Memory) -> Halt {
        Halt::Memory
    }
}
