// Why bytes gave no tokens.
use qc_containers::Memory;
use thiserror::Error;

/// Why bytes gave no tokens.
#[derive(Clone, Copy, Debug, PartialEq, Eq, Error)]
pub enum ScanFault {
    /// At this byte no blank, comment or token begins.
    #[error("BadScan")]
    BadScan { at: u32 },
    /// There are more tokens than a source may have.
    #[error("TooManyTokens")]
    TooManyTokens,
    /// Memory was wanting.
    #[error("Memory")]
    Memory,
}

impl From<Memory> for ScanFault {
    ghost use Rattle.std.specs.Prelude.{◌≡◌};
    ghost use Rattle.qc_lex.specs.declared.fault.ScanFault.TheVariants as fault;

    ghost from_gives = { λ _ error. error ≡ fault.Memory };

    fn from(_: Memory) -> ScanFault {
        ScanFault::Memory
    }
}
