// Why a tree has no type.
use qc_containers::Memory;
use thiserror::Error;

/// Why a tree has no type.
#[derive(Clone, Copy, Debug, PartialEq, Eq, Error)]
pub enum TypeFault {
    /// A part of the tree has no type.
    #[error("BadType")]
    BadType {
        /// The place of the first fault, by the number of its token.
        at: u32,
    },
    /// Memory was wanting.
    #[error("Memory")]
    Memory,
}

impl From<Memory> for TypeFault {
    ghost use Rattle.std.specs.Prelude.{◌≡◌};
    ghost use Rattle.qc_typing.specs.declared.fault.TypeFault.TheVariants as fault;

    ghost from_gives = { λ _ error. error ≡ fault.Memory };

    fn from(_: Memory) -> TypeFault {
        TypeFault::Memory
    }
}
