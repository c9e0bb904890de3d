// Why there are no such classes, no such world, or no type.
use qc_containers::Memory;
use thiserror::Error;

/// Why a query has no type.
#[derive(Clone, Copy, Debug, PartialEq, Eq, Error)]
pub enum TypeFault {
    /// The part of the query at a place, counted from 0, has no type.
    #[error("BadType")]
    BadType { at: u32 },
    /// Memory was wanting.
    #[error("Memory")]
    Memory,
}

/// Why a list of classes is not taken.
#[derive(Clone, Copy, Debug, PartialEq, Eq, Error)]
pub enum ClassFault {
    /// The list is not good.
    #[error("BadClasses")]
    BadClasses,
    /// Memory was wanting.
    #[error("Memory")]
    Memory,
}

/// Why a datum is not taken for a world.
#[derive(Clone, Copy, Debug, PartialEq, Eq, Error)]
pub enum WorldFault {
    /// The datum is no world of the schema.
    #[error("NotWorld")]
    NotWorld,
    /// Memory was wanting.
    #[error("Memory")]
    Memory,
}

impl From<Memory> for TypeFault {
    ghost use Rattle.std.specs.Prelude.{◌≡◌};
    ghost use Rattle.qc_types.specs.declared.faults.TypeFault.TheVariants as fault;

    ghost from_gives = { λ _ error. error ≡ fault.Memory };

    fn from(_: Memory) -> TypeFault {
        TypeFault::Memory
    }
}

impl From<Memory> for ClassFault {
    ghost use Rattle.std.specs.Prelude.{◌≡◌};
    ghost use Rattle.qc_types.specs.declared.faults.ClassFault.TheVariants as fault;

    ghost from_gives = { λ _ error. error ≡ fault.Memory };

    fn from(_: Memory) -> ClassFault {
        ClassFault::Memory
    }
}

impl From<Memory> for WorldFault {
    ghost use Rattle.std.specs.Prelude.{◌≡◌};
    ghost use Rattle.qc_types.specs.declared.faults.WorldFault.TheVariants as fault;

    ghost from_gives = { λ _ error. error ≡ fault.Memory };

    fn from(_: Memory) -> WorldFault {
        WorldFault::Memory
    }
}
