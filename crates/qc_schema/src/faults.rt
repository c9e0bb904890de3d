// Why bytes are no input, or no schema.
use qc_containers::Memory;
use thiserror::Error;

/// Why bytes are no input.
#[derive(Clone, Copy, Debug, PartialEq, Eq, Error)]
pub enum InputFault {
    /// The bytes are no input.
    #[error("BadInput")]
    BadInput,
    /// Memory was wanting.
    #[error("Memory")]
    Memory,
}

impl From<Memory> for InputFault {
    ghost use Rattle.std.specs.Prelude.{◌≡◌};
    ghost use Rattle.qc_schema.specs.declared.faults.InputFault.TheVariants as fault;

    ghost from_gives = { λ _ error. error ≡ fault.Memory };

    fn from(_: Memory) -> InputFault {
        InputFault::Memory
    }
}

/// Why bytes are no schema.
#[derive(Clone, Copy, Debug, PartialEq, Eq, Error)]
pub enum SchemaFault {
    /// The bytes are no schema.
    #[error("BadSchema")]
    BadSchema,
    /// Memory was wanting.
    #[error("Memory")]
    Memory,
}

impl From<Memory> for SchemaFault {
    ghost use Rattle.std.specs.Prelude.{◌≡◌};
    ghost use Rattle.qc_schema.specs.declared.faults.SchemaFault.TheVariants as fault;

    ghost from_gives = { λ _ error. error ≡ fault.Memory };

    fn from(_: Memory) -> SchemaFault {
        SchemaFault::Memory
    }
}
