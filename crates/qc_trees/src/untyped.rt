// Why there is no type.
ghost use Rattle.qc_trees.specs.Infers.{Infers};

use qc_containers::Memory;
use qc_types::Ty;

/// Why there is no type.
#[derive(Clone, Copy)]
pub enum NoType {
    /// A part has none, or no rule gives one.
    Untyped,
    /// Memory was wanting.
    Memory,
}

impl From<Memory> for NoType {
    ghost use Rattle.std.specs.Prelude.{◌≡◌};
    ghost use Rattle.qc_trees.specs.declared.untyped.NoType.TheVariants as reason;

    ghost from_gives = { λ _ error. error ≡ reason.Memory };

    fn from(_: Memory) -> NoType {
        NoType::Memory
    }
}

/// The type that is there.
pub fn known(t: Option<Ty>) -> Result<Ty, NoType>
    ensures { Infers t result }
{
    match t {
        Some(t) => Ok(t),
        None => Err(NoType::Untyped),
    }
}
