// Languages.
ghost use Rattle.qc_data.specs.Outcome.{Gives, bits64};

use qc_data::{Datum, Halt};
use qc_types::World;
use std::alloc::Global;

/// A language: what its trees mean, which of them are good, and how large they are.
pub trait Lang {
    ghost use Rattle.std.specs.Prelude.{ℕ, ℤ, ◌≤◌};
    ghost use Rattle.qc_data.specs.Outcome.{Agrees, Mode, Outcome, any_size, within};
    ghost use Rattle.qc_data.specs.declared.data.Datum.{Datum};
    ghost use Rattle.qc_types.specs.Schemas.{SchemaOf, WorldOf};

    /// The outcome of a tree in a mode and a world.
    ghost meaning: { Mode → Self → WorldOf → Outcome Datum };

    /// The trees that passes take and give over a schema.
    ghost good: { SchemaOf → Self → Type 0 };

    /// The number of nodes of a tree over a schema.
    ghost size: { SchemaOf → Self → ℕ };

    /// The outcome at 64 bits, or `Memory`.
    fn eval(&self, alloc: Global, world: &World) -> Result<Datum, Halt>
        ensures { Gives (meaning bits64 self.now world.now) result };

    /// A value within bounds is the value at any size, and a value at any size is within bounds the same or Range.
    ghost agrees: { (low high : ℤ) (tree : Self) (world : WorldOf)
        → Agrees (meaning any_size tree world) (meaning (within low high) tree world) };

    /// Every tree has a node.
    ghost sized: { (schema : SchemaOf) (tree : Self) → 1 ≤ size schema tree };
}
