// Inputs from bytes.
ghost use Rattle.std.specs.Prelude.{◌≡◌, IfOk};
ghost use Rattle.qc_data.specs.declared.data.Datum.{Datum};
ghost use Rattle.qc_schema.specs.Inputs.{MeansWorld};

use crate::faults::InputFault;
use crate::reading::read_json;
use qc_data::into_datum;
use qc_types::{Schema, World, WorldFault};
use std::alloc::Global;

/// The world of the schema that the bytes of an input mean. `BadInput` exactly where they mean none.
pub fn read_input(alloc: Global, schema: &Schema, bytes: &[u8]) -> Result<World, InputFault>
    ensures ok { IfOk result (λ world. MeansWorld bytes.now schema.now world.datum) }
    ensures schema { IfOk result
        (λ world. (world.classes ≡ schema.now.classes) × (world.globals ≡ schema.now.globals)) }
    ensures bad { result ≡ Err InputFault.BadInput → (d : Datum) → ¬ MeansWorld bytes.now schema.now d }
{
    let tree = read_json(alloc, bytes)?;
    let Some(datum) = into_datum(alloc, tree)? else {
        return Err(InputFault::BadInput);
    };
    match World::of(alloc, schema, datum) {
        Ok(world) => Ok(world),
        Err(WorldFault::NotWorld) => Err(InputFault::BadInput),
        Err(WorldFault::Memory) => Err(InputFault::Memory),
    }
}
