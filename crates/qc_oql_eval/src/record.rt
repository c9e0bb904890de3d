// Records of fields that may repeat a name.
ghost use Rattle.std.specs.Prelude.{◌≡◌, IfOk, OnOk};
ghost use Rattle.qc_ops.specs.Records.{put_new};
ghost use Rattle.qc_oql_tree.specs.FormMeanings.{record_of};

use qc_containers::{Memory, Name};
use qc_data::{Datum, Fields};
use std::alloc::Global;

// The record of the pairs, of equal names the last.
#[tactic(auto, using(crate::proofs::Recording::record_onto_none, crate::proofs::Recording::record_onto_last))]
pub(crate) fn record_of(alloc: Global, pairs: Vec<(Name, Datum)>) -> Result<Fields, Memory>
    ensures { IfOk result (λ made. made ≡ record_of pairs.items) }
{
    let mut pairs = pairs;
    let mut fields = Fields::new(alloc);
    while let Some((name, value)) = pairs.pop() {
        put_new(&mut fields, name, value)?;
    }
    Ok(fields)
}

// Puts a field, unless there is one of its name.
fn put_new(fields: &mut Fields, name: Name, value: Datum) -> Result<(), Memory>
    ensures { OnOk result (fields.new ≡ put_new name value fields.old) }
{
    if fields.get(name.as_str()).is_some() {
        return Ok(());
    }
    match fields.put(name, value) {
        Ok(()) => Ok(()),
        Err(_) => Err(Memory),
    }
}
