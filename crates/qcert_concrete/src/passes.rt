// A pass and the pass back, as one pass.
use crate::languages::{Add, Split, Whole};
use qc_data::{Datum, Fields};
use qc_lang::{Lang, Pass, after};
use qc_types::{Schema, World};
use std::test::Fail;

#[test]
fn two_passes_as_one_keep_a_number(rt: HostRuntime) -> Result<(), Fail> {
    let alloc = rt.alloc();
    let schema = Schema::empty(alloc);
    let world = World::of(alloc, &schema, Datum::Rec(Fields::new(alloc)))?;
    let whole = after(Split, Add).pass(alloc, &schema, Whole { n: 7 })?;
    assert!(rt; matches!(whole.eval(alloc, &world)?, Datum::Int(7)));
    Ok(())
}
