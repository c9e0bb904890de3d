// What holds of every datum that code holds.
ghost use Rattle.std.specs.Prelude.{◌≡◌, IsTrue, map};
ghost use Rattle.qc_data.specs.Encoding.{enc};
ghost use Rattle.qc_data.specs.Facts.{Held, named, rising, within64, all_true, all_named, all_values, rise};
ghost use Rattle.qc_containers.specs.Rising.{on_value};

use crate::data::{Datum, Fields, Items};

/// A datum that code holds is `Held`: its names are names, its records rise, and its integers have 64 bits. Call this
/// where a proof needs these facts. It walks the datum and answers nothing.
#[cycle(walk)]
pub fn held(d: &Datum)
    ensures { Held d.now }
{
    match d {
        Datum::Unit => {}
        Datum::Bool(_) => {}
        Datum::Int(n) => {
            let _n = *n;
        }
        Datum::Text(_) => {}
        Datum::Coll(items) => held_items(items),
        Datum::Rec(fields) => held_fields(fields),
        Datum::Left(inner) => held(inner.get()),
        Datum::Right(inner) => held(inner.get()),
        Datum::Brand(name, inner) => {
            let _name = name.as_str();
            held(inner.get())
        }
    }
}

// The same of each item.
#[cycle(walk)]
fn held_items(items: &Items)
    ensures names { IsTrue (all_true (map named items.now)) }
    ensures records { IsTrue (all_true (map rising items.now)) }
    ensures integers { IsTrue (all_true (map within64 items.now)) }
{
    for item in items.as_slice() {
        held(item);
    }
}

// The same of each field, and that the fields' names are names and rise.
#[cycle(walk)]
fn held_fields(fields: &Fields)
    ensures names { IsTrue (all_named (map (on_value named) fields.now)) }
    ensures rising { IsTrue (rise (map (on_value rising) fields.now)) }
    ensures records { IsTrue (all_values (map (on_value rising) fields.now)) }
    ensures integers { IsTrue (all_values (map (on_value within64) fields.now)) }
{
    for pair in fields.as_slice() {
        let _name = pair.0.as_str();
        held(&pair.1);
    }
}

/// Two data that code holds and that have one encoding are one. It walks both, and answers nothing.
pub fn one_to_one(a: &Datum, b: &Datum)
    ensures { enc a.now ≡ enc b.now → a.now ≡ b.now }
{
    held(a);
    held(b);
}
