// Canons of data, and sameness.
ghost use Rattle.std.specs.Prelude.{◌≡◌, IfOk, IsTrue, ◌↔◌, map};
ghost use Rattle.qc_data.specs.Order.{cmp, canon, sort_by, Same};
ghost use Rattle.qc_containers.specs.Rising.{on_value};

use crate::data::{Datum, Fields, Items};
use qc_containers::{Boxed, Memory};
use std::alloc::Global;

/// The canon of the datum: each collection in it is sorted by `cmp`, inner ones first. Each list takes O(n log n)
/// comparisons.
#[cycle(canon)]
pub fn canon(alloc: Global, d: &Datum) -> Result<Datum, Memory>
    ensures { IfOk result (λ made. made ≡ canon d.now) }
{
    match d {
        Datum::Unit => Ok(Datum::Unit),
        Datum::Bool(b) => Ok(Datum::Bool(*b)),
        Datum::Int(n) => Ok(Datum::Int(*n)),
        Datum::Text(text) => Ok(Datum::Text(text.copy(alloc)?)),
        Datum::Coll(items) => Ok(Datum::Coll(sorted(canon_items(alloc, items)?)?)),
        Datum::Rec(fields) => Ok(Datum::Rec(canon_fields(alloc, fields)?)),
        Datum::Left(inner) => Ok(Datum::Left(Boxed::of(alloc, canon(alloc, inner.get())?)?)),
        Datum::Right(inner) => Ok(Datum::Right(Boxed::of(alloc, canon(alloc, inner.get())?)?)),
        Datum::Brand(name, inner) => {
            let name = name.copy(alloc)?;
            Ok(Datum::Brand(name, Boxed::of(alloc, canon(alloc, inner.get())?)?))
        }
    }
}

// The canons of the items, not yet sorted.
#[cycle(canon)]
fn canon_items(alloc: Global, items: &Items) -> Result<Items, Memory>
    ensures { IfOk result (λ made. made ≡ map canon items.now) }
{
    let mut all = Items::new(alloc);
    for item in items.as_slice() {
        all.add(canon(alloc, item)?)?;
    }
    Ok(all)
}

// The canons of the values at their names.
#[cycle(canon)]
fn canon_fields(alloc: Global, fields: &Fields) -> Result<Fields, Memory>
    ensures { IfOk result (λ made. made ≡ map (on_value canon) fields.now) }
{
    let mut all = Fields::new(alloc);
    for pair in fields.as_slice() {
        let name = pair.0.copy(alloc)?;
        all.add(name, canon(alloc, &pair.1)?)?;
    }
    Ok(all)
}

// The items in order.
fn sorted(items: Items) -> Result<Items, Memory>
    ensures { IfOk result (λ made. made ≡ sort_by cmp items) }
{
    let mut items = items;
    match items.sort() {
        Ok(()) => Ok(items),
        Err(_) => Err(Memory),
    }
}

/// Whether the two are the same where the order of a collection's members does not matter, that is whether their canons
/// are equal.
pub fn same(alloc: Global, a: &Datum, b: &Datum) -> Result<bool, Memory>
    ensures { IfOk result (λ answer. IsTrue answer ↔ Same a.now b.now) }
{
    let a = canon(alloc, a)?;
    let b = canon(alloc, b)?;
    Ok(a == b)
}
