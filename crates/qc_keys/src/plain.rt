// Canons of data, for less where they have no collection inside.
ghost use Rattle.std.specs.Prelude.{◌≡◌, map, IfOk};
ghost use Rattle.qc_containers.specs.Rising.{on_value};
ghost use Rattle.qc_data.specs.Order.{canon};
ghost use Rattle.qc_keys.specs.inner.Plain.{all_plain, plain};

use qc_containers::Memory;
use qc_data::{Datum, Fields, canon, copy};
use std::alloc::Global;

// The canon of the datum: a copy, which shares the datum, where no collection is inside.
pub(crate) fn canon_of(alloc: Global, d: &Datum) -> Result<Datum, Memory>
    ensures { IfOk result (λ made. made ≡ canon d.now) }
{
    if is_plain(d) {
        copy(alloc, d)
    } else {
        canon(alloc, d)
    }
}

// Whether the datum neither is a collection nor has one inside.
#[cycle(plain)]
fn is_plain(d: &Datum) -> bool
    ensures { result ≡ plain d.now }
{
    match d {
        Datum::Unit | Datum::Bool(_) | Datum::Int(_) | Datum::Text(_) => true,
        Datum::Coll(_) => false,
        Datum::Rec(fields) => are_plain(fields),
        Datum::Left(inner) => is_plain(inner.get()),
        Datum::Right(inner) => is_plain(inner.get()),
        Datum::Brand(_, inner) => is_plain(inner.get()),
    }
}

// Whether no field's value is a collection or has one inside.
#[cycle(plain)]
fn are_plain(fields: &Fields) -> bool
    ensures { result ≡ all_plain (map (on_value plain) fields.now) }
{
    for pair in fields.as_slice() {
        if !is_plain(&pair.1) {
            return false;
        }
    }
    true
}
