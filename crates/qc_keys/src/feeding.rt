// What a hasher is given of a datum.
ghost use Rattle.std.specs.Prelude.{◌≡◌, fold, map};
ghost use Rattle.qc_containers.specs.Rising.{on_value};
ghost use Rattle.qc_keys.specs.inner.Writes.{field_writes, list_writes, writes};

use qc_data::{Datum, Fields, Items};
use std::hash::{Hash, Hasher};

// Gives the hasher the datum: a number for its kind, and then its parts.
#[cycle(feeding)]
pub(crate) fn feed<H: Hasher>(d: &Datum, state: &mut H)
    ensures { state.new ≡ fold H.write state.old (writes d.now) }
{
    match d {
        Datum::Unit => state.write_u8(0),
        Datum::Bool(b) => {
            state.write_u8(1);
            b.hash(state);
        }
        Datum::Int(n) => {
            state.write_u8(2);
            n.hash(state);
        }
        Datum::Text(text) => {
            state.write_u8(3);
            text.as_str().hash(state);
        }
        Datum::Coll(items) => {
            state.write_u8(4);
            feed_items(items, state);
        }
        Datum::Rec(fields) => {
            state.write_u8(5);
            feed_fields(fields, state);
        }
        Datum::Left(inner) => {
            state.write_u8(6);
            feed(inner.get(), state);
        }
        Datum::Right(inner) => {
            state.write_u8(7);
            feed(inner.get(), state);
        }
        Datum::Brand(name, inner) => {
            state.write_u8(8);
            name.as_str().hash(state);
            feed(inner.get(), state);
        }
    }
}

// The items, and an end.
#[cycle(feeding)]
fn feed_items<H: Hasher>(items: &Items, state: &mut H)
    ensures { state.new ≡ fold H.write state.old (list_writes (map writes items.now)) }
{
    for item in items.as_slice() {
        feed(item, state);
    }
    state.write_u8(9);
}

// The names and the values, and an end.
#[cycle(feeding)]
fn feed_fields<H: Hasher>(fields: &Fields, state: &mut H)
    ensures { state.new ≡ fold H.write state.old (field_writes (map (on_value writes) fields.now)) }
{
    for pair in fields.as_slice() {
        pair.0.as_str().hash(state);
        feed(&pair.1, state);
    }
    state.write_u8(9);
}
