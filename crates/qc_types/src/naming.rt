// User names.
ghost use Rattle.std.specs.Prelude.{◌≡◌, map};
ghost use Rattle.qc_data.specs.Facts.{all_true};
ghost use Rattle.qc_containers.specs.Rising.{on_value};
ghost use Rattle.qc_types.specs.Schemas.{user, user_fields, user_named};

use qc_containers::Name;
use qc_data::{Datum, Fields, Items};

// Whether a user may give the name.
pub(crate) fn is_user(name: &Name) -> bool
    ensures { result ≡ user name.now }
{
    name.is_user()
}

// Whether every field's and class's name in the datum is a user name.
#[cycle(naming)]
#[tactic(auto, using(crate::proofs::NameLaws::by_layer))]
pub(crate) fn is_user_named(d: &Datum) -> bool
    ensures { result ≡ user_named d.now }
{
    match d {
        Datum::Unit => true,
        Datum::Bool(_) => true,
        Datum::Int(_) => true,
        Datum::Text(_) => true,
        Datum::Coll(items) => are_user_named(items),
        Datum::Rec(fields) => fields_user_named(fields),
        Datum::Left(inner) => is_user_named(inner.get()),
        Datum::Right(inner) => is_user_named(inner.get()),
        Datum::Brand(name, inner) => is_user(name) && is_user_named(inner.get()),
    }
}

// The same of each item.
#[cycle(naming)]
fn are_user_named(items: &Items) -> bool
    ensures { result ≡ all_true (map user_named items.now) }
{
    for item in items.as_slice() {
        if !is_user_named(item) {
            return false;
        }
    }
    true
}

// The same of each field and its name.
#[cycle(naming)]
fn fields_user_named(fields: &Fields) -> bool
    ensures { result ≡ user_fields (map (on_value user_named) fields.now) }
{
    for pair in fields.as_slice() {
        if !is_user(&pair.0) || !is_user_named(&pair.1) {
            return false;
        }
    }
    true
}
