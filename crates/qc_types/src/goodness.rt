// Which lists of classes are good, and which globals.
ghost use Rattle.std.specs.Prelude.{◌≡◌, map};
ghost use Rattle.qc_data.specs.Facts.{all_values};
ghost use Rattle.qc_containers.specs.Rising.{on_value};
ghost use Rattle.qc_types.specs.Schemas.{extends, good_class, good_classes, good_globals, lists};
ghost use Rattle.qc_types.specs.inner.Places.{earlier};

use crate::compare::is_above;
use crate::index::ClassIndex;
use crate::naming::is_user;
use crate::ty::{ClassDef, Row, Ty};

// Whether the list of the classes is good.
pub(crate) fn is_good(index: &ClassIndex) -> bool
    ensures { result ≡ good_classes index.now }
{
    let mut left = index.len();
    while left > 0 {
        left -= 1;
        match index.at(left) {
            Some(def) => {
                if !is_good_class(index, left, def) {
                    return false;
                }
            }
            None => return false,
        }
    }
    true
}

// Whether a class may come after those listed before a place.
fn is_good_class(index: &ClassIndex, at: usize, def: &ClassDef) -> bool
    ensures { result ≡ good_class index.now (earlier index.now at) def.now }
{
    is_user(&def.name)
        && index.before(at, def.name.as_str()).is_none()
        && is_listed(index, &def.shape)
        && is_extending(index, at, def)
}

// Whether the parent, if there is one, is among the classes listed before a place, and its shape is above.
fn is_extending(index: &ClassIndex, at: usize, def: &ClassDef) -> bool
    ensures { result ≡ extends index.now (earlier index.now at) def.now.parent def.now.shape }
{
    match &def.parent {
        None => true,
        Some(parent) => match index.before(at, parent.as_str()) {
            Some(over) => is_above(index, &over.shape, &def.shape),
            None => false,
        },
    }
}

// Whether every class that the type names is listed.
#[cycle(listing)]
#[tactic(auto, using(crate::proofs::ListLaws::by_layer))]
pub(crate) fn is_listed(index: &ClassIndex, t: &Ty) -> bool
    ensures { result ≡ lists index.now t.now }
{
    match t {
        Ty::Bottom => true,
        Ty::Unit => true,
        Ty::Bool => true,
        Ty::Int => true,
        Ty::Text => true,
        Ty::Coll(item) => is_listed(index, item.get()),
        Ty::Rec(_, row) => are_listed(index, row),
        Ty::Either(left, right) => is_listed(index, left.get()) && is_listed(index, right.get()),
        Ty::Brand(name) => index.find(name.as_str()).is_some(),
    }
}

// The same of each field.
#[cycle(listing)]
fn are_listed(index: &ClassIndex, row: &Row) -> bool
    ensures { result ≡ all_values (map (on_value (lists index.now)) row.now) }
{
    for pair in row.as_slice() {
        if !is_listed(index, &pair.1) {
            return false;
        }
    }
    true
}

// Whether the globals' names are user names, and every class that their types name is listed.
pub(crate) fn is_good_globals(index: &ClassIndex, globals: &Row) -> bool
    ensures { result ≡ good_globals index.now globals.now }
{
    for pair in globals.as_slice() {
        if !is_user(&pair.0) || !is_listed(index, &pair.1) {
            return false;
        }
    }
    true
}
