// What fits a type.
ghost use Rattle.std.specs.Prelude.{◌≡◌};
ghost use Rattle.qc_types.specs.Rows.{all_in, names};
ghost use Rattle.qc_types.specs.inner.Shared.{has_shared};
ghost use Rattle.qc_types.specs.Types.{fits};
ghost use Rattle.qc_types.specs.declared.ty.Ty.TheVariants as ty;
ghost use Rattle.qc_types.specs.declared.ty.Width.TheVariants as ty_width;

use crate::classes::Classes;
use crate::index::ClassIndex;
use crate::rows::{has_names, is_same_names, value_of};
use crate::ty::{Row, Ty, Width};
use qc_data::{Datum, Fields, Items};

/// Whether the datum is of the type. Takes no memory.
pub fn conforms(classes: &Classes, d: &Datum, t: &Ty) -> bool
    ensures { result ≡ fits classes.now d.now t.now }
{
    is_of(classes.index(), d, t)
}

// The same over a list of classes, by the parts of the datum.
#[cycle(conforms)]
#[tactic(auto, using(crate::proofs::Fitting::by_layer))]
pub(crate) fn is_of(index: &ClassIndex, d: &Datum, t: &Ty) -> bool
    ensures { result ≡ fits index.now d.now t.now }
{
    match (d, t) {
        (Datum::Unit, Ty::Unit) => true,
        (Datum::Bool(_), Ty::Bool) => true,
        (Datum::Int(_), Ty::Int) => true,
        (Datum::Text(_), Ty::Text) => true,
        (Datum::Coll(items), Ty::Coll(item)) => are_of(index, items, item.get()),
        (Datum::Rec(fields), Ty::Rec(width, row)) => match width {
            Width::Exact => {
                if !is_same_names(fields, row) {
                    return false;
                }
                fields_fit(index, fields, row)
            }
            Width::Wide => {
                if !has_names(fields, row) {
                    return false;
                }
                fields_fit(index, fields, row)
            }
        },
        (Datum::Left(inner), Ty::Either(left, _)) => is_of(index, inner.get(), left.get()),
        (Datum::Right(inner), Ty::Either(_, right)) => is_of(index, inner.get(), right.get()),
        (Datum::Brand(name, inner), Ty::Brand(wanted)) => {
            if !index.is_below(name, wanted) {
                return false;
            }
            match index.find(name.as_str()) {
                Some(def) => is_of(index, inner.get(), &def.shape),
                None => false,
            }
        }
        _ => false,
    }
}

// Whether the datum is a record of exactly the fields of the row.
#[tactic(auto, using(crate::proofs::Fitting::by_layer))]
pub(crate) fn is_record_of(index: &ClassIndex, d: &Datum, row: &Row) -> bool
    ensures { result ≡ fits index.now d.now (ty.Rec ty_width.Exact row.now) }
{
    match d {
        Datum::Rec(fields) => is_same_names(fields, row) && fields_fit(index, fields, row),
        _ => false,
    }
}

// Each item is of the type.
#[cycle(conforms)]
fn are_of(index: &ClassIndex, items: &Items, t: &Ty) -> bool
    ensures { result ≡ all_in (λ d. fits index.now d t.now) items.now }
{
    for item in items.as_slice() {
        if !is_of(index, item, t) {
            return false;
        }
    }
    true
}

// Each field that the row names is of its type.
#[cycle(conforms)]
fn fields_fit(index: &ClassIndex, fields: &Fields, row: &Row) -> bool
    ensures { result ≡ has_shared (fits index.now) fields.now row.now }
{
    for pair in fields.as_slice() {
        match value_of(row, pair.0.as_str()) {
            Some(t) => {
                if !is_of(index, &pair.1, t) {
                    return false;
                }
            }
            None => {}
        }
    }
    true
}
