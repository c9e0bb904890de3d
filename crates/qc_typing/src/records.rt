// The types that operators on records give.
ghost use Rattle.std.specs.Prelude.{◌≡◌, [], ◌∷◌, IfOk, option_and_then};
ghost use Rattle.qc_containers.specs.Pairs.{lookup};
ghost use Rattle.qc_types.specs.declared.ty.Width.TheVariants as width;
ghost use Rattle.qc_types.specs.declared.ty.Ty.TheVariants as ty;
ghost use Rattle.qc_typing.specs.Kinds.{on_records, record_parts, when};
ghost use Rattle.qc_typing.specs.FieldTypes.{cat_type, chosen, has_names, merge_type};

use crate::fields::{chosen, has_names, over, shared_join};
use crate::kinds::{coll_of, record_parts};
use qc_containers::{Memory, Name};
use qc_ops::Names;
use qc_types::{Classes, Row, Ty, Width, copy_row, copy_ty};
use std::alloc::Global;

// The record of the one field.
pub(crate) fn record_type(alloc: Global, name: &Name, a: &Ty) -> Result<Ty, Memory>
    ensures { IfOk result (λ made. made ≡ ty.Rec width.Exact ((name.now, a.now) ∷ [])) }
{
    let mut row = Row::new(alloc);
    let name = name.copy(alloc)?;
    row.add(name, copy_ty(alloc, a)?)?;
    Ok(Ty::Rec(Width::Exact, row))
}

// The type of the field.
pub(crate) fn field_type(alloc: Global, name: &Name, a: &Ty) -> Result<Option<Ty>, Memory>
    ensures { IfOk result (λ made. made ≡ option_and_then (λ r. lookup name.now r.1) (record_parts a.now)) }
{
    match record_parts(a) {
        Some((_, row)) => field_of(alloc, name, row),
        None => Ok(None),
    }
}

// The type at the name.
fn field_of(alloc: Global, name: &Name, row: &Row) -> Result<Option<Ty>, Memory>
    ensures { IfOk result (λ made. made ≡ lookup name.now row.now) }
{
    match row.get(name.as_str()) {
        Some(t) => Ok(Some(copy_ty(alloc, t)?)),
        None => Ok(None),
    }
}

// The record of exactly the fields at the names, where they are there.
pub(crate) fn project_type(alloc: Global, names: &Names, a: &Ty) -> Result<Option<Ty>, Memory>
    ensures { IfOk result
        (λ made. made
        ≡ option_and_then (λ r. when (has_names names.now r.1) (ty.Rec width.Exact (chosen names.now r.1)))
        (record_parts a.now)) }
{
    match record_parts(a) {
        Some((_, row)) => {
            if !has_names(names, row) {
                return Ok(None);
            }
            Ok(Some(Ty::Rec(Width::Exact, chosen(alloc, names, row)?)))
        }
        None => Ok(None),
    }
}

// The fields of both records.
pub(crate) fn cat_types(alloc: Global, a: &Ty, b: &Ty) -> Result<Option<Ty>, Memory>
    ensures { IfOk result (λ made. made ≡ on_records (λ r s. Some (cat_type r s)) a.now b.now) }
{
    let (Some((w, ts)), Some((v, us))) = (record_parts(a), record_parts(b)) else {
        return Ok(None);
    };
    Ok(Some(cat_type(alloc, w, ts, v, us)?))
}

// The same by widths and fields.
fn cat_type(alloc: Global, w: Width, ts: &Row, v: Width, us: &Row) -> Result<Ty, Memory>
    ensures { IfOk result (λ made. made ≡ cat_type (w, ts.now) (v, us.now)) }
{
    match (w, v) {
        (Width::Exact, Width::Exact) => Ok(Ty::Rec(Width::Exact, over(alloc, ts, us)?)),
        (Width::Wide, Width::Exact) => Ok(Ty::Rec(Width::Wide, over(alloc, ts, us)?)),
        (_, Width::Wide) => Ok(Ty::Rec(Width::Wide, copy_row(alloc, us)?)),
    }
}

// Collections of the fields of both records.
pub(crate) fn merge_types(
    alloc: Global,
    classes: &Classes,
    a: &Ty,
    b: &Ty,
) -> Result<Option<Ty>, Memory>
    ensures { IfOk result (λ made. made ≡ on_records (merge_type classes.now) a.now b.now) }
{
    let (Some((w, ts)), Some((v, us))) = (record_parts(a), record_parts(b)) else {
        return Ok(None);
    };
    merge_type(alloc, classes, w, ts, v, us)
}

// The same by widths and fields.
fn merge_type(
    alloc: Global,
    classes: &Classes,
    w: Width,
    ts: &Row,
    v: Width,
    us: &Row,
) -> Result<Option<Ty>, Memory>
    ensures { IfOk result (λ made. made ≡ merge_type classes.now (w, ts.now) (v, us.now)) }
{
    match (w, v) {
        (Width::Exact, Width::Exact) => {
            if !shared_join(alloc, classes, ts, us)? {
                return Ok(None);
            }
            let record = Ty::Rec(Width::Exact, over(alloc, ts, us)?);
            Ok(Some(coll_of(alloc, record)?))
        }
        (Width::Exact, Width::Wide) => Ok(None),
        (Width::Wide, _) => Ok(None),
    }
}
