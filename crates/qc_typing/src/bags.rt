// The types that operators on collections give.
ghost use Rattle.std.specs.Prelude.{◌≡◌, IfOk, is_some, option_and_then, option_map};
ghost use Rattle.qc_types.specs.Joins.{join};
ghost use Rattle.qc_types.specs.declared.ty.Ty.TheVariants as ty;
ghost use Rattle.qc_typing.specs.Kinds.{bag_above, members, on_members, when};

use crate::kinds::{coll_of, either_of, members_of, when};
use qc_containers::Memory;
use qc_types::{Classes, Ty, copy_ty, join};
use std::alloc::Global;

// Integers, for a collection.
pub(crate) fn count_type(a: &Ty) -> Option<Ty>
    ensures { result ≡ option_map (λ t. ty.Int) (members a.now) }
{
    match members_of(a) {
        Some(_) => Some(Ty::Int),
        None => None,
    }
}

// A member, or unit.
pub(crate) fn element_type(alloc: Global, a: &Ty) -> Result<Option<Ty>, Memory>
    ensures { IfOk result (λ made. made ≡ option_map (λ t. ty.Either t ty.Unit) (members a.now)) }
{
    match members_of(a) {
        Some(item) => Ok(Some(either_of(alloc, copy_ty(alloc, item)?, Ty::Unit)?)),
        None => Ok(None),
    }
}

// The same collections.
pub(crate) fn distinct_type(alloc: Global, a: &Ty) -> Result<Option<Ty>, Memory>
    ensures { IfOk result (λ made. made ≡ option_map (λ t. ty.Coll t) (members a.now)) }
{
    match members_of(a) {
        Some(item) => Ok(Some(coll_of(alloc, copy_ty(alloc, item)?)?)),
        None => Ok(None),
    }
}

// The collections of the members' members.
pub(crate) fn flat_type(alloc: Global, a: &Ty) -> Result<Option<Ty>, Memory>
    ensures { IfOk result (λ made. made ≡ option_and_then bag_above (members a.now)) }
{
    match members_of(a) {
        Some(item) => bag_above(alloc, item),
        None => Ok(None),
    }
}

// The least type of collections above the type.
#[tactic(auto, using(crate::proofs::Layers::by_layer))]
fn bag_above(alloc: Global, a: &Ty) -> Result<Option<Ty>, Memory>
    ensures { IfOk result (λ made. made ≡ bag_above a.now) }
{
    match a {
        Ty::Bottom => Ok(Some(coll_of(alloc, Ty::Bottom)?)),
        Ty::Coll(item) => Ok(Some(coll_of(alloc, copy_ty(alloc, item.get())?)?)),
        _ => Ok(None),
    }
}

// Collections of the joined members.
pub(crate) fn union_type(
    alloc: Global,
    classes: &Classes,
    a: &Ty,
    b: &Ty,
) -> Result<Option<Ty>, Memory>
    ensures { IfOk result
        (λ made. made ≡ on_members (λ t u. option_map (λ v. ty.Coll v) (join classes.now t u)) a.now b.now) }
{
    let (Some(item), Some(other)) = (members_of(a), members_of(b)) else {
        return Ok(None);
    };
    match join(alloc, classes, item, other)? {
        Some(joined) => Ok(Some(coll_of(alloc, joined)?)),
        None => Ok(None),
    }
}

// The first's collections, where the members join.
pub(crate) fn kept_type(
    alloc: Global,
    classes: &Classes,
    a: &Ty,
    b: &Ty,
) -> Result<Option<Ty>, Memory>
    ensures { IfOk result
        (λ made. made ≡ on_members (λ t u. when (is_some (join classes.now t u)) (ty.Coll t)) a.now b.now) }
{
    let (Some(item), Some(other)) = (members_of(a), members_of(b)) else {
        return Ok(None);
    };
    let joins = join(alloc, classes, item, other)?.is_some();
    Ok(when(joins, coll_of(alloc, copy_ty(alloc, item)?)?))
}

// Truth values, where the first joins the members of the second.
pub(crate) fn member_type(
    alloc: Global,
    classes: &Classes,
    a: &Ty,
    b: &Ty,
) -> Result<Option<Ty>, Memory>
    ensures { IfOk result
        (λ made. made ≡ option_and_then (λ u. when (is_some (join classes.now a.now u)) ty.Bool) (members b.now)) }
{
    match members_of(b) {
        Some(item) => same_type(alloc, classes, a, item),
        None => Ok(None),
    }
}

// Truth values, where the two join.
pub(crate) fn same_type(
    alloc: Global,
    classes: &Classes,
    a: &Ty,
    b: &Ty,
) -> Result<Option<Ty>, Memory>
    ensures { IfOk result (λ made. made ≡ when (is_some (join classes.now a.now b.now)) ty.Bool) }
{
    let joins = join(alloc, classes, a, b)?.is_some();
    Ok(when(joins, Ty::Bool))
}
