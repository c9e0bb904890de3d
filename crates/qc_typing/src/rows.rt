// The types of rows that are ordered and grouped.
ghost use Rattle.std.specs.Prelude.{◌≡◌, false, IfOk, option_and_then};
ghost use Rattle.std.specs.List.{list_all};
ghost use Rattle.qc_containers.specs.Pairs.{lookup, put};
ghost use Rattle.qc_ops.specs.Records.{is_among};
ghost use Rattle.qc_types.specs.declared.ty.Width.TheVariants as width;
ghost use Rattle.qc_types.specs.declared.ty.Ty.TheVariants as ty;
ghost use Rattle.qc_typing.specs.Kinds.{members, when};
ghost use Rattle.qc_typing.specs.FieldTypes.{atom_at, chosen, groups_of, has_names, is_ordered_by};

use crate::fields::{chosen, has_names, is_among};
use crate::kinds::{coll_of, is_atom, members_of, when};
use qc_containers::{Memory, Name};
use qc_ops::{Keys, Names};
use qc_types::{Classes, Row, Ty, Width, copy_ty};
use std::alloc::Global;

// The same collections, where their rows can be ordered by the keys.
pub(crate) fn order_type(
    alloc: Global,
    classes: &Classes,
    keys: &Keys,
    a: &Ty,
) -> Result<Option<Ty>, Memory>
    ensures { IfOk result
        (λ made. made
        ≡ option_and_then (λ t. when (is_ordered_by classes.now keys.now t) (ty.Coll t)) (members a.now)) }
{
    match members_of(a) {
        Some(row) => {
            let rows = coll_of(alloc, copy_ty(alloc, row)?)?;
            Ok(when(is_ordered_by(classes, keys, row), rows))
        }
        None => Ok(None),
    }
}

// Whether rows of the type can be ordered by the keys.
#[tactic(auto, using(crate::proofs::Layers::by_layer))]
fn is_ordered_by(classes: &Classes, keys: &Keys, t: &Ty) -> bool
    ensures { result ≡ is_ordered_by classes.now keys.now t.now }
{
    match t {
        Ty::Bottom => true,
        Ty::Rec(_, row) => has_atoms(classes, keys, row),
        _ => false,
    }
}

// Whether each key is a field of integers, texts or truth values.
fn has_atoms(classes: &Classes, keys: &Keys, row: &Row) -> bool
    ensures { result ≡ list_all (λ key. atom_at classes.now (lookup key.0 row.now)) keys.now }
{
    for key in keys.as_slice() {
        match row.get(key.0.as_str()) {
            Some(t) => {
                if !is_atom(classes, t) {
                    return false;
                }
            }
            None => return false,
        }
    }
    true
}

// The groups of the rows.
pub(crate) fn group_type(
    alloc: Global,
    name: &Name,
    names: &Names,
    a: &Ty,
) -> Result<Option<Ty>, Memory>
    ensures { IfOk result (λ made. made ≡ option_and_then (groups_of name.now names.now) (members a.now)) }
{
    match members_of(a) {
        Some(row) => groups_of(alloc, name, names, row),
        None => Ok(None),
    }
}

// The groups of rows of a type.
#[tactic(auto, using(crate::proofs::Layers::by_layer))]
fn groups_of(alloc: Global, name: &Name, names: &Names, t: &Ty) -> Result<Option<Ty>, Memory>
    ensures { IfOk result (λ made. made ≡ groups_of name.now names.now t.now) }
{
    if is_among(name, names) {
        return Ok(None);
    }
    match t {
        Ty::Bottom => Ok(Some(coll_of(alloc, Ty::Bottom)?)),
        Ty::Rec(_, row) => {
            if !has_names(names, row) {
                return Ok(None);
            }
            let group = group_of(alloc, name, names, row, t)?;
            Ok(Some(coll_of(alloc, group)?))
        }
        _ => Ok(None),
    }
}

// The fields at the names, and the rows that have them at a name of its own.
#[tactic(auto, using(crate::proofs::FieldLaws::chosen_absent))]
fn group_of(alloc: Global, name: &Name, names: &Names, row: &Row, t: &Ty) -> Result<Ty, Memory>
    requires { is_among name.now names.now ≡ false }
    ensures { IfOk result
        (λ made. made ≡ ty.Rec width.Exact (put name.now (ty.Coll t.now) (chosen names.now row.now))) }
{
    let mut fields = chosen(alloc, names, row)?;
    let name = name.copy(alloc)?;
    let rows = coll_of(alloc, copy_ty(alloc, t)?)?;
    match fields.put(name, rows) {
        Ok(()) => Ok(Ty::Rec(Width::Exact, fields)),
        Err(_) => Err(Memory),
    }
}
