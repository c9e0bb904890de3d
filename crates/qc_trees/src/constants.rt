// The types of constants.
ghost use Rattle.std.specs.Prelude.{◌≡◌, map, option_map, IfOk};
ghost use Rattle.qc_containers.specs.Rising.{on_value};
ghost use Rattle.qc_types.specs.Types.{fits};
ghost use Rattle.qc_types.specs.declared.ty.Ty.TheVariants as ty;
ghost use Rattle.qc_typing.specs.Kinds.{when};
ghost use Rattle.qc_trees.specs.ConstantTypes.{constant_type, datum_type, exactly, join_all};
ghost use Rattle.qc_trees.specs.Infers.{Infers};

use crate::untyped::{NoType, known};
use qc_containers::{Memory, Name};
use qc_data::{Datum, Fields, held};
use qc_types::{Classes, Row, Ty, Width, conforms, join};
use qc_typing::{coll_of, either_of};
use std::alloc::Global;

/// The type of a constant.
pub fn constant_type(alloc: Global, classes: &Classes, d: &Datum) -> Result<Ty, NoType>
    ensures { Infers (constant_type classes.now d.now) result }
{
    held(d);
    known(datum_type(alloc, classes, d)?)
}

// The type of a datum, if it has one.
#[cycle(constants)]
fn datum_type(alloc: Global, classes: &Classes, d: &Datum) -> Result<Option<Ty>, Memory>
    ensures { IfOk result (λ made. made ≡ datum_type classes.now d.now) }
{
    match d {
        Datum::Unit => Ok(Some(Ty::Unit)),
        Datum::Bool(_) => Ok(Some(Ty::Bool)),
        Datum::Int(_) => Ok(Some(Ty::Int)),
        Datum::Text(_) => Ok(Some(Ty::Text)),
        Datum::Coll(items) => {
            let member = members_join(alloc, classes, items.as_slice())?;
            collections(alloc, member)
        }
        Datum::Rec(fields) => record_type(alloc, classes, fields),
        Datum::Left(content) => {
            let left = datum_type(alloc, classes, content.get())?;
            left_values(alloc, left)
        }
        Datum::Right(content) => {
            let right = datum_type(alloc, classes, content.get())?;
            right_values(alloc, right)
        }
        Datum::Brand(name, _) => class_type(alloc, classes, d, name),
    }
}

// Collections of members of the type, if there is one.
fn collections(alloc: Global, member: Option<Ty>) -> Result<Option<Ty>, Memory>
    ensures { IfOk result (λ made. made ≡ option_map (λ t. ty.Coll t) member) }
{
    match member {
        Some(t) => Ok(Some(coll_of(alloc, t)?)),
        None => Ok(None),
    }
}

// Left values of the type, if there is one.
fn left_values(alloc: Global, content: Option<Ty>) -> Result<Option<Ty>, Memory>
    ensures { IfOk result (λ made. made ≡ option_map (λ t. ty.Either t ty.Bottom) content) }
{
    match content {
        Some(t) => Ok(Some(either_of(alloc, t, Ty::Bottom)?)),
        None => Ok(None),
    }
}

// Right values of the type, if there is one.
fn right_values(alloc: Global, content: Option<Ty>) -> Result<Option<Ty>, Memory>
    ensures { IfOk result (λ made. made ≡ option_map (λ t. ty.Either ty.Bottom t) content) }
{
    match content {
        Some(t) => Ok(Some(either_of(alloc, Ty::Bottom, t)?)),
        None => Ok(None),
    }
}

// The join of the types of members, if each has one and they join.
#[cycle(constants)]
fn members_join(alloc: Global, classes: &Classes, items: &[Datum]) -> Result<Option<Ty>, Memory>
    ensures { IfOk result
        (λ made. made ≡ join_all classes.now ty.Bottom (map (datum_type classes.now) items.now)) }
{
    let mut joined = Ty::Bottom;
    for item in items {
        let Some(t) = datum_type(alloc, classes, item)? else {
            return Ok(None);
        };
        match join(alloc, classes, &joined, &t)? {
            Some(above) => joined = above,
            None => return Ok(None),
        }
    }
    Ok(Some(joined))
}

// The record of exactly the fields, if each has a type.
#[cycle(constants)]
fn record_type(alloc: Global, classes: &Classes, fields: &Fields) -> Result<Option<Ty>, Memory>
    ensures { IfOk result (λ made. made ≡ exactly (map (on_value (datum_type classes.now)) fields.now)) }
{
    let mut row = Row::new(alloc);
    for field in fields.as_slice() {
        let Some(t) = datum_type(alloc, classes, &field.1)? else {
            return Ok(None);
        };
        row.add(field.0.copy(alloc)?, t)?;
    }
    Ok(Some(Ty::Rec(Width::Exact, row)))
}

// The class of a class value, if it conforms.
fn class_type(
    alloc: Global,
    classes: &Classes,
    d: &Datum,
    name: &Name,
) -> Result<Option<Ty>, Memory>
    ensures { IfOk result
        (λ made. made ≡ when (fits classes.now d.now (ty.Brand name.now)) (ty.Brand name.now)) }
{
    let class = Ty::Brand(name.copy(alloc)?);
    if conforms(classes, d, &class) {
        Ok(Some(class))
    } else {
        Ok(None)
    }
}
