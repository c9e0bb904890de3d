// The types that operators on one value give.
ghost use Rattle.std.specs.Prelude.{◌≡◌, IfOk};
ghost use Rattle.qc_typing.specs.Tables.{bottom_type, operand_type, unary_type};
ghost use Rattle.qc_typing.specs.Typed.{IsSound1};

use crate::bags::{count_type, distinct_type, element_type, flat_type};
use crate::classes::{brand_type, cast_type, content_type, is_listed};
use crate::kinds::{coll_of, either_of, is_bottom, maybe_int, when, when_below, when_ints};
use crate::records::{field_type, project_type, record_type};
use crate::rows::{group_type, order_type};
use qc_containers::Memory;
use qc_ops::Unary;
use qc_types::{Classes, Ty, copy_ty};
use std::alloc::Global;

/// The type that the operator gives on an operand of the type, and `None` exactly where it gives none. Of each value
/// of the operand's type the operator makes, at any size, a value of the type that it gives, and within bounds the
/// same or Range.
pub fn type1(alloc: Global, classes: &Classes, op: &Unary, a: &Ty) -> Result<Option<Ty>, Memory>
    ensures value { IfOk result (λ t. t ≡ unary_type classes.now op.now a.now) }
    ensures sound { IfOk result (λ t. IsSound1 classes.now op.now a.now t) }
{
    classes.hand_good();
    unary_type(alloc, classes, op, a)
}

// The type alone.
fn unary_type(alloc: Global, classes: &Classes, op: &Unary, a: &Ty) -> Result<Option<Ty>, Memory>
    ensures { IfOk result (λ t. t ≡ unary_type classes.now op.now a.now) }
{
    if is_bottom(a) {
        return Ok(bottom_type(classes, op));
    }
    operand_type(alloc, classes, op, a)
}

// On an operand of no datum.
fn bottom_type(classes: &Classes, op: &Unary) -> Option<Ty>
    ensures { result ≡ bottom_type classes.now op.now }
{
    match op {
        Unary::Brand(name) => when(is_listed(classes, name), Ty::Bottom),
        Unary::Cast(name) => when(is_listed(classes, name), Ty::Bottom),
        _ => Some(Ty::Bottom),
    }
}

// On any other operand.
fn operand_type(alloc: Global, classes: &Classes, op: &Unary, a: &Ty) -> Result<Option<Ty>, Memory>
    ensures { IfOk result (λ t. t ≡ operand_type classes.now op.now a.now) }
{
    match op {
        Unary::Not => Ok(when_below(classes, a, &Ty::Bool, Ty::Bool)),
        Unary::Neg => Ok(when_below(classes, a, &Ty::Int, Ty::Int)),
        Unary::Abs => Ok(when_below(classes, a, &Ty::Int, Ty::Int)),
        Unary::DivBy(_) => Ok(when_below(classes, a, &Ty::Int, Ty::Int)),
        Unary::ModBy(_) => Ok(when_below(classes, a, &Ty::Int, Ty::Int)),
        Unary::Count => Ok(count_type(a)),
        Unary::Sum => when_ints(alloc, classes, a, Ty::Int),
        Unary::Min => when_ints(alloc, classes, a, maybe_int(alloc)?),
        Unary::Max => when_ints(alloc, classes, a, maybe_int(alloc)?),
        Unary::Avg => when_ints(alloc, classes, a, maybe_int(alloc)?),
        Unary::Element => element_type(alloc, a),
        Unary::Flatten => flat_type(alloc, a),
        Unary::Distinct => distinct_type(alloc, a),
        Unary::Single => Ok(Some(coll_of(alloc, copy_ty(alloc, a)?)?)),
        Unary::Rec(name) => Ok(Some(record_type(alloc, name, a)?)),
        Unary::Dot(name) => field_type(alloc, name, a),
        Unary::Project(names) => project_type(alloc, names, a),
        Unary::Left => Ok(Some(either_of(alloc, copy_ty(alloc, a)?, Ty::Bottom)?)),
        Unary::Right => Ok(Some(either_of(alloc, Ty::Bottom, copy_ty(alloc, a)?)?)),
        Unary::Brand(name) => brand_type(alloc, classes, name, a),
        Unary::Unbrand => content_type(alloc, classes, a),
        Unary::Cast(name) => cast_type(alloc, classes, name, a),
        Unary::Order(keys) => order_type(alloc, classes, keys, a),
        Unary::Group(name, names) => group_type(alloc, name, names, a),
        Unary::Like(_) => Ok(when_below(classes, a, &Ty::Text, Ty::Bool)),
    }
}
