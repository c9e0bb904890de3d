// The types that operators on two values give.
ghost use Rattle.std.specs.Prelude.{◌≡◌, ◌||◌, IfOk};
ghost use Rattle.qc_types.specs.declared.ty.Ty.TheVariants as ty;
ghost use Rattle.qc_typing.specs.Kinds.{when};
ghost use Rattle.qc_typing.specs.Tables.{binary_type, both_below, operands_type};
ghost use Rattle.qc_typing.specs.Typed.{IsSound2};

use crate::bags::{kept_type, member_type, same_type, union_type};
use crate::kinds::{both_below, is_bottom, when};
use crate::records::{cat_types, merge_types};
use qc_containers::Memory;
use qc_ops::Binary;
use qc_types::{Classes, Ty};
use std::alloc::Global;

/// The type that the operator gives on operands of the types, and `None` exactly where it gives none. Of each two
/// values of the operands' types the operator makes, at any size, a value of the type that it gives, and within
/// bounds the same or Range.
pub fn type2(
    alloc: Global,
    classes: &Classes,
    op: &Binary,
    a: &Ty,
    b: &Ty,
) -> Result<Option<Ty>, Memory>
    ensures value { IfOk result (λ t. t ≡ binary_type classes.now op.now a.now b.now) }
    ensures sound { IfOk result (λ t. IsSound2 classes.now op.now a.now b.now t) }
{
    classes.hand_good();
    binary_type(alloc, classes, op, a, b)
}

// The type alone.
fn binary_type(
    alloc: Global,
    classes: &Classes,
    op: &Binary,
    a: &Ty,
    b: &Ty,
) -> Result<Option<Ty>, Memory>
    ensures { IfOk result (λ t. t ≡ binary_type classes.now op.now a.now b.now) }
{
    if is_bottom(a) || is_bottom(b) {
        return Ok(Some(Ty::Bottom));
    }
    operands_type(alloc, classes, op, a, b)
}

// On operands of which neither is of no datum.
fn operands_type(
    alloc: Global,
    classes: &Classes,
    op: &Binary,
    a: &Ty,
    b: &Ty,
) -> Result<Option<Ty>, Memory>
    ensures { IfOk result (λ t. t ≡ operands_type classes.now op.now a.now b.now) }
{
    match op {
        Binary::Eq => same_type(alloc, classes, a, b),
        Binary::Lt => Ok(compared_type(classes, a, b)),
        Binary::Le => Ok(compared_type(classes, a, b)),
        Binary::And => Ok(when_both(classes, a, b, &Ty::Bool, Ty::Bool)),
        Binary::Or => Ok(when_both(classes, a, b, &Ty::Bool, Ty::Bool)),
        Binary::Add => Ok(when_both(classes, a, b, &Ty::Int, Ty::Int)),
        Binary::Sub => Ok(when_both(classes, a, b, &Ty::Int, Ty::Int)),
        Binary::Mul => Ok(when_both(classes, a, b, &Ty::Int, Ty::Int)),
        Binary::Least => Ok(when_both(classes, a, b, &Ty::Int, Ty::Int)),
        Binary::Greatest => Ok(when_both(classes, a, b, &Ty::Int, Ty::Int)),
        Binary::Union => union_type(alloc, classes, a, b),
        Binary::Except => kept_type(alloc, classes, a, b),
        Binary::Intersect => kept_type(alloc, classes, a, b),
        Binary::Member => member_type(alloc, classes, a, b),
        Binary::Cat => cat_types(alloc, a, b),
        Binary::Merge => merge_types(alloc, classes, a, b),
        Binary::Glue => Ok(when_both(classes, a, b, &Ty::Text, Ty::Text)),
    }
}

// The type, where both operands are below the operands' type.
fn when_both(classes: &Classes, a: &Ty, b: &Ty, operand: &Ty, t: Ty) -> Option<Ty>
    ensures { result ≡ when (both_below classes.now a.now b.now operand.now) t }
{
    when(both_below(classes, a, b, operand), t)
}

// Truth values, where both are integers or both texts.
fn compared_type(classes: &Classes, a: &Ty, b: &Ty) -> Option<Ty>
    ensures { result
        ≡ when (both_below classes.now a.now b.now ty.Int || both_below classes.now a.now b.now ty.Text) ty.Bool }
{
    let ints = both_below(classes, a, b, &Ty::Int);
    let texts = both_below(classes, a, b, &Ty::Text);
    when(ints || texts, Ty::Bool)
}
