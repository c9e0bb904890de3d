// Types by their kind, and made.
ghost use Rattle.std.specs.Prelude.{◌≡◌, ◌&&◌, ◌||◌, IfOk, option_map};
ghost use Rattle.std.specs.Option.{option_copied};
ghost use Rattle.qc_types.specs.Types.{sub};
ghost use Rattle.qc_types.specs.declared.ty.Ty.TheVariants as ty;
ghost use Rattle.qc_typing.specs.Kinds.{bound_by, is_bottom, members, own_class, record_parts, sides_of, when};
ghost use Rattle.qc_typing.specs.FieldTypes.{is_atom};
ghost use Rattle.qc_typing.specs.Tables.{both_below, maybe_int};

use qc_containers::{Boxed, Memory, Name};
use qc_types::{Classes, Row, Ty, Width, subtype};
use std::alloc::Global;

// Whether it is the type of no datum.
#[tactic(auto, using(crate::proofs::Layers::by_layer))]
pub(crate) fn is_bottom(a: &Ty) -> bool
    ensures { result ≡ is_bottom a.now }
{
    matches!(a, Ty::Bottom)
}

// The members' type of the type of collections that it is.
#[tactic(auto, using(crate::proofs::Layers::by_layer))]
pub(crate) fn members_of(a: &Ty) -> Option<&Ty>
    ensures { option_copied result ≡ members a.now }
{
    match a {
        Ty::Coll(item) => Some(item.get()),
        _ => None,
    }
}

// The width and the fields of the type of records that it is.
#[tactic(auto, using(crate::proofs::Layers::by_layer))]
pub(crate) fn record_parts(a: &Ty) -> Option<(Width, &Row)>
    ensures { option_map (λ r. (r.0, r.1.now)) result ≡ record_parts a.now }
{
    match a {
        Ty::Rec(width, row) => Some((*width, row)),
        _ => None,
    }
}

// The class whose type it is.
#[tactic(auto, using(crate::proofs::Layers::by_layer))]
pub(crate) fn own_class(a: &Ty) -> Option<&Name>
    ensures { option_copied result ≡ own_class a.now }
{
    match a {
        Ty::Brand(name) => Some(name),
        _ => None,
    }
}

/// The type of the members of a collection, or of no datum.
#[tactic(auto, using(crate::proofs::Layers::by_layer))]
pub fn bound_by(t: &Ty) -> Option<&Ty>
    ensures { option_copied result ≡ bound_by t.now }
{
    match t {
        Ty::Bottom => Some(t),
        Ty::Coll(member) => Some(member.get()),
        _ => None,
    }
}

/// The types of the contents of a left and of a right value, or of no datum.
#[tactic(auto, using(crate::proofs::Layers::by_layer))]
pub fn sides_of(t: &Ty) -> Option<(&Ty, &Ty)>
    ensures { option_map (λ sides. (sides.0.now, sides.1.now)) result ≡ sides_of t.now }
{
    match t {
        Ty::Bottom => Some((t, t)),
        Ty::Either(left, right) => Some((left.get(), right.get())),
        _ => None,
    }
}

// The type, where the test is true.
pub(crate) fn when(test: bool, t: Ty) -> Option<Ty>
    ensures { result ≡ when test t }
{
    if test { Some(t) } else { None }
}

/// The type of collections of members of the type.
pub fn coll_of(alloc: Global, item: Ty) -> Result<Ty, Memory>
    ensures { IfOk result (λ made. made ≡ ty.Coll item) }
{
    Ok(Ty::Coll(Boxed::of(alloc, item)?))
}

/// The type of two sides.
pub fn either_of(alloc: Global, left: Ty, right: Ty) -> Result<Ty, Memory>
    ensures { IfOk result (λ made. made ≡ ty.Either left right) }
{
    let left = Boxed::of(alloc, left)?;
    Ok(Ty::Either(left, Boxed::of(alloc, right)?))
}

// An integer, or unit.
pub(crate) fn maybe_int(alloc: Global) -> Result<Ty, Memory>
    ensures { IfOk result (λ made. made ≡ maybe_int) }
{
    either_of(alloc, Ty::Int, Ty::Unit)
}

/// Whether it is below integers, texts or truth values.
pub fn is_atom(classes: &Classes, t: &Ty) -> bool
    ensures { result ≡ is_atom classes.now t.now }
{
    subtype(classes, t, &Ty::Int)
        || subtype(classes, t, &Ty::Text)
        || subtype(classes, t, &Ty::Bool)
}

// Whether both are below the type.
pub(crate) fn both_below(classes: &Classes, a: &Ty, b: &Ty, t: &Ty) -> bool
    ensures { result ≡ both_below classes.now a.now b.now t.now }
{
    subtype(classes, a, t) && subtype(classes, b, t)
}

// The second type, where the operand is below the first.
pub(crate) fn when_below(classes: &Classes, a: &Ty, operand: &Ty, t: Ty) -> Option<Ty>
    ensures { result ≡ when (sub classes.now a.now operand.now) t }
{
    when(subtype(classes, a, operand), t)
}

// The type, where the operand is below collections of integers.
pub(crate) fn when_ints(
    alloc: Global,
    classes: &Classes,
    a: &Ty,
    t: Ty,
) -> Result<Option<Ty>, Memory>
    ensures { IfOk result (λ made. made ≡ when (sub classes.now a.now (ty.Coll ty.Int)) t) }
{
    let ints = coll_of(alloc, Ty::Int)?;
    Ok(when(subtype(classes, a, &ints), t))
}
