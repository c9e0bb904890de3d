// The types that operators on class values give.
ghost use Rattle.std.specs.Prelude.{◌≡◌, IfOk, option_and_then};
ghost use Rattle.qc_types.specs.Classes.{listed, shape};
ghost use Rattle.qc_types.specs.Types.{sub};
ghost use Rattle.qc_types.specs.declared.ty.Ty.TheVariants as ty;
ghost use Rattle.qc_typing.specs.Kinds.{own_class, when};

use crate::kinds::{either_of, own_class, when};
use qc_containers::{Memory, Name};
use qc_types::{Classes, Ty, copy_ty, subtype};
use std::alloc::Global;

// Whether some class has the name.
pub(crate) fn is_listed(classes: &Classes, name: &Name) -> bool
    ensures { result ≡ listed classes.now name.now }
{
    classes.find(name.as_str()).is_some()
}

// The class's values, where the operand is below its shape.
pub(crate) fn brand_type(
    alloc: Global,
    classes: &Classes,
    name: &Name,
    a: &Ty,
) -> Result<Option<Ty>, Memory>
    ensures { IfOk result
        (λ made. made
        ≡ option_and_then (λ t. when (sub classes.now a.now t) (ty.Brand name.now)) (shape classes.now name.now)) }
{
    match classes.find(name.as_str()) {
        Some(class) => Ok(when(
            subtype(classes, a, &class.shape),
            Ty::Brand(name.copy(alloc)?),
        )),
        None => Ok(None),
    }
}

// The shape of the operand's class.
pub(crate) fn content_type(alloc: Global, classes: &Classes, a: &Ty) -> Result<Option<Ty>, Memory>
    ensures { IfOk result (λ made. made ≡ option_and_then (shape classes.now) (own_class a.now)) }
{
    match own_class(a) {
        Some(name) => shape_of(alloc, classes, name),
        None => Ok(None),
    }
}

// The shape of a class.
fn shape_of(alloc: Global, classes: &Classes, name: &Name) -> Result<Option<Ty>, Memory>
    ensures { IfOk result (λ made. made ≡ shape classes.now name.now) }
{
    match classes.find(name.as_str()) {
        Some(class) => Ok(Some(copy_ty(alloc, &class.shape)?)),
        None => Ok(None),
    }
}

// The class's values, or unit, where the operand is of some class.
pub(crate) fn cast_type(
    alloc: Global,
    classes: &Classes,
    name: &Name,
    a: &Ty,
) -> Result<Option<Ty>, Memory>
    ensures { IfOk result
        (λ made. made
        ≡ option_and_then (λ b. when (listed classes.now name.now) (ty.Either (ty.Brand name.now) ty.Unit))
        (own_class a.now)) }
{
    match own_class(a) {
        Some(_) => {
            let cast = either_of(alloc, Ty::Brand(name.copy(alloc)?), Ty::Unit)?;
            Ok(when(is_listed(classes, name), cast))
        }
        None => Ok(None),
    }
}
