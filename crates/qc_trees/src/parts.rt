// Types from types.
ghost use Rattle.qc_containers.specs.Pairs.{lookup};
ghost use Rattle.qc_trees.specs.Infers.{Infers};
ghost use Rattle.qc_trees.specs.PartTypes.{chosen_type};
ghost use Rattle.qc_typing.specs.Kinds.{bound_by};

use crate::untyped::{NoType, known};
use qc_containers::Name;
use qc_types::{Classes, Schema, Ty, copy_ty, join, subtype};
use qc_typing::bound_by;
use std::alloc::Global;

/// The type of the members of a collection, or of no datum, where it has one.
pub fn member_of(alloc: Global, t: &Ty) -> Result<Ty, NoType>
    ensures { Infers (bound_by t.now) result }
{
    match bound_by(t) {
        Some(member) => Ok(copy_ty(alloc, member)?),
        None => Err(NoType::Untyped),
    }
}

/// The type of a global.
pub fn global_type(alloc: Global, schema: &Schema, name: &Name) -> Result<Ty, NoType>
    ensures { Infers (lookup name.now schema.now.globals) result }
{
    match schema.globals().get(name.as_str()) {
        Some(t) => Ok(copy_ty(alloc, t)?),
        None => Err(NoType::Untyped),
    }
}

/// The join of two branches, where the condition is a truth value.
pub fn branches(
    alloc: Global,
    classes: &Classes,
    condition: &Ty,
    branch: &Ty,
    other: &Ty,
) -> Result<Ty, NoType>
    ensures { Infers (chosen_type classes.now condition.now branch.now other.now) result }
{
    if subtype(classes, condition, &Ty::Bool) {
        known(join(alloc, classes, branch, other)?)
    } else {
        Err(NoType::Untyped)
    }
}
