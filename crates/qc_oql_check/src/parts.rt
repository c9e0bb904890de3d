// What the parts of forms give, by their types.
ghost use Rattle.std.specs.Prelude.{◌≡◌, IfOk};
ghost use Rattle.qc_types.specs.declared.ty.Ty.TheVariants as ty;
ghost use Rattle.qc_typing.specs.Kinds.{when};
ghost use Rattle.qc_oql_tree.specs.PartTypes.{join_all};
ghost use Rattle.qc_oql_tree.specs.OperatorTypes.{constant_type};

use qc_containers::Memory;
use qc_oql_tree::Constant;
use qc_types::{Classes, Ty, join};
use std::alloc::Global;

// The type of `true`, `false` or `nil`.
pub(crate) fn constant_type(constant: Constant) -> Ty
    ensures { result ≡ constant_type constant }
{
    match constant {
        Constant::True => Ty::Bool,
        Constant::False => Ty::Bool,
        Constant::Nil => Ty::Unit,
    }
}

// Truth values, where the test is true.
pub(crate) fn bool_when(test: bool) -> Option<Ty>
    ensures { result ≡ when test ty.Bool }
{
    if test { Some(Ty::Bool) } else { None }
}

// The join of the types, from left to right.
pub(crate) fn join_all(alloc: Global, classes: &Classes, types: &[Ty]) -> Result<Option<Ty>, Memory>
    ensures { IfOk result (λ made. made ≡ join_all classes.now ty.Bottom types.now) }
{
    let mut joined = Ty::Bottom;
    for member in types {
        match join(alloc, classes, &joined, member)? {
            Some(above) => joined = above,
            None => return Ok(None),
        }
    }
    Ok(Some(joined))
}
