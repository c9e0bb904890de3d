// Scopes: the types of what names stand for.
ghost use Rattle.std.specs.Option.{option_copied};
ghost use Rattle.std.specs.Prelude.{◌≡◌, []};
ghost use Rattle.qc_containers.specs.Pairs.{lookup};
ghost use Rattle.qc_typing.specs.Checking.{Checks};
ghost use Rattle.qc_oql_tree.specs.FormTypings.{type_of};
ghost use Rattle.qc_oql_check.specs.inner.Scopes.{onto, types_of};

use qc_containers::{Chars, List};
use qc_types::{Schema, Ty, copy_ty};
use qc_typing::TypeFault;
use std::alloc::Global;

// The names that a select binds with their types, the newest last.
pub(crate) type Row = List<(Chars, Ty)>;

// Types of names, and those of the scope around them.
#[derive(Drop)]
pub(crate) enum Scope<'a> {
    // No name.
    Empty,
    // A name and its type.
    Bind(&'a Chars, &'a Ty, &'a Scope<'a>),
    // What a select binds.
    Row(&'a [(Chars, Ty)], &'a Scope<'a>),
}

// The type of a name: of its newest binding, or else of its global.
pub(crate) fn name_type(
    alloc: Global,
    schema: &Schema,
    scope: &Scope,
    at: u32,
    name: &Chars,
) -> Result<Ty, TypeFault>
    ensures { Checks (type_of schema.now at name.now (types_of scope.now)) result }
{
    if let Some(ty) = binding(scope, name) {
        return Ok(copy_ty(alloc, ty)?);
    }
    match schema.globals().get(name.as_str()) {
        Some(ty) => Ok(copy_ty(alloc, ty)?),
        None => Err(TypeFault::BadType { at }),
    }
}

// The type of the newest binding of a name.
#[tactic(auto, using(crate::proofs::Lookups::lookup_onto))]
fn binding<'a>(scope: &'a Scope<'a>, name: &Chars) -> Option<&'a Ty>
    ensures { option_copied result ≡ lookup name.now (types_of scope.now) }
{
    match scope {
        Scope::Empty => None,
        Scope::Bind(bound, ty, outer) => {
            if bound.as_str() == name.as_str() {
                Some(ty)
            } else {
                binding(outer, name)
            }
        }
        Scope::Row(row, outer) => match in_row(row, name) {
            Some(ty) => Some(ty),
            None => binding(outer, name),
        },
    }
}

// The type of the last binding of a name in a row.
#[tactic(auto, using(crate::proofs::Lookups::lookup_newest))]
fn in_row<'a>(row: &'a [(Chars, Ty)], name: &Chars) -> Option<&'a Ty>
    ensures { option_copied result ≡ lookup name.now (onto row.now []) }
{
    let mut found = None;
    for bound in row {
        if bound.0.as_str() == name.as_str() {
            found = Some(&bound.1);
        }
    }
    found
}
