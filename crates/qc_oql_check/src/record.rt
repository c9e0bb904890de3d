// The rows of structs.
ghost use Rattle.std.specs.Prelude.{[]};
ghost use Rattle.qc_typing.specs.Checking.{Checks};
ghost use Rattle.qc_oql_tree.specs.PartTypes.{row_of};
ghost use Rattle.qc_oql_check.specs.inner.Scopes.{field_types, with_field};

use crate::operators::name_of;
use qc_containers::Chars;
use qc_types::{Row, Ty, copy_ty};
use qc_typing::TypeFault;
use std::alloc::Global;

// A field of a struct.
#[derive(Drop)]
pub(crate) struct TypedField<'a> {
    // The place of its label.
    pub(crate) at: u32,
    // The label.
    pub(crate) label: &'a Chars,
    // The type of its value.
    pub(crate) of: Ty,
}

// The fields by name. A label that is no name, or that an earlier field has, is a fault.
pub(crate) fn row_of(alloc: Global, fields: &[TypedField]) -> Result<Row, TypeFault>
    ensures { Checks (row_of (field_types fields.now) []) result }
{
    let mut row = Row::new(alloc);
    for field in fields {
        row = with_field(alloc, row, field.at, field.label, &field.of)?;
    }
    Ok(row)
}

// The row with one more field.
fn with_field(alloc: Global, row: Row, at: u32, label: &Chars, of: &Ty) -> Result<Row, TypeFault>
    ensures { Checks (with_field (record { at = at; label = label.now; type = of.now }) row) result }
{
    let mut row = row;
    let Some(name) = name_of(alloc, label)? else {
        return Err(TypeFault::BadType { at });
    };
    if row.get(name.as_str()).is_some() {
        return Err(TypeFault::BadType { at });
    }
    match row.put(name, copy_ty(alloc, of)?) {
        Ok(()) => Ok(row),
        Err(_) => Err(TypeFault::Memory),
    }
}
