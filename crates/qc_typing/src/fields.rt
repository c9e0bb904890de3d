// Fields by name: those at names, and those of two records.
ghost use Rattle.std.specs.Prelude.{◌≡◌, IfOk, OnOk};
ghost use Rattle.qc_ops.specs.Records.{is_among};
ghost use Rattle.qc_typing.specs.FieldTypes.{chosen, has_names, over, put_new, shared_join};

use qc_containers::{Memory, Name};
use qc_ops::Names;
use qc_types::{Classes, Row, Ty, copy_row, copy_ty, join};
use std::alloc::Global;

// Whether the name is one of the names.
pub(crate) fn is_among(name: &Name, names: &Names) -> bool
    ensures { result ≡ is_among name.now names.now }
{
    for other in names.as_slice() {
        if name.as_str() == other.as_str() {
            return true;
        }
    }
    false
}

// Whether the row has each of the names.
pub(crate) fn has_names(names: &Names, row: &Row) -> bool
    ensures { result ≡ has_names names.now row.now }
{
    for name in names.as_slice() {
        if row.get(name.as_str()).is_none() {
            return false;
        }
    }
    true
}

// The fields at the names.
pub(crate) fn chosen(alloc: Global, names: &Names, row: &Row) -> Result<Row, Memory>
    ensures { IfOk result (λ made. made ≡ chosen names.now row.now) }
{
    let names = names.as_slice();
    let mut fields = Row::new(alloc);
    let mut at = names.len();
    while at > 0 {
        at -= 1;
        let name = &names[at];
        match row.get(name.as_str()) {
            Some(t) => put_new(alloc, &mut fields, name, t)?,
            None => {}
        }
    }
    Ok(fields)
}

// The fields of both, the second's on shared names.
pub(crate) fn over(alloc: Global, first: &Row, second: &Row) -> Result<Row, Memory>
    ensures { IfOk result (λ made. made ≡ over first.now second.now) }
{
    let mut fields = copy_row(alloc, second)?;
    for field in first.as_slice() {
        put_new(alloc, &mut fields, &field.0, &field.1)?;
    }
    Ok(fields)
}

// Puts a copy of the field in its place, unless there is one of its name.
fn put_new(alloc: Global, row: &mut Row, name: &Name, t: &Ty) -> Result<(), Memory>
    ensures { OnOk result (row.new ≡ put_new name.now t.now row.old) }
{
    if row.get(name.as_str()).is_some() {
        return Ok(());
    }
    let name = name.copy(alloc)?;
    let t = copy_ty(alloc, t)?;
    match row.put(name, t) {
        Ok(()) => Ok(()),
        Err(_) => Err(Memory),
    }
}

// Whether the types at shared names join.
pub(crate) fn shared_join(
    alloc: Global,
    classes: &Classes,
    first: &Row,
    second: &Row,
) -> Result<bool, Memory>
    ensures { IfOk result (λ made. made ≡ shared_join classes.now first.now second.now) }
{
    for field in first.as_slice() {
        match second.get(field.0.as_str()) {
            Some(t) => {
                if join(alloc, classes, &field.1, t)?.is_none() {
                    return Ok(false);
                }
            }
            None => {}
        }
    }
    Ok(true)
}
