// Two records walked together.
ghost use Rattle.std.specs.Prelude.{◌≡◌, [], ◌∷◌, ◌++◌, OnOk, IfOk};
ghost use Rattle.qc_containers.specs.Rising.{Rising};
ghost use Rattle.qc_ops.specs.Records.{compatible, over, put_new};

use qc_containers::{Memory, Name, Share};
use qc_data::{Datum, Fields, copy};
use qc_keys::is_same;
use std::alloc::Global;
use std::cmp::Ordering;

// All fields, the second's on shared names. Where one record has none, the other is shared.
#[tactic(auto, using(crate::proofs::Overlays::over_none))]
pub(crate) fn over(alloc: Global, first: &Fields, second: &Fields) -> Result<Fields, Memory>
    ensures { IfOk result (λ made. made ≡ over first.now second.now) }
{
    if first.as_slice().is_empty() {
        second.share(alloc)
    } else if second.as_slice().is_empty() {
        first.share(alloc)
    } else {
        walked(alloc, first, second)
    }
}

// The same in one pass over both.
fn walked(alloc: Global, first: &Fields, second: &Fields) -> Result<Fields, Memory>
    ensures { IfOk result (λ made. made ≡ over first.now second.now) }
{
    let left = first.as_slice();
    let right = second.as_slice();
    let mut all = Fields::new(alloc);
    let mut at = 0;
    let mut to = 0;
    while at < left.len() && to < right.len() {
        let mine = &left[at];
        let theirs = &right[to];
        match mine.0.as_str().cmp(theirs.0.as_str()) {
            Ordering::Less => {
                put_last(alloc, &mut all, mine)?;
                at += 1;
            }
            Ordering::Equal => at += 1,
            Ordering::Greater => {
                put_last(alloc, &mut all, theirs)?;
                to += 1;
            }
        }
    }
    put_all_last(alloc, &mut all, &left[at..])?;
    put_all_last(alloc, &mut all, &right[to..])?;
    Ok(all)
}

// At most so many fields are put into a record one by one.
const FEW: usize = 4;

// The same of a second record that is not needed again, into which a few fields are put in place.
pub(crate) fn over_taken(alloc: Global, first: &Fields, second: Fields) -> Result<Fields, Memory>
    ensures { IfOk result (λ made. made ≡ over first.now second) }
{
    if first.len() > FEW {
        over(alloc, first, &second)
    } else {
        put_under(alloc, first.as_slice(), second)
    }
}

// Fields put into a record that is not needed again, the last first.
fn put_under(alloc: Global, fields: &[(Name, Datum)], second: Fields) -> Result<Fields, Memory>
    ensures { IfOk result (λ made. made ≡ over fields.now second) }
{
    match fields {
        [] => Ok(second),
        [field, later @ ..] => {
            let mut made = put_under(alloc, later, second)?;
            put_new(alloc, &mut made, field)?;
            Ok(made)
        }
    }
}

// Puts a copy of the field in its place, unless there is one of its name.
fn put_new(alloc: Global, all: &mut Fields, field: &(Name, Datum)) -> Result<(), Memory>
    ensures { OnOk result (all.new ≡ put_new field.now.0 field.now.1 all.old) }
{
    if all.get(field.0.as_str()).is_some() {
        return Ok(());
    }
    let name = field.0.copy(alloc)?;
    let value = copy(alloc, &field.1)?;
    match all.put(name, value) {
        Ok(()) => Ok(()),
        Err(_) => Err(Memory),
    }
}

// Whether the values at shared names are the same, in one pass over both.
pub(crate) fn compatible(alloc: Global, first: &Fields, second: &Fields) -> Result<bool, Memory>
    ensures { IfOk result (λ answer. answer ≡ compatible first.now second.now) }
{
    let left = first.as_slice();
    let right = second.as_slice();
    let mut at = 0;
    let mut to = 0;
    while at < left.len() && to < right.len() {
        let mine = &left[at];
        let theirs = &right[to];
        match mine.0.as_str().cmp(theirs.0.as_str()) {
            Ordering::Less => at += 1,
            Ordering::Equal => {
                if !is_same(alloc, &mine.1, &theirs.1)? {
                    return Ok(false);
                }
                at += 1;
            }
            Ordering::Greater => to += 1,
        }
    }
    Ok(true)
}

// Puts a copy of the field last.
pub(crate) fn put_last(alloc: Global, all: &mut Fields, pair: &(Name, Datum)) -> Result<(), Memory>
    requires { Rising (all.old ++ pair.now ∷ []) }
    ensures { OnOk result (all.new ≡ all.old ++ pair.now ∷ []) }
{
    let name = pair.0.copy(alloc)?;
    let value = copy(alloc, &pair.1)?;
    all.add(name, value)
}

// Puts copies of the fields last.
fn put_all_last(alloc: Global, all: &mut Fields, more: &[(Name, Datum)]) -> Result<(), Memory>
    requires { Rising (all.old ++ more.now) }
    ensures { OnOk result (all.new ≡ all.old ++ more.now) }
{
    for pair in more {
        put_last(alloc, all, pair)?;
    }
    Ok(())
}
