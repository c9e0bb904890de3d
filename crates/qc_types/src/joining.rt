// Joins.
ghost use Rattle.std.specs.Prelude.{◌≡◌, [], ◌++◌, IfOk, OnOk, option_map};
ghost use Rattle.qc_containers.specs.Rising.{Rising};
ghost use Rattle.qc_types.specs.Classes.{common};
ghost use Rattle.qc_types.specs.Joins.{AboveBoth, join, put_some, shared, width_of};
ghost use Rattle.qc_types.specs.Rows.{names};
ghost use Rattle.qc_types.specs.declared.ty.Ty.TheVariants as ty;

use crate::classes::Classes;
use crate::index::ClassIndex;
use crate::rows::{is_same_names, value_of};
use crate::ty::{Row, Ty, Width, copy_ty};
use qc_containers::{Boxed, Memory, Name};
use std::alloc::Global;

/// A type above both, where there is one.
pub fn join(alloc: Global, classes: &Classes, a: &Ty, b: &Ty) -> Result<Option<Ty>, Memory>
    ensures value { IfOk result (λ made. made ≡ join classes.now a.now b.now) }
    ensures above { IfOk result (λ made. AboveBoth classes.now a.now b.now made) }
{
    join_of(alloc, classes.index(), a, b)
}

// The same over a list of classes, by the parts of `a`.
#[cycle(join)]
#[tactic(auto, using(crate::proofs::JoinKinds::by_layer))]
fn join_of(alloc: Global, index: &ClassIndex, a: &Ty, b: &Ty) -> Result<Option<Ty>, Memory>
    ensures { IfOk result (λ made. made ≡ join index.now a.now b.now) }
{
    match (a, b) {
        (Ty::Bottom, _) => Ok(Some(copy_ty(alloc, b)?)),
        (_, Ty::Bottom) => Ok(Some(copy_ty(alloc, a)?)),
        (Ty::Unit, Ty::Unit) => Ok(Some(Ty::Unit)),
        (Ty::Bool, Ty::Bool) => Ok(Some(Ty::Bool)),
        (Ty::Int, Ty::Int) => Ok(Some(Ty::Int)),
        (Ty::Text, Ty::Text) => Ok(Some(Ty::Text)),
        (Ty::Coll(t), Ty::Coll(u)) => match join_of(alloc, index, t.get(), u.get())? {
            Some(item) => Ok(Some(Ty::Coll(Boxed::of(alloc, item)?))),
            None => Ok(None),
        },
        (Ty::Rec(w, ts), Ty::Rec(v, us)) => {
            let row = join_rows(alloc, index, ts, us)?;
            let same = is_same_names(ts, us) && is_same_names(&row, ts);
            Ok(Some(Ty::Rec(width_of(*w, *v, same), row)))
        }
        (Ty::Either(t, u), Ty::Either(v, w)) => {
            let left = match join_of(alloc, index, t.get(), v.get())? {
                Some(left) => left,
                None => return Ok(None),
            };
            match join_of(alloc, index, u.get(), w.get())? {
                Some(right) => Ok(Some(Ty::Either(
                    Boxed::of(alloc, left)?,
                    Boxed::of(alloc, right)?,
                ))),
                None => Ok(None),
            }
        }
        (Ty::Brand(n), Ty::Brand(m)) => join_brands(alloc, index, n, m),
        _ => Ok(None),
    }
}

// Exact where both are and the names are the same.
fn width_of(a: Width, b: Width, same: bool) -> Width
    ensures { result ≡ width_of a b same }
{
    match (a, b) {
        (Width::Exact, Width::Exact) => { if same { Width::Exact } else { Width::Wide } }
        _ => Width::Wide,
    }
}

// The type of the first class that is above both.
fn join_brands(alloc: Global, index: &ClassIndex, a: &Name, b: &Name) -> Result<Option<Ty>, Memory>
    ensures { IfOk result (λ made. made ≡ option_map (λ name. ty.Brand name) (common index.now a.now b.now)) }
{
    match index.common(a, b) {
        Some(name) => Ok(Some(Ty::Brand(name.copy(alloc)?))),
        None => Ok(None),
    }
}

// The fields that both have, with types that join.
#[cycle(join)]
fn join_rows(alloc: Global, index: &ClassIndex, ts: &Row, us: &Row) -> Result<Row, Memory>
    ensures { IfOk result (λ made. made ≡ shared (join index.now) (names ts.now) ts.now us.now) }
{
    let mut row = Row::new(alloc);
    for pair in ts.as_slice() {
        match value_of(us, pair.0.as_str()) {
            Some(u) => {
                let made = join_of(alloc, index, &pair.1, u)?;
                add_some(alloc, &mut row, &pair.0, made)?;
            }
            None => {}
        }
    }
    Ok(row)
}

// Puts the field last, if there is a type for it.
fn add_some(alloc: Global, row: &mut Row, name: &Name, made: Option<Ty>) -> Result<(), Memory>
    requires rising { Rising (row.old ++ put_some name.now made []) }
    ensures { OnOk result (row.new ≡ row.old ++ put_some name.now made []) }
{
    match made {
        Some(t) => {
            let name = name.copy(alloc)?;
            row.add(name, t)
        }
        None => Ok(()),
    }
}
