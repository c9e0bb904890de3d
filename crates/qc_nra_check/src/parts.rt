// The types of forms, by the types of their parts.
ghost use Rattle.std.specs.Prelude.{◌≡◌, IfOk};
ghost use Rattle.qc_nra_check.specs.FormTypes.{default_type, pairs_type, product_type, records};
ghost use Rattle.qc_trees.specs.Infers.{Infers};

use qc_containers::Memory;
use qc_ops::Binary;
use qc_trees::{NoType, known, member_of};
use qc_types::{Classes, Row, Ty, Width, join, subtype};
use qc_typing::{bound_by, coll_of, type2};
use std::alloc::Global;

// The type of collections of records.
fn records(alloc: Global) -> Result<Ty, Memory>
    ensures { IfOk result (λ made. made ≡ records) }
{
    coll_of(alloc, Ty::Rec(Width::Wide, Row::new(alloc)))
}

// Collections of what cat gives of two members.
fn pairs_type(alloc: Global, classes: &Classes, t: &Ty, u: &Ty) -> Result<Ty, NoType>
    ensures { Infers (pairs_type classes.now t.now u.now) result }
{
    let first = member_of(alloc, t)?;
    let second = member_of(alloc, u)?;
    let pair = known(type2(alloc, classes, &Binary::Cat, &first, &second)?)?;
    Ok(coll_of(alloc, pair)?)
}

// The same of two collections of records.
pub(crate) fn product_type(alloc: Global, classes: &Classes, t: &Ty, u: &Ty) -> Result<Ty, NoType>
    ensures { Infers (product_type classes.now t.now u.now) result }
{
    let records = records(alloc)?;
    if subtype(classes, t, &records) && subtype(classes, u, &records) {
        pairs_type(alloc, classes, t, u)
    } else {
        Err(NoType::Untyped)
    }
}

// The join of two collections.
pub(crate) fn default_type(alloc: Global, classes: &Classes, t: &Ty, u: &Ty) -> Result<Ty, NoType>
    ensures { Infers (default_type classes.now t.now u.now) result }
{
    if bound_by(t).is_some() && bound_by(u).is_some() {
        known(join(alloc, classes, t, u)?)
    } else {
        Err(NoType::Untyped)
    }
}
