// Copies of data and of JSON trees.
ghost use Rattle.std.specs.Prelude.{◌≡◌, IfOk};

use crate::data::{Datum, Json};
use qc_containers::{Memory, Share};
use std::alloc::Global;

/// A copy: the same datum, whose parts the two share. It takes the same time and memory, however large the datum is.
pub fn copy(alloc: Global, d: &Datum) -> Result<Datum, Memory>
    ensures { IfOk result (λ made. made ≡ d.now) }
{
    match d {
        Datum::Unit => Ok(Datum::Unit),
        Datum::Bool(b) => Ok(Datum::Bool(*b)),
        Datum::Int(n) => Ok(Datum::Int(*n)),
        Datum::Text(text) => Ok(Datum::Text(text.share(alloc)?)),
        Datum::Coll(items) => Ok(Datum::Coll(items.share(alloc)?)),
        Datum::Rec(fields) => Ok(Datum::Rec(fields.share(alloc)?)),
        Datum::Left(inner) => Ok(Datum::Left(inner.share(alloc)?)),
        Datum::Right(inner) => Ok(Datum::Right(inner.share(alloc)?)),
        Datum::Brand(name, inner) => {
            let name = name.share(alloc)?;
            Ok(Datum::Brand(name, inner.share(alloc)?))
        }
    }
}

impl Share for Datum {
    fn share(&self, alloc: Global) -> Result<Datum, Memory> {
        copy(alloc, self)
    }
}

/// A copy: the same tree, whose parts the two share. It takes the same time and memory, however large the tree is.
pub fn copy_json(alloc: Global, j: &Json) -> Result<Json, Memory>
    ensures { IfOk result (λ made. made ≡ j.now) }
{
    match j {
        Json::Null => Ok(Json::Null),
        Json::Bool(b) => Ok(Json::Bool(*b)),
        Json::Int(n) => Ok(Json::Int(*n)),
        Json::Text(text) => Ok(Json::Text(text.share(alloc)?)),
        Json::Array(items) => Ok(Json::Array(items.share(alloc)?)),
        Json::Object(members) => Ok(Json::Object(members.share(alloc)?)),
    }
}

impl Share for Json {
    fn share(&self, alloc: Global) -> Result<Json, Memory> {
        copy_json(alloc, self)
    }
}
