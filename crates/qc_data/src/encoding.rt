// JSON trees from data.
ghost use Rattle.std.specs.Prelude.{◌≡◌, [], ◌∷◌, IfOk, map, codes};
ghost use Rattle.qc_data.specs.Encoding.{enc};
ghost use Rattle.qc_containers.specs.Rising.{on_value};
ghost use Rattle.qc_data.specs.declared.data.Json.TheVariants.{Object, Text};

use crate::data::{Datum, Fields, Items, Json, Jsons, Members};
use qc_containers::{Boxed, Chars, Memory};
use std::alloc::Global;

/// The encoding of the datum: null, a boolean, an integer, a text, an array, an object, and for sides and class values
/// `{"$left":v}`, `{"$right":v}` and `{"$class":"C","$data":v}`.
#[cycle(encode)]
pub fn enc(alloc: Global, d: &Datum) -> Result<Json, Memory>
    ensures { IfOk result (λ made. made ≡ enc d.now) }
{
    match d {
        Datum::Unit => Ok(Json::Null),
        Datum::Bool(b) => Ok(Json::Bool(*b)),
        Datum::Int(n) => Ok(Json::Int(*n)),
        Datum::Text(text) => Ok(Json::Text(text.copy(alloc)?)),
        Datum::Coll(items) => Ok(Json::Array(enc_items(alloc, items)?)),
        Datum::Rec(fields) => Ok(Json::Object(enc_fields(alloc, fields)?)),
        Datum::Left(inner) => single(alloc, "$left", enc(alloc, inner.get())?),
        Datum::Right(inner) => single(alloc, "$right", enc(alloc, inner.get())?),
        Datum::Brand(name, inner) => {
            let class = Chars::of(alloc, name.as_str())?;
            branded(alloc, class, enc(alloc, inner.get())?)
        }
    }
}

// The encodings of the items.
#[cycle(encode)]
fn enc_items(alloc: Global, items: &Items) -> Result<Jsons, Memory>
    ensures { IfOk result (λ made. made ≡ map enc items.now) }
{
    let mut all = Jsons::new(alloc);
    for item in items.as_slice() {
        all.add(enc(alloc, item)?)?;
    }
    Ok(all)
}

// The encodings of the values at their names.
#[cycle(encode)]
fn enc_fields(alloc: Global, fields: &Fields) -> Result<Members, Memory>
    ensures { IfOk result (λ made. made ≡ map (on_value enc) fields.now) }
{
    let mut all = Members::new(alloc);
    for pair in fields.as_slice() {
        let text = Chars::of(alloc, pair.0.as_str())?;
        all.add(text, enc(alloc, &pair.1)?)?;
    }
    Ok(all)
}

// An object of one member.
fn single(alloc: Global, text: &str, j: Json) -> Result<Json, Memory>
    ensures { IfOk result (λ made. made ≡ Object ((text.now, j) ∷ [])) }
{
    let mut all = Members::new(alloc);
    all.add(Chars::of(alloc, text)?, j)?;
    Ok(Json::Object(all))
}

// The object of a class value.
fn branded(alloc: Global, class: Chars, j: Json) -> Result<Json, Memory>
    ensures { IfOk result (λ made. made ≡ Object ((codes "$class", Text class) ∷ (codes "$data", j) ∷ [])) }
{
    let mut all = Members::new(alloc);
    all.add(Chars::of(alloc, "$class")?, Json::Text(class))?;
    all.add(Chars::of(alloc, "$data")?, j)?;
    Ok(Json::Object(all))
}
