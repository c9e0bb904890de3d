// Names, data, types and classes that a row speaks of.
use crate::form::{self, Form};
use crate::odd::Odd;
use qc_containers::{Boxed, Name, NameFault};
use qc_data::{Datum, Json, Jsons, Members, dec};
use qc_types::{ClassDef, ClassFault, Classes, Row, Ty, Width};
use std::alloc::Global;

/// The name that a text spells.
pub fn name(alloc: Global, text: &str) -> Result<Name, Odd> {
    match Name::of(alloc, text) {
        Ok(name) => Ok(name),
        Err(NameFault::BadName) => Err(Odd::Form),
        Err(NameFault::Memory) => Err(Odd::Memory),
    }
}

/// The datum that the tree encodes.
pub fn datum(alloc: Global, json: &Json) -> Result<Datum, Odd> {
    match dec(alloc, json)? {
        Some(datum) => Ok(datum),
        None => Err(Odd::Form),
    }
}

/// The type that the tree describes, as a schema's file does, or the least one.
#[cycle(ty)]
pub fn ty(alloc: Global, json: &Json) -> Result<Ty, Odd> {
    match json {
        Json::Text(word) => atom(word.as_str()),
        Json::Object(members) => compound(alloc, members),
        _ => Err(Odd::Form),
    }
}

fn atom(word: &str) -> Result<Ty, Odd> {
    match word {
        "bottom" => Ok(Ty::Bottom),
        "unit" => Ok(Ty::Unit),
        "bool" => Ok(Ty::Bool),
        "int" => Ok(Ty::Int),
        "text" => Ok(Ty::Text),
        _ => Err(Odd::Form),
    }
}

#[cycle(ty)]
fn compound(alloc: Global, members: &Members) -> Result<Ty, Odd> {
    let pairs = members.as_slice();
    if pairs.len() != 1 {
        return Err(Odd::Form);
    }
    tagged(alloc, pairs[0].0.as_str(), &pairs[0].1)
}

#[cycle(ty)]
fn tagged(alloc: Global, tag: &str, json: &Json) -> Result<Ty, Odd> {
    match json {
        _ if tag == "bag" => Ok(Ty::Coll(Boxed::of(alloc, ty(alloc, json)?)?)),
        Json::Object(members) if tag == "record" => Ok(Ty::Rec(Width::Exact, row(alloc, members)?)),
        Json::Object(members) if tag == "open" => Ok(Ty::Rec(Width::Wide, row(alloc, members)?)),
        Json::Array(sides) if tag == "either" => either(alloc, sides),
        Json::Text(class) if tag == "class" => Ok(Ty::Brand(name(alloc, class.as_str())?)),
        _ => Err(Odd::Form),
    }
}

#[cycle(ty)]
fn row(alloc: Global, members: &Members) -> Result<Row, Odd> {
    let mut row = Row::new(alloc);
    for pair in members.as_slice() {
        let field = ty(alloc, &pair.1)?;
        add_field(alloc, &mut row, pair.0.as_str(), field)?;
    }
    Ok(row)
}

fn add_field(alloc: Global, row: &mut Row, text: &str, field: Ty) -> Result<(), Odd> {
    let name = name(alloc, text)?;
    if row.get(name.as_str()).is_some() {
        return Err(Odd::Form);
    }
    match row.put(name, field) {
        Ok(()) => Ok(()),
        Err(_) => Err(Odd::Memory),
    }
}

#[cycle(ty)]
fn either(alloc: Global, sides: &Jsons) -> Result<Ty, Odd> {
    let sides = sides.as_slice();
    if sides.len() != 2 {
        return Err(Odd::Form);
    }
    let left = Boxed::of(alloc, ty(alloc, &sides[0])?)?;
    let right = Boxed::of(alloc, ty(alloc, &sides[1])?)?;
    Ok(Ty::Either(left, right))
}

/// The row's classes, which are none where it has no such member. Those that are no good list are `BadClasses`.
pub fn classes(alloc: Global, row: &mut Form) -> Result<Result<Classes, ClassFault>, Odd> {
    let mut defs = Vec::new(alloc);
    if let Some(json) = row.maybe("classes") {
        for class in form::items(json)? {
            defs.push(class_def(alloc, class)?)?;
        }
    }
    match Classes::build(alloc, defs) {
        Err(ClassFault::Memory) => Err(Odd::Memory),
        built => Ok(built),
    }
}

/// The row's classes, which are a good list.
pub fn good_classes(alloc: Global, row: &mut Form) -> Result<Classes, Odd> {
    match classes(alloc, row)? {
        Ok(classes) => Ok(classes),
        Err(_) => Err(Odd::Form),
    }
}

fn class_def(alloc: Global, json: &Json) -> Result<ClassDef, Odd> {
    let mut class = Form::of(json)?;
    let name_of_class = name(alloc, class.word("name")?)?;
    let parent = match class.member("parent")? {
        Json::Null => None,
        parent => Some(name(alloc, form::word(parent)?)?),
    };
    let shape = ty(alloc, class.member("type")?)?;
    class.end()?;
    Ok(ClassDef {
        name: name_of_class,
        parent,
        shape,
    })
}
