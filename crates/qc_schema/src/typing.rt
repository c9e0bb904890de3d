// Types from JSON trees.
ghost use Rattle.std.specs.Prelude.{◌≡◌, ◌&&◌, IfOk, Some, None, cond, map};
ghost use Rattle.qc_containers.specs.Name.{is_name};
ghost use Rattle.qc_containers.specs.Rising.{on_value};
ghost use Rattle.qc_types.specs.Schemas.{user};
ghost use Rattle.qc_schema.specs.TypeForms.{said, row_of, object_of, tagged, atom, name_in, two_of};

use qc_containers::{Boxed, Memory, Name, NameFault};
use qc_data::{Json, Jsons, Members};
use qc_types::{Row, Ty, Width};
use std::alloc::Global;

// The type that the tree means.
#[cycle(typed)]
pub(crate) fn read_type(alloc: Global, j: &Json) -> Result<Option<Ty>, Memory>
    ensures { IfOk result (λ o. o ≡ (said j.now).ty) }
{
    match j {
        Json::Text(text) => Ok(read_atom(text.as_str())),
        Json::Object(members) => read_object(alloc, members),
        _ => Ok(None),
    }
}

// The type of the word.
fn read_atom(text: &str) -> Option<Ty>
    ensures { result ≡ atom text.now }
{
    if text == "unit" {
        Some(Ty::Unit)
    } else if text == "bool" {
        Some(Ty::Bool)
    } else if text == "int" {
        Some(Ty::Int)
    } else if text == "text" {
        Some(Ty::Text)
    } else {
        None
    }
}

// The type that an object of one member means.
#[cycle(typed)]
fn read_object(alloc: Global, members: &Members) -> Result<Option<Ty>, Memory>
    ensures { IfOk result (λ o. o ≡ object_of (map (on_value said) members.now)) }
{
    let pairs = members.as_slice();
    if pairs.len() != 1 {
        return Ok(None);
    }
    read_tagged(alloc, &pairs[0].1, pairs[0].0.as_str())
}

// The type of the member's name and tree.
#[cycle(typed)]
fn read_tagged(alloc: Global, j: &Json, name: &str) -> Result<Option<Ty>, Memory>
    ensures { IfOk result (λ o. o ≡ tagged name.now (said j.now)) }
{
    if name == "bag" {
        return match read_type(alloc, j)? {
            Some(item) => Ok(Some(Ty::Coll(Boxed::of(alloc, item)?))),
            None => Ok(None),
        };
    }
    if name == "record" {
        return match read_row(alloc, j)? {
            Some(row) => Ok(Some(Ty::Rec(Width::Exact, row))),
            None => Ok(None),
        };
    }
    if name == "open" {
        return match read_row(alloc, j)? {
            Some(row) => Ok(Some(Ty::Rec(Width::Wide, row))),
            None => Ok(None),
        };
    }
    if name == "either" {
        return match read_two(alloc, j)? {
            Some(two) => Ok(Some(Ty::Either(Boxed::of(alloc, two.0)?, Boxed::of(alloc, two.1)?))),
            None => Ok(None),
        };
    }
    if name == "class" {
        return match read_class(alloc, j)? {
            Some(class) => Ok(Some(Ty::Brand(class))),
            None => Ok(None),
        };
    }
    Ok(None)
}

// The fields that the tree means.
#[cycle(typed)]
pub(crate) fn read_row(alloc: Global, j: &Json) -> Result<Option<Row>, Memory>
    ensures { IfOk result (λ o. o ≡ (said j.now).row) }
{
    match j {
        Json::Object(members) => read_fields(alloc, members),
        _ => Ok(None),
    }
}

// The fields of the members' names and trees.
#[cycle(typed)]
fn read_fields(alloc: Global, members: &Members) -> Result<Option<Row>, Memory>
    ensures { IfOk result (λ o. o ≡ row_of (map (on_value said) members.now)) }
{
    let mut all = Row::new(alloc);
    for pair in members.as_slice() {
        let name = match user_name(alloc, pair.0.as_str())? {
            Some(name) => name,
            None => return Ok(None),
        };
        match read_type(alloc, &pair.1)? {
            Some(t) => all.add(name, t)?,
            None => return Ok(None),
        }
    }
    Ok(Some(all))
}

// The two types that the tree means.
#[cycle(typed)]
fn read_two(alloc: Global, j: &Json) -> Result<Option<(Ty, Ty)>, Memory>
    ensures { IfOk result (λ o. o ≡ (said j.now).two) }
{
    match j {
        Json::Array(items) => read_pair(alloc, items),
        _ => Ok(None),
    }
}

// The types of the two items.
#[cycle(typed)]
fn read_pair(alloc: Global, items: &Jsons) -> Result<Option<(Ty, Ty)>, Memory>
    ensures { IfOk result (λ o. o ≡ two_of (map said items.now)) }
{
    let all = items.as_slice();
    if all.len() != 2 {
        return Ok(None);
    }
    let Some(first) = read_type(alloc, &all[0])? else {
        return Ok(None);
    };
    match read_type(alloc, &all[1])? {
        Some(second) => Ok(Some((first, second))),
        None => Ok(None),
    }
}

// The class's name that the tree means.
pub(crate) fn read_class(alloc: Global, j: &Json) -> Result<Option<Name>, Memory>
    ensures { IfOk result (λ o. o ≡ (said j.now).class) }
{
    match j {
        Json::Text(text) => read_name(alloc, text.as_str()),
        _ => Ok(None),
    }
}

// The text as a name.
fn read_name(alloc: Global, text: &str) -> Result<Option<Name>, Memory>
    ensures { IfOk result (λ o. o ≡ name_in text.now) }
{
    match Name::of(alloc, text) {
        Ok(name) => Ok(Some(name)),
        Err(NameFault::BadName) => Ok(None),
        Err(NameFault::Memory) => Err(Memory),
    }
}

// The text as a name that a user may give.
fn user_name(alloc: Global, text: &str) -> Result<Option<Name>, Memory>
    ensures { IfOk result (λ o. o ≡ cond (is_name text.now && user text.now) (Some text.now) None) }
{
    let Some(name) = read_name(alloc, text)? else {
        return Ok(None);
    };
    if !is_user(&name) {
        return Ok(None);
    }
    Ok(Some(name))
}

// Whether a user may give the name.
fn is_user(name: &Name) -> bool
    ensures { result ≡ user name.now }
{
    name.is_user()
}
