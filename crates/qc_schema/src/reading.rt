// JSON trees from bytes.
ghost use Rattle.std.specs.Prelude.{◌≡◌, IfOk};
ghost use Rattle.serde_json.specs.View.{view, items_view, members_view};
ghost use Rattle.qc_data.specs.declared.data.Json.{Json};
ghost use Rattle.qc_schema.specs.JsonReading.{of_data, of_items, of_members, Means};

use crate::faults::InputFault;
use crate::texts::Texts;
use qc_containers::Memory;
use qc_data::{Json as Tree, Jsons, Members};
use serde_json::{Map, Value};
use std::alloc::Global;

/// The tree that JSON bytes mean: nested to a depth of 127, and each number an integer of 64 bits. Of a name that is
/// repeated in an object the last value counts. `BadInput` exactly where the bytes mean no tree.
pub fn read_json(alloc: Global, bytes: &[u8]) -> Result<Tree, InputFault>
    ensures ok { IfOk result (λ j. Means bytes.now j) }
    ensures bad { result ≡ Err InputFault.BadInput → (j : Json) → ¬ Means bytes.now j }
{
    match Value::from_slice(alloc, bytes) {
        Ok(value) => match convert(alloc, value, &mut Texts::new(alloc)?)? {
            Some(tree) => Ok(tree),
            None => Err(InputFault::BadInput),
        },
        Err(e) => {
            if e.is_memory() {
                Err(InputFault::Memory)
            } else {
                Err(InputFault::BadInput)
            }
        }
    }
}

// The value as a tree, where every number is an integer. Each part is freed as soon as its tree is made, and a text
// that comes again is shared.
#[cycle(convert)]
fn convert(alloc: Global, value: Value, texts: &mut Texts) -> Result<Option<Tree>, Memory>
    ensures { IfOk result (λ o. o ≡ of_data (view value)) }
{
    match value {
        Value::Null => Ok(Some(Tree::Null)),
        Value::Bool(b) => Ok(Some(Tree::Bool(b))),
        Value::Number(n) => match n.as_i64() {
            Some(n) => Ok(Some(Tree::Int(n))),
            None => Ok(None),
        },
        Value::String(text) => Ok(Some(Tree::Text(texts.hold(text)?))),
        Value::Array(items) => match convert_items(alloc, items, texts)? {
            Some(all) => Ok(Some(Tree::Array(all))),
            None => Ok(None),
        },
        Value::Object(members) => match convert_members(alloc, members, texts)? {
            Some(all) => Ok(Some(Tree::Object(all))),
            None => Ok(None),
        },
    }
}

// The same of each item.
#[cycle(convert)]
fn convert_items(
    alloc: Global,
    items: Vec<Value>,
    texts: &mut Texts,
) -> Result<Option<Jsons>, Memory>
    ensures { IfOk result (λ o. o ≡ of_items (items_view items.items)) }
{
    let mut all = Jsons::new(alloc);
    for item in items {
        match convert(alloc, item, texts)? {
            Some(tree) => all.add(tree)?,
            None => return Ok(None),
        }
    }
    Ok(Some(all))
}

// The same of each member.
#[cycle(convert)]
fn convert_members(
    alloc: Global,
    members: Map<String, Value>,
    texts: &mut Texts,
) -> Result<Option<Members>, Memory>
    ensures { IfOk result (λ o. o ≡ of_members (members_view members.entries)) }
{
    let mut all = Members::new(alloc);
    for (key, member) in members {
        let name = texts.hold(key)?;
        match convert(alloc, member, texts)? {
            Some(tree) => all.add(name, tree)?,
            None => return Ok(None),
        }
    }
    Ok(Some(all))
}
