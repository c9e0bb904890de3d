// The texts of JSON trees.
ghost use Rattle.std.specs.Prelude.{◌≡◌, ◌≤◌, IfOk, IsUtf8, OnOk, map};
ghost use Rattle.std.specs.String.{string_bytes};
ghost use Rattle.serde_json.specs.Data.{number, array, object, depth};
ghost use Rattle.serde_json.specs.Events.{SendsValue};
ghost use Rattle.serde_json.specs.Find.{of_integer};
ghost use Rattle.serde_json.specs.Read.{max_depth};
ghost use Rattle.serde_json.specs.View.{items_of};
ghost use Rattle.qc_containers.specs.Rising.{on_value};
ghost use Rattle.qc_schema.specs.JsonReading.{Means};
ghost use Rattle.qc_schema.specs.Writing.{data_of, text_of, members_of};

use crate::sound::check_sound;
use qc_containers::{Chars, Memory};
use qc_data::{Json, Jsons, Members};
use serde::{Described, Serialize, Serializer};
use serde_json::to_string;
use std::alloc::Global;

/// The compact text of a tree: no space between its parts, and the names of objects in rising order. Reading the text
/// gives the tree, where it nests no deeper than `read_json` reads.
pub fn json_text(alloc: Global, j: &Json) -> Result<Chars, Memory>
    ensures text { IfOk result (λ text. text ≡ text_of j.now) }
    ensures reads_back { IfOk result (λ text. depth (data_of j.now) ≤ max_depth → Means text j.now) }
{
    check_sound(j);
    let text = tree_text(alloc, j)?;
    hand_utf8(&text);
    Chars::from_string(text)
}

// Hands a proof that the text is UTF-8.
fn hand_utf8(text: &String)
    ensures { IsUtf8 (string_bytes text.now) }
{
    let _text = text.as_str();
}

/// The compact text of a tree, as `json_text` gives it, as a string that can be added to.
pub fn tree_text(alloc: Global, j: &Json) -> Result<String, Memory>
    ensures { IfOk result (λ text. string_bytes text ≡ text_of j.now) }
{
    match to_string(alloc, &Sent { tree: j }) {
        Ok(text) => Ok(text),
        Err(_) => Err(Memory),
    }
}

// A tree to be written.
#[derive(Clone, Copy)]
struct Sent<'a> {
    tree: &'a Json,
}

impl Described for Sent<'_> {
    ghost use Rattle.serde_json.specs.Events.{SendsValue};
    ghost use Rattle.qc_schema.specs.Writing.{data_of};

    ghost writes = { λ sent. SendsValue (data_of sent.tree.now) };
}

impl Serialize for Sent<'_> {
    fn serialize<S: Serializer>(&self, out: &mut S) -> Result<(), S::Error> {
        send(self.tree, out)
    }
}

// Sends the tree's events.
#[cycle(send)]
fn send<S: Serializer>(j: &Json, out: &mut S) -> Result<(), S::Error>
    ensures { OnOk result (SendsValue (data_of j.now) (S.written out.old) (S.written out.new)) }
{
    match j {
        Json::Null => out.unit(),
        Json::Bool(b) => out.bool(*b),
        Json::Int(n) => send_integer(*n, out),
        Json::Text(text) => out.str(text.as_str()),
        Json::Array(items) => send_items(items, out),
        Json::Object(members) => send_members(members, out),
    }
}

// Sends the integer's event.
pub(crate) fn send_integer<S: Serializer>(n: i64, out: &mut S) -> Result<(), S::Error>
    ensures { OnOk result (SendsValue (number (of_integer n)) (S.written out.old) (S.written out.new)) }
{
    if n >= 0 {
        out.u64(n as u64)
    } else {
        out.i64(n)
    }
}

// Sends the array's events.
#[cycle(send)]
fn send_items<S: Serializer>(items: &Jsons, out: &mut S) -> Result<(), S::Error>
    ensures { OnOk result
        (SendsValue (array (items_of (map data_of items.now))) (S.written out.old) (S.written out.new)) }
{
    out.begin_seq(Some(items.len()))?;
    for item in items.as_slice() {
        send(item, out)?;
    }
    out.end_seq()
}

// Sends the object's events.
#[cycle(send)]
fn send_members<S: Serializer>(members: &Members, out: &mut S) -> Result<(), S::Error>
    ensures { OnOk result
        (SendsValue (object (members_of (map (on_value data_of) members.now))) (S.written out.old)
        (S.written out.new)) }
{
    out.begin_map(Some(members.len()))?;
    for pair in members.as_slice() {
        out.key(pair.0.as_str())?;
        send(&pair.1, out)?;
    }
    out.end_map()
}
