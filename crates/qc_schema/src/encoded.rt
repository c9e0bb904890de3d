// The texts of data: those of their encodings, of which no tree is made.
ghost use Rattle.std.specs.Prelude.{◌≡◌, IfOk, OnOk, map};
ghost use Rattle.std.specs.String.{string_bytes};
ghost use Rattle.serde_json.specs.Data.{array, object};
ghost use Rattle.serde_json.specs.Events.{SendsValue};
ghost use Rattle.serde_json.specs.View.{items_of};
ghost use Rattle.qc_containers.specs.Rising.{on_value};
ghost use Rattle.qc_data.specs.Encoding.{enc};
ghost use Rattle.qc_schema.specs.Writing.{text_of, members_of};
ghost use Rattle.qc_schema.specs.inner.Encoded.{value_of, side, class_value, Begins};

use crate::writing::send_integer;
use qc_containers::Memory;
use qc_data::{Datum, Fields, Items};
use serde::{Described, Serialize, Serializer};
use serde_json::to_string;
use std::alloc::Global;

/// The compact text of a datum's encoding, as `json_text` gives it of the tree that `enc` makes.
pub fn datum_text(alloc: Global, d: &Datum) -> Result<String, Memory>
    ensures { IfOk result (λ text. string_bytes text ≡ text_of (enc d.now)) }
{
    match to_string(alloc, &Encoded { datum: d }) {
        Ok(text) => Ok(text),
        Err(_) => Err(Memory),
    }
}

// A datum to be written as its encoding.
#[derive(Clone, Copy)]
struct Encoded<'a> {
    datum: &'a Datum,
}

impl Described for Encoded<'_> {
    ghost use Rattle.serde_json.specs.Events.{SendsValue};
    ghost use Rattle.qc_schema.specs.inner.Encoded.{value_of};

    ghost writes = { λ encoded. SendsValue (value_of encoded.datum.now) };
}

impl Serialize for Encoded<'_> {
    fn serialize<S: Serializer>(&self, out: &mut S) -> Result<(), S::Error> {
        send(self.datum, out)
    }
}

// Sends the events of the datum's encoding.
#[cycle(send)]
#[tactic(auto, using(crate::proofs::Valued::by_kind))]
fn send<S: Serializer>(d: &Datum, out: &mut S) -> Result<(), S::Error>
    ensures { OnOk result (SendsValue (value_of d.now) (S.written out.old) (S.written out.new)) }
{
    match d {
        Datum::Unit => out.unit(),
        Datum::Bool(b) => out.bool(*b),
        Datum::Int(n) => send_integer(*n, out),
        Datum::Text(text) => out.str(text.as_str()),
        Datum::Coll(items) => send_items(items, out),
        Datum::Rec(fields) => send_fields(fields, out),
        Datum::Left(inner) => {
            begin_side("$left", out)?;
            send(inner.get(), out)?;
            out.end_map()
        }
        Datum::Right(inner) => {
            begin_side("$right", out)?;
            send(inner.get(), out)?;
            out.end_map()
        }
        Datum::Brand(name, inner) => {
            begin_class_value(name.as_str(), out)?;
            send(inner.get(), out)?;
            out.end_map()
        }
    }
}

// Sends the events of the array of the items' encodings.
#[cycle(send)]
fn send_items<S: Serializer>(items: &Items, out: &mut S) -> Result<(), S::Error>
    ensures { OnOk result
        (SendsValue (array (items_of (map value_of items.now))) (S.written out.old) (S.written out.new)) }
{
    out.begin_seq(Some(items.len()))?;
    for item in items.as_slice() {
        send(item, out)?;
    }
    out.end_seq()
}

// Sends the events of the object of the values' encodings at their names.
#[cycle(send)]
fn send_fields<S: Serializer>(fields: &Fields, out: &mut S) -> Result<(), S::Error>
    ensures { OnOk result
        (SendsValue (object (members_of (map (on_value value_of) fields.now))) (S.written out.old)
        (S.written out.new)) }
{
    out.begin_map(Some(fields.len()))?;
    for pair in fields.as_slice() {
        out.key(pair.0.as_str())?;
        send(&pair.1, out)?;
    }
    out.end_map()
}

// Begins the object of a side, up to its content.
fn begin_side<S: Serializer>(marker: &str, out: &mut S) -> Result<(), S::Error>
    ensures { OnOk result (Begins (side marker.now) (S.written out.old) (S.written out.new)) }
{
    out.begin_map(Some(1))?;
    out.key(marker)
}

// Begins the object of a class value, up to its content.
fn begin_class_value<S: Serializer>(name: &str, out: &mut S) -> Result<(), S::Error>
    ensures { OnOk result (Begins (class_value name.now) (S.written out.old) (S.written out.new)) }
{
    out.begin_map(Some(2))?;
    out.key("$class")?;
    out.str(name)?;
    out.key("$data")
}
