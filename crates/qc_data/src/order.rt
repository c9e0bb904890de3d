// The total order of data.
ghost use Rattle.std.specs.Prelude.{◌≡◌};
ghost use Rattle.qc_data.specs.Order.{cmp, pair_cmp, rank};
ghost use Rattle.std.specs.Cmp.{IsTotalOrder};
ghost use Rattle.std.specs.Cmp.Lexicographic.{slice_cmp};
ghost use Rattle.qc_data.specs.declared.data.Datum.TheViews.{out-Datum};

use crate::data::{Datum, Fields, Items};
use std::cmp::Ordering;

// The place of a datum's kind.
fn rank(d: &Datum) -> u8
    ensures { result ≡ rank (out-Datum d.now) }
{
    match d {
        Datum::Unit => 0,
        Datum::Bool(_) => 1,
        Datum::Int(_) => 2,
        Datum::Text(_) => 3,
        Datum::Coll(_) => 4,
        Datum::Rec(_) => 5,
        Datum::Left(_) => 6,
        Datum::Right(_) => 7,
        Datum::Brand(_, _) => 8,
    }
}

/// How the first datum stands to the second in the total order: by kind (`Unit`, `Bool`, `Int`, `Text`, `Coll`, `Rec`,
/// `Left`, `Right`, `Brand`), and within a kind `false` before `true`, integers by value, texts by their UTF-8 bytes,
/// collections and records part by part. It stops at the first difference.
pub fn cmp(a: &Datum, b: &Datum) -> Ordering
    ensures value { result ≡ cmp a.now b.now }
    ensures only { result ≡ Ordering.Equal → a.now ≡ b.now }
    ensures total { IsTotalOrder cmp }
{
    compare(a, b)
}

#[cycle(order)]
fn compare(a: &Datum, b: &Datum) -> Ordering
    ensures { result ≡ cmp a.now b.now }
{
    match (a, b) {
        (Datum::Bool(first), Datum::Bool(second)) => first.cmp(second),
        (Datum::Int(first), Datum::Int(second)) => first.cmp(second),
        (Datum::Text(first), Datum::Text(second)) => first.as_str().cmp(second.as_str()),
        (Datum::Coll(first), Datum::Coll(second)) => cmp_items(first, second),
        (Datum::Rec(first), Datum::Rec(second)) => cmp_fields(first, second),
        (Datum::Left(first), Datum::Left(second)) => compare(first.get(), second.get()),
        (Datum::Right(first), Datum::Right(second)) => compare(first.get(), second.get()),
        (Datum::Brand(name, first), Datum::Brand(other, second)) => match name
            .as_str()
            .cmp(other.as_str())
        {
            Ordering::Equal => compare(first.get(), second.get()),
            decided => decided,
        },
        _ => rank(a).cmp(&rank(b)),
    }
}

// Collections, item by item.
#[cycle(order)]
fn cmp_items(a: &Items, b: &Items) -> Ordering
    ensures { result ≡ slice_cmp cmp a.now b.now }
{
    let others = b.as_slice();
    for (at, item) in a.as_slice().iter().enumerate() {
        if at == others.len() {
            return Ordering::Greater;
        }
        match compare(item, &others[at]) {
            Ordering::Equal => {}
            decided => return decided,
        }
    }
    if a.len() < others.len() {
        Ordering::Less
    } else {
        Ordering::Equal
    }
}

// Records, field by field: by name and then by value.
#[cycle(order)]
fn cmp_fields(a: &Fields, b: &Fields) -> Ordering
    ensures { result ≡ slice_cmp pair_cmp a.now b.now }
{
    let others = b.as_slice();
    for (at, pair) in a.as_slice().iter().enumerate() {
        if at == others.len() {
            return Ordering::Greater;
        }
        let other = &others[at];
        match pair.0.as_str().cmp(other.0.as_str()) {
            Ordering::Equal => {}
            decided => return decided,
        }
        match compare(&pair.1, &other.1) {
            Ordering::Equal => {}
            decided => return decided,
        }
    }
    if a.len() < others.len() {
        Ordering::Less
    } else {
        Ordering::Equal
    }
}
