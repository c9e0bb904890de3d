// Arguments: how many there are, and parameters among them.
ghost use Rattle.std.specs.Prelude.{◌≡◌, false, length, map, zip, IfOk};
ghost use Rattle.qc_containers.specs.Name.{is_marker};
ghost use Rattle.qc_data.specs.Outcome.{each, Gives, GivesRef};
ghost use Rattle.qc_ops.specs.Operands.{as_bool};
ghost use Rattle.qc_rt.specs.Parameters.{as_directions, as_divisor, as_keys, as_name, as_names, the_only};
ghost use Rattle.qc_rt.specs.Parameters.{the_three, the_two};
ghost use Rattle.qc_rt.specs.Seen.{seen};
ghost use Rattle.qc_seen.specs.Giving.{GivesSeenRef, GivesThree, GivesTwo};

use crate::kinds::{bool_of, int_of, items_of, text_of};
use qc_containers::{Chars, List, Memory};
use qc_data::{Halt, Json};
use qc_ops::Divisor;
use std::alloc::Global;

/// The only argument; `Stuck`, where there are more or none.
pub fn the_only(args: &[Json]) -> Result<&Json, Halt>
    ensures { GivesSeenRef (the_only (map seen args.now)) result }
{
    match args {
        [a] => Ok(a),
        _ => Err(Halt::Stuck),
    }
}

/// The two arguments; `Stuck`, where there are more or fewer.
pub fn the_two(args: &[Json]) -> Result<(&Json, &Json), Halt>
    ensures { GivesTwo (the_two (map seen args.now)) result }
{
    match args {
        [a, b] => Ok((a, b)),
        _ => Err(Halt::Stuck),
    }
}

/// The three arguments; `Stuck`, where there are more or fewer.
pub fn the_three(args: &[Json]) -> Result<(&Json, &Json, &Json), Halt>
    ensures { GivesThree (the_three (map seen args.now)) result }
{
    match args {
        [a, b, c] => Ok((a, b, c)),
        _ => Err(Halt::Stuck),
    }
}

// Whether the text is one of the four markers.
fn is_marker(text: &str) -> bool
    ensures { result ≡ is_marker text.now }
{
    text == "$left" || text == "$right" || text == "$class" || text == "$data"
}

/// The name that a parameter is; `Stuck`, where it is no text, or a marker.
pub fn name_of(j: &Json) -> Result<&Chars, Halt>
    ensures value { GivesRef (as_name (seen j.now)) result }
    ensures unmarked { IfOk result (λ name. is_marker name.now ≡ false) }
{
    let name = text_of(j)?;
    if is_marker(name.as_str()) {
        Err(Halt::Stuck)
    } else {
        Ok(name)
    }
}

/// The names that a parameter is; `Stuck`, where it is no array of names.
pub fn names_of(alloc: Global, j: &Json) -> Result<List<Chars>, Halt>
    ensures { Gives (as_names (seen j.now)) result }
{
    let items = items_of(j)?;
    names_in(alloc, items.as_slice())
}

// The names that the items are.
#[tactic(auto, using(qc_data::proofs::Outcomes::gather_is))]
fn names_in(alloc: Global, items: &[Json]) -> Result<List<Chars>, Halt>
    ensures { Gives (each as_name (map seen items.now)) result }
{
    let mut names = List::new(alloc);
    for item in items {
        let name = name_of(item)?;
        names.add(name.copy(alloc)?)?;
    }
    Ok(names)
}

/// The divisor that a parameter is; `Stuck`, where it is none.
pub fn divisor_of(j: &Json) -> Result<Divisor, Halt>
    ensures { Gives (as_divisor (seen j.now)) result }
{
    let k = int_of(j)?;
    match Divisor::of(k) {
        Some(divisor) => Ok(divisor),
        None => Err(Halt::Stuck),
    }
}

// The directions that a parameter is.
fn directions_of(alloc: Global, j: &Json) -> Result<List<bool>, Halt>
    ensures { Gives (as_directions (seen j.now)) result }
{
    let items = items_of(j)?;
    directions_in(alloc, items.as_slice())
}

// The directions that the items are.
#[tactic(auto, using(qc_data::proofs::Outcomes::gather_is))]
fn directions_in(alloc: Global, items: &[Json]) -> Result<List<bool>, Halt>
    ensures { Gives (each as_bool (map seen items.now)) result }
{
    let mut directions = List::new(alloc);
    for item in items {
        let ascending = bool_of(item)?;
        directions.add(ascending)?;
    }
    Ok(directions)
}

/// The keys that two parameters are, as many names as directions; `Stuck`, where they are none.
pub fn keys_of(alloc: Global, names: &Json, directions: &Json) -> Result<List<(Chars, bool)>, Halt>
    ensures { Gives (as_keys (seen names.now) (seen directions.now)) result }
{
    let names = names_of(alloc, names)?;
    let directions = directions_of(alloc, directions)?;
    if names.len() != directions.len() {
        return Err(Halt::Stuck);
    }
    Ok(zipped(alloc, names.as_slice(), directions.as_slice())?)
}

// The names, each with its direction.
fn zipped(
    alloc: Global,
    names: &[Chars],
    directions: &[bool],
) -> Result<List<(Chars, bool)>, Memory>
    requires { length names.now ≡ length directions.now }
    ensures { IfOk result (λ keys. keys ≡ zip names.now directions.now) }
{
    let mut keys = List::new(alloc);
    for (at, name) in names.iter().enumerate() {
        let name = name.copy(alloc)?;
        keys.add((name, directions[at]))?;
    }
    Ok(keys)
}
