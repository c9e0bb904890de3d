// The names of the fields that hold the values of keys.
ghost use Rattle.std.specs.Prelude.{◌≡◌, ◌<◌, codes, cond, map, IfOk};
ghost use Rattle.std.specs.String.{string_bytes};
ghost use Rattle.qc_oql_tree.specs.SelectMeaning.{is_ascending};
ghost use Rattle.qc_oql_nra.specs.OqlForms as forms;
ghost use Rattle.qc_oql_nra.specs.OqlTrees.{key_tree};

use crate::spelled_names::own_name;
use qc_containers::{Memory, Name};
use qc_ops::Keys;
use qc_oql_tree::{Direction, Key};
use std::alloc::Global;

// A digit.
fn digit(is_first: bool) -> &'static str
    ensures { result.now ≡ cond is_first (codes "a") (codes "b") }
{
    if is_first { "a" } else { "b" }
}

// The digits of a number, the lowest first.
#[tactic(auto, using(qc_oql_nra::proofs::Numerals::one_more, qc_oql_nra::proofs::Numerals::no_more))]
fn digits(alloc: Global, number: usize) -> Result<String, Memory>
    ensures { IfOk result (λ made. string_bytes made ≡ forms.numeral number) }
{
    let mut made = String::new(alloc);
    let mut rest = number;
    while rest > 0 {
        made.push_str(digit(rest % 2 == 1))?;
        rest = (rest - 1) / 2;
    }
    Ok(made)
}

// The numeral of a number.
pub(crate) fn numeral(alloc: Global, number: usize) -> Result<Name, Memory>
    requires { 0 < number }
    ensures { IfOk result (λ made. made ≡ forms.numeral number) }
{
    let digits = digits(alloc, number)?;
    own_name(alloc, digits.as_str())
}

// Whether the least value of a key comes first.
fn is_ascending(direction: Direction) -> bool
    ensures { result ≡ is_ascending direction }
{
    match direction {
        Direction::Asc => true,
        Direction::Desc => false,
    }
}

// The names of the keys, with their directions.
#[tactic(auto, using(qc_oql_nra::proofs::OqlTreeForms::key_is))]
pub(crate) fn names_of_keys(alloc: Global, keys: &[Key]) -> Result<Keys, Memory>
    ensures { IfOk result (λ made. made ≡ forms.key_names 0 (map (λ key. key.1) (map key_tree keys.now))) }
{
    let mut made = Keys::new(alloc);
    for (at, key) in keys.iter().enumerate() {
        let name = numeral(alloc, at + 1)?;
        made.add((name, is_ascending(key.direction)))?;
    }
    Ok(made)
}
