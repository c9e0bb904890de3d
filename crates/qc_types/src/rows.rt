// Rows by their names, which rise.
ghost use Rattle.std.specs.Prelude.{◌≡◌, is_some};
ghost use Rattle.std.specs.Option.{option_copied};
ghost use Rattle.qc_containers.specs.Pairs.{lookup};
ghost use Rattle.qc_types.specs.Rows.{all_in, names, same_names};

use qc_containers::NameMap;
use std::cmp::Ordering;

// Whether two rows have the same names.
pub(crate) fn is_same_names<A, B>(row: &NameMap<A>, other: &NameMap<B>) -> bool
    ensures { result ≡ same_names (names row.now) (names other.now) }
{
    let row = row.as_slice();
    let other = other.as_slice();
    if row.len() != other.len() {
        return false;
    }
    for (at, pair) in row.iter().enumerate() {
        if pair.0.as_str() != other[at].0.as_str() {
            return false;
        }
    }
    true
}

// Whether a row has each of the names that another has.
pub(crate) fn has_names<A, B>(row: &NameMap<A>, wanted: &NameMap<B>) -> bool
    ensures { result ≡ all_in (λ n. is_some (lookup n row.now)) (names wanted.now) }
{
    for pair in wanted.as_slice() {
        if value_of(row, pair.0.as_str()).is_none() {
            return false;
        }
    }
    true
}

// The value at a name, looked for by halves.
pub(crate) fn value_of<'a, T>(row: &'a NameMap<T>, name: &str) -> Option<&'a T>
    ensures { option_copied result ≡ lookup name.now row.now }
{
    let mut pairs = row.as_slice();
    while !pairs.is_empty() {
        let (low, high) = pairs.split_at(pairs.len() / 2);
        let pair = &high[0];
        match pair.0.as_str().cmp(name) {
            Ordering::Less => pairs = &high[1..],
            Ordering::Equal => return Some(&pair.1),
            Ordering::Greater => pairs = low,
        }
    }
    None
}
