// Scopes: what names stand for.
ghost use Rattle.std.specs.Option.{option_copied};
ghost use Rattle.std.specs.Prelude.{◌≡◌};
ghost use Rattle.qc_data.specs.Outcome.{GivesRef};
ghost use Rattle.qc_containers.specs.Pairs.{lookup};
ghost use Rattle.qc_oql_eval.specs.inner.Scopes.{bindings_of};
ghost use Rattle.qc_oql_tree.specs.Bindings.{value_of};

use qc_containers::{Chars, List};
use qc_data::{Datum, Halt};
use qc_types::World;

// The bindings that a row of a select makes, the newest first.
pub(crate) type Row = List<(Chars, Datum)>;

// The rows of a select.
pub(crate) type Rows = List<Row>;

// Bindings, and those of the scope around them.
#[derive(Drop)]
pub(crate) enum Scope<'a> {
    // No binding.
    Empty,
    // A name and its value.
    Bind(&'a Chars, &'a Datum, &'a Scope<'a>),
    // A row.
    Row(&'a [(Chars, Datum)], &'a Scope<'a>),
}

// What a name stands for: its newest binding, or else its global.
pub(crate) fn value_of<'a>(
    world: &'a World,
    scope: &'a Scope<'a>,
    name: &Chars,
) -> Result<&'a Datum, Halt>
    ensures { GivesRef (value_of world.now name.now (bindings_of scope.now)) result }
{
    match binding(scope, name) {
        Some(value) => Ok(value),
        None => match world.get(name.as_str()) {
            Some(value) => Ok(value),
            None => Err(Halt::Stuck),
        },
    }
}

// The newest binding of a name.
#[tactic(auto, using(crate::proofs::Lookups::lookup_append))]
fn binding<'a>(scope: &'a Scope<'a>, name: &Chars) -> Option<&'a Datum>
    ensures { option_copied result ≡ lookup name.now (bindings_of scope.now) }
{
    match scope {
        Scope::Empty => None,
        Scope::Bind(bound, value, outer) => {
            if bound.as_str() == name.as_str() {
                Some(value)
            } else {
                binding(outer, name)
            }
        }
        Scope::Row(row, outer) => match in_row(row, name) {
            Some(value) => Some(value),
            None => binding(outer, name),
        },
    }
}

// The newest binding of a name in a row.
fn in_row<'a>(row: &'a [(Chars, Datum)], name: &Chars) -> Option<&'a Datum>
    ensures { option_copied result ≡ lookup name.now row.now }
{
    for bound in row {
        if bound.0.as_str() == name.as_str() {
            return Some(&bound.1);
        }
    }
    None
}
