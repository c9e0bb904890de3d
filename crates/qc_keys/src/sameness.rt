// Sameness, which is equality of canons.
ghost use Rattle.std.specs.Prelude.{◌≡◌, IfOk};
ghost use Rattle.std.specs.List.{list_any};
ghost use Rattle.qc_data.specs.Order.{canon};
ghost use Rattle.qc_keys.specs.Counts.{equal};

use crate::plain::canon_of;
use qc_containers::Memory;
use qc_data::{Datum, cmp};
use std::alloc::Global;

/// Whether the two are the same, where the order of a collection's members does not matter.
pub fn is_same(alloc: Global, a: &Datum, b: &Datum) -> Result<bool, Memory>
    ensures { IfOk result (λ answer. answer ≡ equal (canon a.now) (canon b.now)) }
{
    let sought = canon_of(alloc, a)?;
    is_canon(alloc, &sought, b)
}

/// Whether some item is the same as the datum, whose canon is made once.
pub fn has_same(alloc: Global, d: &Datum, items: &[Datum]) -> Result<bool, Memory>
    ensures { IfOk result (λ answer. answer ≡ list_any (λ item. equal (canon d.now) (canon item)) items.now) }
{
    let sought = canon_of(alloc, d)?;
    has_canon(alloc, &sought, items)
}

// Whether the canon of some item is the one sought.
fn has_canon(alloc: Global, sought: &Datum, items: &[Datum]) -> Result<bool, Memory>
    ensures { IfOk result (λ answer. answer ≡ list_any (λ item. equal sought.now (canon item)) items.now) }
{
    for item in items {
        if is_canon(alloc, sought, item)? {
            return Ok(true);
        }
    }
    Ok(false)
}

// Whether the canon of the datum is the one sought.
fn is_canon(alloc: Global, sought: &Datum, d: &Datum) -> Result<bool, Memory>
    ensures { IfOk result (λ answer. answer ≡ equal sought.now (canon d.now)) }
{
    let other = canon_of(alloc, d)?;
    Ok(cmp(sought, &other).is_eq())
}
