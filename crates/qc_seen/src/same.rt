// Sameness of trees, and items of arrays by how many copies of them there are.
ghost use Rattle.std.specs.Prelude.{◌≡◌, [], length, map, IfOk};
ghost use Rattle.std.specs.List.{list_any};
ghost use Rattle.qc_bags.specs.Copies.{copies, keeps, kept_by, picked, same};
ghost use Rattle.qc_rt.specs.Seen.{seen};

use crate::twins::{marks, twin};
use qc_bags::{Keep, flags};
use qc_containers::Memory;
use qc_data::{Json, Jsons, copy_json, dec};
use std::alloc::Global;

/// Whether what is seen in two trees is the same.
#[tactic(auto, using(qc_rt::proofs::Returned::dec_seen))]
pub fn is_same(alloc: Global, a: &Json, b: &Json) -> Result<bool, Memory>
    ensures { IfOk result (λ answer. answer ≡ same (seen a.now) (seen b.now)) }
{
    let first = dec(alloc, a)?;
    let second = dec(alloc, b)?;
    match (&first, &second) {
        (Some(first), Some(second)) => qc_keys::is_same(alloc, first, second),
        _ => are_twins_same(alloc, a, b),
    }
}

// The same by twins.
#[tactic(auto, using(crate::proofs::TwinLaws::twins_same))]
fn are_twins_same(alloc: Global, a: &Json, b: &Json) -> Result<bool, Memory>
    ensures { IfOk result (λ answer. answer ≡ same (seen a.now) (seen b.now)) }
{
    let first = twin(alloc, a)?;
    let second = twin(alloc, b)?;
    qc_keys::is_same(alloc, &first, &second)
}

/// Whether some item is the same as the tree.
pub fn has_same(alloc: Global, a: &Json, items: &[Json]) -> Result<bool, Memory>
    ensures { IfOk result (λ answer. answer ≡ list_any (same (seen a.now)) (map seen items.now)) }
{
    for item in items {
        if is_same(alloc, a, item)? {
            return Ok(true);
        }
    }
    Ok(false)
}

/// The items that the rule keeps, where `elsewhere` is what their copies are counted in too.
pub fn kept(alloc: Global, rule: Keep, items: &[Json], elsewhere: &[Json]) -> Result<Jsons, Memory>
    ensures { IfOk result (λ made. map seen made
        ≡ kept_by (λ k item. keeps rule k (copies item (map seen elsewhere.now))) [] (map seen items.now)) }
{
    let (marks, others) = marks(alloc, items, elsewhere)?;
    let flags = flags(alloc, rule, marks.as_slice(), others.as_slice())?;
    picked(alloc, flags.as_slice(), items)
}

// The items whose flag is set.
#[tactic(auto, using(qc_bags::proofs::Keeping::picked_more))]
fn picked(alloc: Global, flags: &[bool], items: &[Json]) -> Result<Jsons, Memory>
    requires { length flags.now ≡ length items.now }
    ensures { IfOk result (λ made. made ≡ picked flags.now items.now) }
{
    let mut all = Jsons::new(alloc);
    for (at, item) in items.iter().enumerate() {
        if flags[at] {
            all.add(copy_json(alloc, item)?)?;
        }
    }
    Ok(all)
}
