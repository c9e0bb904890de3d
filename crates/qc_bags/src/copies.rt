// Members kept by how many copies of them there are.
ghost use Rattle.std.specs.Prelude.{◌≡◌, [], length, IfOk};
ghost use Rattle.qc_bags.specs.Copies.{copies, flags_by, keeps, kept_by, picked};

use qc_containers::Memory;
use qc_data::{Datum, Items, copy};
use qc_keys::{Key, Tally};
use std::alloc::Global;

/// Which copies of a member are kept.
#[derive(Clone, Copy, Debug)]
pub enum Keep {
    /// The first.
    First,
    /// Those beyond as many as there are elsewhere.
    Beyond,
    /// As many as there are elsewhere.
    Within,
}

/// The members that the rule keeps, in their order, where `elsewhere` is what their copies are counted in too.
#[tactic(auto, using(crate::proofs::Keeping::of_flags))]
pub fn kept(
    alloc: Global,
    rule: Keep,
    items: &[Datum],
    elsewhere: &[Datum],
) -> Result<Items, Memory>
    ensures { IfOk result (λ made. made ≡ kept_by (λ k item. keeps rule k (copies item elsewhere.now)) [] items.now) }
{
    let flags = flags(alloc, rule, items, elsewhere)?;
    picked(alloc, flags.as_slice(), items)
}

/// For each member whether the rule keeps it, where `elsewhere` is what its copies are counted in too. The canon of
/// each is taken once.
pub fn flags(
    alloc: Global,
    rule: Keep,
    items: &[Datum],
    elsewhere: &[Datum],
) -> Result<Vec<bool>, Memory>
    ensures { IfOk result
        (λ made. made.items ≡ flags_by (λ k item. keeps rule k (copies item elsewhere.now)) [] items.now) }
{
    let others = Tally::of(alloc, elsewhere)?;
    let mut seen = Tally::new(alloc);
    let mut all = Vec::new(alloc);
    for item in items {
        let key = Key::of(alloc, item)?;
        let there = others.count(&key);
        let copies = seen.add(key)?;
        all.push(keeps(rule, copies, there))?;
    }
    Ok(all)
}

// The items whose flag is set.
#[tactic(auto, using(crate::proofs::Keeping::picked_more))]
fn picked(alloc: Global, flags: &[bool], items: &[Datum]) -> Result<Items, Memory>
    requires { length flags.now ≡ length items.now }
    ensures { IfOk result (λ made. made ≡ picked flags.now items.now) }
{
    let mut all = Items::new(alloc);
    for (at, item) in items.iter().enumerate() {
        if flags[at] {
            all.add(copy(alloc, item)?)?;
        }
    }
    Ok(all)
}

// Whether the rule keeps a member of so many copies up to and with it, and so many elsewhere.
fn keeps(rule: Keep, copies: usize, elsewhere: usize) -> bool
    ensures { result ≡ keeps rule copies elsewhere }
{
    match rule {
        Keep::First => copies == 1,
        Keep::Beyond => elsewhere < copies,
        Keep::Within => copies <= elsewhere,
    }
}
