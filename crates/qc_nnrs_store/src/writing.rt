// Writes to variables, and those that are taken apart.
ghost use Rattle.std.specs.Prelude.{◌≡◌, ◌++◌, IfOk, OnErr, OnOk};
ghost use Rattle.qc_nnrs_store.specs.Variables.{class_of, last_of, push_at, set_at, without, written};
ghost use Rattle.qc_nnrs_store.specs.Chains.{frame_of};
ghost use Rattle.qc_nnrs_store.specs.Logs.{added, Leads};

use crate::chain::{Chain, is_pushed, is_set};
use qc_containers::{List, Memory};
use qc_data::{Datum, Halt, Items};
use std::alloc::Global;

/// Values that were written to variables, in order.
pub type Writes = List<(u128, Datum)>;

/// Puts the write of a value to a variable last, where the variable may be set. After an error the log is as before.
#[tactic(auto, using(crate::proofs::Classes::set_writes), unfolding(crate::specs::Logs::added))]
pub fn set_to(chain: &Chain, x: u128, value: Datum, log: &mut Writes) -> Result<(), Halt>
    ensures leads { Leads (added log.old (set_at x value (class_of x (frame_of chain.now)))) log.new result }
    ensures same { OnErr result (log.new ≡ log.old) }
{
    if !is_set(chain, x) {
        return Err(Halt::Stuck);
    }
    Ok(log.add((x, value))?)
}

/// The same, where the variable may be pushed to.
#[tactic(auto, using(crate::proofs::Classes::pushed_writes), unfolding(crate::specs::Logs::added))]
pub fn push_to(chain: &Chain, x: u128, value: Datum, log: &mut Writes) -> Result<(), Halt>
    ensures leads { Leads (added log.old (push_at x value (class_of x (frame_of chain.now)))) log.new result }
    ensures same { OnErr result (log.new ≡ log.old) }
{
    if !is_pushed(chain, x) {
        return Err(Halt::Stuck);
    }
    Ok(log.add((x, value))?)
}

/// The last value that was written to a variable. The writes to the others are put behind a log; for want of memory
/// some of them.
#[tactic(auto, using(crate::proofs::Taking::last_is))]
pub fn take_last(part: Writes, x: u128, log: &mut Writes) -> Result<Option<Datum>, Memory>
    ensures last { IfOk result (λ last. last ≡ last_of (written x part)) }
    ensures rest { OnOk result (log.new ≡ log.old ++ without x part) }
{
    let mut last = None;
    for (variable, value) in part.take_apart() {
        if variable == x {
            last = Some(value);
        } else {
            log.add((variable, value))?;
        }
    }
    Ok(last)
}

/// All that was written to a variable. The writes to the others are put behind a log; for want of memory some of them.
pub fn take_all(alloc: Global, part: Writes, x: u128, log: &mut Writes) -> Result<Items, Memory>
    ensures all { IfOk result (λ all. all ≡ written x part) }
    ensures rest { OnOk result (log.new ≡ log.old ++ without x part) }
{
    let mut all = Items::new(alloc);
    for (variable, value) in part.take_apart() {
        if variable == x {
            all.add(value)?;
        } else {
            log.add((variable, value))?;
        }
    }
    Ok(all)
}
