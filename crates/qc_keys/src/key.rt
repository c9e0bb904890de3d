// Data as keys of hash maps.
ghost use mathlib.Core.Path.{ap};
ghost use Rattle.std.specs.Prelude.{◌≡◌, IfOk};
ghost use Rattle.std.specs.Cmp.{eq_by_cmp_equiv, partial_equiv_from_equiv};
ghost use Rattle.qc_containers.proofs.Truth.{is_Equal};
ghost use Rattle.qc_data.proofs.Ties.{cmp_only};
ghost use Rattle.qc_data.proofs.Total.{cmp_total};
ghost use Rattle.qc_data.specs.Order.{canon, cmp};
ghost use Rattle.qc_keys.specs.Counts.{equal};
ghost use Rattle.qc_keys.specs.inner.Writes.{writes};

use crate::feeding::feed;
use crate::plain::canon_of;
use qc_containers::Memory;
use qc_data::{Datum, cmp, copy};
use std::alloc::Global;
use std::hash::{Hash, Hasher};
use std::marker::Model;

/// A datum as a key: keys are equal where their data are the same. It holds the datum's canon, which is made once, and
/// clauses see the canon.
#[derive(Drop)]
pub struct Key {
    canon: Datum,
}

impl Model for Key {
    ghost use Rattle.std.specs.Coded.{codes};
    ghost use Rattle.qc_data.specs.contracts.data.Datum as datum;
    ghost use Rattle.qc_data.specs.declared.data.Datum.{Datum};

    ghost Value = { Datum };

    ghost coded = { Prim.hlevel (codes, datum.the_row.coded) };

    ghost view = { λ key. key.canon };
}

impl Key {
    /// The key of the datum.
    pub fn of(alloc: Global, d: &Datum) -> Result<Key, Memory>
        ensures { IfOk result (λ key. key ≡ canon d.now) }
    {
        let canon = canon_of(alloc, d)?;
        Ok(Key { canon })
    }

    /// The same key, which shares the datum.
    pub fn copy(&self, alloc: Global) -> Result<Key, Memory>
        ensures { IfOk result (λ key. key ≡ self.now) }
    {
        let canon = copy(alloc, &self.canon)?;
        Ok(Key { canon })
    }
}

impl PartialEq for Key {
    ghost eq = { equal };

    ghost laws = { partial_equiv_from_equiv (eq_by_cmp_equiv cmp_total) };

    fn eq(&self, other: &Key) -> bool {
        cmp(&self.canon, &other.canon).is_eq()
    }
}

impl Eq for Key {
    ghost laws = { eq_by_cmp_equiv cmp_total };
}

impl Hash for Key {
    ghost hash_input = { writes };

    ghost respects_eq = { λ x y same. ap writes (cmp_only x y (is_Equal (cmp x y) same)) };

    fn hash<H: Hasher>(&self, state: &mut H) {
        feed(&self.canon, state);
    }
}
