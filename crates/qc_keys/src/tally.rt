// How many there are of each of some data.
ghost use Rattle.std.specs.Prelude.{◌≡◌, ◌+◌, [], cond, map, suc, IfOk, OnErr, OnOk};
ghost use Rattle.qc_data.specs.Order.{canon};
ghost use Rattle.qc_data.specs.declared.data.Datum.{Datum};
ghost use Rattle.qc_keys.specs.Counts.{count, equal, Tallies};

use crate::key::Key;
use indexmap::IndexMap;
use qc_containers::Memory;
use qc_data::Datum;
use std::alloc::Global;
use std::marker::Model;

/// How many there are of each key. To look one up and to add one take the same time, however many there are.
#[derive(Drop)]
pub struct Tally {
    counts: IndexMap<Key, usize>,
}

impl Model for Tally {
    ghost use Rattle.std.specs.Prelude.{List, ℕ};
    ghost use Rattle.std.specs.Coded.{codes};
    ghost use Rattle.qc_data.specs.contracts.data.Datum as datum;
    ghost use Rattle.qc_data.specs.declared.data.Datum.{Datum};

    ghost Value = { List (Datum × ℕ) };

    ghost coded = { Prim.hlevel (codes, datum.the_row.coded) };

    ghost view = { λ tally. tally.counts.entries };
}

impl Tally {
    /// A tally of nothing, which takes no memory.
    pub fn new(alloc: Global) -> Tally
        ensures { result ≡ [] }
    {
        Tally {
            counts: IndexMap::new(alloc),
        }
    }

    /// A tally of the keys of the items.
    pub fn of(alloc: Global, items: &[Datum]) -> Result<Tally, Memory>
        ensures { IfOk result (λ tally. Tallies tally (map canon items.now)) }
    {
        let mut tally = Tally::new(alloc);
        for item in items {
            tally.add(Key::of(alloc, item)?)?;
        }
        Ok(tally)
    }

    /// How many there are of the key.
    pub fn count(&self, key: &Key) -> usize
        ensures { result ≡ count key.now self.now }
    {
        match self.counts.get(key) {
            Some(count) => *count,
            None => 0,
        }
    }

    /// Counts the key once more, and answers how many there are of it now. `Err`, for want of memory, leaves the tally
    /// as it was.
    pub fn add(&mut self, key: Key) -> Result<usize, Memory>
        ensures answer { IfOk result (λ n. n ≡ suc (count key self.old)) }
        ensures ok { OnOk result ((c : Datum) → count c self.new ≡ count c self.old + cond (equal c key) 1 0) }
        ensures err { OnErr result (self.new ≡ self.old) }
    {
        let Some(count) = self.count(&key).checked_add(1) else {
            return Err(Memory);
        };
        self.counts.insert(key, count)?;
        Ok(count)
    }
}
