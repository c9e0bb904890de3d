// Trees gathered at keys.
ghost use Rattle.std.specs.Prelude.{◌≡◌, ◌∷◌, ◌++◌, [], cond, IfOk, OnErr, OnOk};
ghost use Rattle.qc_data.specs.declared.data.Datum.{Datum};
ghost use Rattle.qc_keys.specs.Counts.{equal};
ghost use Rattle.qc_seen.specs.Gathering.{gathered};

use indexmap::IndexMap;
use qc_containers::{Memory, Share};
use qc_data::{Json, Jsons};
use qc_keys::Key;
use std::alloc::Global;
use std::marker::Model;

/// Trees by key, those of each in the order in which they came. To look a key up and to add to it take the same time,
/// however many there are.
#[derive(Drop)]
pub struct Gathering {
    groups: IndexMap<Key, Jsons>,
}

impl Model for Gathering {
    ghost use Rattle.std.specs.Prelude.{List};
    ghost use Rattle.std.specs.Coded.{codes};
    ghost use Rattle.qc_data.specs.contracts.data.Datum as datum;
    ghost use Rattle.qc_data.specs.contracts.data.Json as json;
    ghost use Rattle.qc_data.specs.declared.data.Datum.{Datum};
    ghost use Rattle.qc_data.specs.declared.data.Json.{Json};

    ghost Value = { List (Datum × List Json) };

    ghost coded = { Prim.hlevel (codes, datum.the_row.coded, json.the_row.coded) };

    ghost view = { λ gathering. gathering.groups.entries };
}

impl Gathering {
    /// Nothing gathered, which takes no memory.
    pub fn new(alloc: Global) -> Gathering
        ensures { result ≡ [] }
    {
        Gathering {
            groups: IndexMap::new(alloc),
        }
    }

    /// What is gathered at the key, shared.
    pub fn at(&self, alloc: Global, key: &Key) -> Result<Jsons, Memory>
        ensures { IfOk result (λ items. items ≡ gathered key.now self.now) }
    {
        match self.groups.get(key) {
            Some(group) => group.share(alloc),
            None => Ok(Jsons::new(alloc)),
        }
    }

    /// Puts the tree last at the key. `Err`, for want of memory, leaves all as it was.
    pub fn add(&mut self, alloc: Global, key: &Key, item: Json) -> Result<(), Memory>
        ensures ok { OnOk result ((c : Datum)
            → gathered c self.new ≡ gathered c self.old ++ cond (equal c key.now) (item ∷ []) []) }
        ensures err { OnErr result (self.new ≡ self.old) }
    {
        if let Some(group) = self.groups.get_mut(key) {
            group.add(item)?;
            return Ok(());
        }
        let mut group = Jsons::new(alloc);
        group.add(item)?;
        self.groups.insert(key.copy(alloc)?, group)?;
        Ok(())
    }
}
