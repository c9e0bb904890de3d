// Maps from names.
ghost use Rattle.std.specs.Prelude.{◌≡◌, [], ◌∷◌, ◌++◌, length, slice_get, option_map, IfOk, IfErr, OnOk, OnErr};
ghost use Rattle.std.specs.Option.{option_copied};
ghost use Rattle.qc_containers.specs.Pairs.{below, lookup, put};
ghost use Rattle.qc_containers.specs.Rising.{Rising};

use crate::memory::Memory;
use crate::name::Name;
use crate::share::Share;
use crate::shared_list::SharedList;
use std::alloc::Global;
use std::marker::Model;

/// Values by distinct names, which its copies share. Clauses see the list of pairs, whose names rise by their bytes.
#[derive(Drop)]
pub struct NameMap<T> {
    pairs: SharedList<(Name, T)>,
}

impl<T> Model for NameMap<T> {
    ghost use Rattle.std.specs.Prelude.{List, ℕ};
    ghost use Rattle.std.specs.Coded.{coded_list, coded×, coded_ℕ};
    ghost use Rattle.qc_containers.specs.Rising.{Rising};

    ghost Value = { List (List ℕ × T) };

    ghost coded = { coded_list (coded× (coded_list coded_ℕ) T.code) };

    ghost view = { λ map. map.pairs };

    ghost invariant = { λ map. Rising map.pairs };
}

impl<T> NameMap<T> {
    /// A map without pairs, which takes no memory.
    pub fn new(alloc: Global) -> NameMap<T>
        ensures { result ≡ [] }
    {
        NameMap {
            pairs: SharedList::new(alloc),
        }
    }

    /// How many pairs there are.
    pub fn len(&self) -> usize
        ensures { result ≡ length self.now }
    {
        self.pairs.len()
    }

    /// The pairs, whose names rise.
    pub fn as_slice(&self) -> &[(Name, T)]
        ensures pairs { result.now ≡ self.now }
        ensures rising { Rising self.now }
    {
        self.pairs.as_slice()
    }

    /// The value at a name: `None` exactly where no pair has it.
    pub fn get(&self, name: &str) -> Option<&T>
        ensures { option_copied result ≡ lookup name.now self.now }
    {
        let pairs = self.as_slice();
        let pair = pairs.get(place(pairs, name))?;
        if pair.0.as_str() == name {
            Some(&pair.1)
        } else {
            None
        }
    }

    /// The name of the pair at a place, counted from 0: `None` exactly past the end.
    pub fn name_at(&self, at: usize) -> Option<&Name>
        ensures { option_copied result ≡ option_map (λ pair. pair.0) (slice_get self.now at) }
    {
        match self.pairs.get(at) {
            Some(pair) => Some(&pair.0),
            None => None,
        }
    }

    /// The value of the pair at a place, counted from 0: `None` exactly past the end.
    pub fn value_at(&self, at: usize) -> Option<&T>
        ensures { option_copied result ≡ option_map (λ pair. pair.1) (slice_get self.now at) }
    {
        match self.pairs.get(at) {
            Some(pair) => Some(&pair.1),
            None => None,
        }
    }
}

impl<T: Drop> Share for NameMap<T> {
    fn share(&self, alloc: Global) -> Result<NameMap<T>, Memory> {
        let pairs = self.pairs.share(alloc)?;
        Ok(NameMap { pairs })
    }
}

impl<T: Share + Drop> NameMap<T> {
    /// Puts a value at a name that is not there, in its place by the order of names. `Err` hands both back unchanged
    /// for want of memory, and the map is as before.
    pub fn put(&mut self, name: Name, value: T) -> Result<(), (Name, T)>
        requires absent { lookup name self.old ≡ None }
        ensures ok { OnOk result (self.new ≡ put name value self.old) }
        ensures err { OnErr result (self.new ≡ self.old) }
        ensures back { IfErr result (λ pair. pair ≡ (name, value)) }
    {
        let at = place(self.as_slice(), name.as_str());
        self.pairs.insert(at, (name, value))
    }

    /// Puts a pair last whose name is above all others, or drops it for want of memory, and then the map is as before.
    pub fn add(&mut self, name: Name, value: T) -> Result<(), Memory>
        requires rising { Rising (self.old ++ (name, value) ∷ []) }
        ensures ok { OnOk result (self.new ≡ self.old ++ (name, value) ∷ []) }
        ensures err { OnErr result (self.new ≡ self.old) }
    {
        self.pairs.add((name, value))
    }

    /// The pairs: those of a sole owner are moved, and those of a shared map are shared. `Err` hands the map back
    /// unchanged for want of memory.
    pub fn take_apart(self) -> Result<Vec<(Name, T)>, NameMap<T>>
        ensures ok { IfOk result (λ pairs. pairs.items ≡ self) }
        ensures rising { Rising self }
        ensures back { IfErr result (λ same. same ≡ self) }
    {
        match self.pairs.take_apart() {
            Ok(pairs) => Ok(pairs),
            Err(pairs) => Err(NameMap { pairs }),
        }
    }
}

// How many names are below this one, among names that rise: at once where all are, and else by halves.
fn place<T>(pairs: &[(Name, T)], name: &str) -> usize
    requires { Rising pairs.now }
    ensures { result ≡ below name.now pairs.now }
{
    let mut low = 0;
    let mut high = pairs.len();
    if high > 0 && pairs[high - 1].0.as_str() < name {
        return high;
    }
    while low < high {
        let middle = low + (high - low) / 2;
        if pairs[middle].0.as_str() < name {
            low = middle + 1;
        } else {
            high = middle;
        }
    }
    low
}
