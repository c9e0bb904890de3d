// The variables that are declared while a program runs.
ghost use Rattle.std.specs.Option.{option_copied};
ghost use Rattle.std.specs.Prelude.{◌≡◌, ◌-◌, [], ◌∷◌, drop, length, OnOk};
ghost use Rattle.qc_js.specs.Meaning.{cell_of, changed, newest_done, pushed_to, set_to, value_in};
ghost use Rattle.qc_js_run.specs.inner.Stores.{Leads, seen, store_of};

use crate::slots::{Slot, done, newest, push_to, set_to, value_in};
use qc_containers::Memory;
use qc_data::{Halt, Json};
use std::alloc::Global;

// The declared variables, the newest last.
#[derive(Drop)]
pub(crate) struct Store {
    slots: Vec<(u128, Slot)>,
}

impl Store {
    // No variable, which takes no memory.
    #[tactic(auto, unfolding(crate::specs::inner::Stores::store_of))]
    pub(crate) fn new(alloc: Global) -> Store
        ensures { store_of result ≡ [] }
    {
        Store {
            slots: Vec::new(alloc),
        }
    }

    // How many variables there are.
    #[tactic(auto, using(crate::proofs::Stores::behind_length), unfolding(crate::specs::inner::Stores::store_of))]
    pub(crate) fn len(&self) -> usize
        ensures { result ≡ length (store_of self.now) }
    {
        self.slots.len()
    }

    // Declares a variable.
    #[tactic(auto, using(crate::proofs::Stores::behind_push), unfolding(crate::specs::inner::Stores::store_of))]
    pub(crate) fn declare(&mut self, variable: u128, slot: Slot) -> Result<(), Memory>
        ensures { OnOk result (store_of self.new ≡ (variable, seen slot) ∷ store_of self.old) }
    {
        match self.slots.push((variable, slot)) {
            Ok(()) => Ok(()),
            Err(_) => Err(Memory),
        }
    }

    // Forgets all but as many of the oldest.
    #[tactic(auto, using(crate::proofs::Stores::behind_take), unfolding(crate::specs::inner::Stores::store_of))]
    pub(crate) fn cut(&mut self, len: usize)
        ensures { store_of self.new ≡ drop (length (store_of self.old) - len) (store_of self.old) }
    {
        self.slots.truncate(len);
    }

    // The value of a variable that may be read.
    #[tactic(auto, unfolding(crate::specs::inner::Stores::store_of))]
    pub(crate) fn get(&self, variable: u128) -> Option<&Json>
        ensures { option_copied result ≡ value_in (cell_of variable (store_of self.now)) }
    {
        match newest(self.slots.as_slice(), variable) {
            Some(at) => value_in(&self.slots[at].1),
            None => None,
        }
    }

    // Sets a variable to the value.
    #[tactic(auto, unfolding(crate::specs::inner::Stores::store_of))]
    pub(crate) fn set(&mut self, variable: u128, value: Json) -> Result<(), Halt>
        ensures { Leads (changed (set_to value) variable (store_of self.old)) (store_of self.new) result }
    {
        match newest(self.slots.as_slice(), variable) {
            Some(at) => set_to(&mut self.slots[at].1, value),
            None => Err(Halt::Stuck),
        }
    }

    // Pushes the value to a variable.
    #[tactic(auto, unfolding(crate::specs::inner::Stores::store_of))]
    pub(crate) fn push(&mut self, variable: u128, value: Json) -> Result<(), Halt>
        ensures { Leads (changed (pushed_to value) variable (store_of self.old)) (store_of self.new) result }
    {
        match newest(self.slots.as_slice(), variable) {
            Some(at) => push_to(&mut self.slots[at].1, value),
            None => Err(Halt::Stuck),
        }
    }

    // Makes the newest variable a constant, if it is pushed to.
    #[tactic(auto, using(crate::proofs::Stores::newest_is_done), unfolding(crate::specs::inner::Stores::store_of))]
    pub(crate) fn finish(&mut self) -> Result<(), Memory>
        ensures { OnOk result (store_of self.new ≡ newest_done (store_of self.old)) }
    {
        match self.slots.pop() {
            Some((variable, slot)) => self.declare(variable, done(slot)),
            None => Ok(()),
        }
    }
}
