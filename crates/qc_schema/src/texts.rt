// Texts that repeat, held once.
ghost use Rattle.std.specs.Prelude.{◌≡◌, IfOk};
ghost use Rattle.std.specs.String.{string_bytes};

use qc_containers::{Chars, Memory};
use std::alloc::Global;

// How many texts are held.
const SLOTS: usize = 256;

// The texts that came last, one a slot, so that one that comes again is shared. Which are held only saves memory, so no
// clause speaks of it.
#[derive(Drop)]
pub(crate) struct Texts {
    slots: Vec<Chars>,
    alloc: Global,
}

impl Texts {
    // Empty texts alone.
    pub(crate) fn new(alloc: Global) -> Result<Texts, Memory> {
        let empty = Chars::of(alloc, "")?;
        let mut slots = Vec::with_capacity(alloc, SLOTS)?;
        for _ in 0..SLOTS {
            slots.push(empty.copy(alloc)?)?;
        }
        Ok(Texts { slots, alloc })
    }

    // The text, which its slot holds from then on.
    pub(crate) fn hold(&mut self, text: String) -> Result<Chars, Memory>
        ensures { IfOk result (λ held. held ≡ string_bytes text) }
    {
        let Some(slot) = self.slots.get_mut(slot_of(text.as_str())) else {
            return Chars::from_string(text);
        };
        if slot.as_str() == text.as_str() {
            return slot.copy(self.alloc);
        }
        let made = Chars::from_string(text)?;
        *slot = made.copy(self.alloc)?;
        Ok(made)
    }
}

// The slot of a text.
fn slot_of(text: &str) -> usize {
    let mut hash = 0u8;
    for byte in text.as_bytes() {
        hash = hash.wrapping_mul(31).wrapping_add(*byte);
    }
    usize::from(hash)
}
