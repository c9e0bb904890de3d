// A shelf in memory, whose failing calls are listed beforehand.
ghost use Rattle.std.specs.Prelude.{◌≡◌, ◌≤◌, ◌<◌, ◌+◌, ◌⊎◌, ◌↔◌, ◌++◌, ◌∷◌, [], length, Some, None, OnOk, OnErr};
ghost use Rattle.std.specs.Prelude.{IsErrOf, Contains, MatchOption};
ghost use Rattle.std.specs.Prelude.{map, option_map};
ghost use Rattle.std.specs.String.{string_bytes};
ghost use Rattle.qc_io.specs.Calls.{FailsNext, with_failing, with_call, with_fault};
ghost use Rattle.qc_io.specs.Device.{Rose, IsText, IsTooLong, IsMissing, HasAsked};
ghost use Rattle.qc_io.specs.MemShelf.{no_texts, text_of};

use crate::asked::Asked;
use crate::calls::Calls;
use crate::{FetchFault, Shelf};
use qc_containers::Memory;
use std::alloc::Global;
use std::marker::Model;

/// A text with its name. A clause sees the pair of their bytes.
#[derive(Drop)]
struct Named {
    name: String,
    text: Vec<u8>,
}

impl Model for Named {
    ghost use Rattle.std.specs.Prelude.{List, ℕ};
    ghost use Rattle.std.specs.String.{string_bytes};

    ghost Value = { List ℕ × List ℕ };

    ghost view = { λ named. (string_bytes named.name, named.text.items) };
}

/// A shelf in memory, some of whose calls of `fetch` may be listed as failing. A clause sees a `ShelfState`.
#[derive(Drop)]
pub struct MemShelf {
    alloc: Global,
    // The last added stands first.
    texts: Vec<Named>,
    calls: Calls,
    asked: Asked,
}

impl Model for MemShelf {
    ghost use Rattle.qc_io.specs.MemShelf.{ShelfState};

    ghost Value = { ShelfState };

    ghost view = { λ shelf. record { texts = shelf.texts.items; calls = shelf.calls; asked = shelf.asked } };
}

impl MemShelf {
    /// An empty shelf, with no failing call.
    pub fn new(alloc: Global) -> MemShelf
        ensures { result ≡ no_texts }
    {
        MemShelf {
            alloc,
            texts: Vec::new(alloc),
            calls: Calls::new(alloc),
            asked: Asked::new(alloc),
        }
    }

    /// The names that it was asked for so far, in order, or `None` where memory was wanting to note one.
    pub fn asked(&self) -> Option<&[String]>
        ensures { option_map (λ names. map string_bytes names.now) result ≡ self.now.asked }
    {
        self.asked.names()
    }

    /// Adds a text, which takes the place of an earlier one of the same name.
    ///
    /// # Errors
    ///
    /// Where memory is wanting; the shelf then is as it was.
    pub fn add(&mut self, name: &str, text: &[u8]) -> Result<(), Memory>
        ensures ok { OnOk result (self.new
            ≡ record self.old { texts = (name.now, text.now) ∷ self.old.texts }) }
        ensures err { OnErr result (self.new ≡ self.old) }
    {
        let name = String::from_str(self.alloc, name)?;
        let text = text.to_vec(self.alloc)?;
        self.texts.insert(0, Named { name, text })?;
        Ok(())
    }

    /// Lists a call of `fetch` that is to fail. The first call has the number 1.
    ///
    /// # Errors
    ///
    /// Where memory is wanting; the shelf then is as it was.
    pub fn fail_at(&mut self, call: u64) -> Result<(), Memory>
        ensures ok { OnOk result (self.new
            ≡ record self.old { calls = with_failing self.old.calls call }) }
        ensures err { OnErr result (self.new ≡ self.old) }
    {
        self.calls.fail_at(call)
    }
}

impl Shelf for MemShelf {
    ghost texts = { λ shelf. Some (text_of shelf.texts) };

    ghost faults = { λ shelf. shelf.calls.faults };

    ghost asked = { λ shelf. shelf.asked };

    /// Fetches a text, as every shelf. It answers `Failed` exactly where the call is listed or the
    /// name is missing, and counts a fault exactly where the call is listed. It tells what it was asked for until
    /// memory is wanting to note a name.
    fn fetch(&mut self, name: &str, most: u64, into: &mut Vec<u8>) -> Result<(), FetchFault>
        requires { most ≤ 4294967296 }

        // What every shelf ensures.
        ensures ok { OnOk result
            (IsText (Some (text_of self.old.texts)) name.now most into.new.items) }
        ensures too_long { IsErrOf result FetchFault.TooLong
            → IsTooLong (Some (text_of self.old.texts)) name.now most into.new.items }
        ensures failed { IsErrOf result FetchFault.Failed
            → Rose self.old.calls.faults self.new.calls.faults
            ⊎ IsMissing (Some (text_of self.old.texts)) name.now }
        ensures count { self.old.calls.faults ≤ self.new.calls.faults }
        ensures asks { HasAsked self.old.asked self.new.asked (name.now ∷ []) }
        ensures same { Some (text_of self.new.texts) ≡ Some (text_of self.old.texts) }

        // When it fails, and the whole shelf after the call.
        ensures refused { IsErrOf result FetchFault.Failed
            ↔ (FailsNext self.old.calls ⊎ (text_of self.old.texts name.now ≡ None)) }
        ensures listed { FailsNext self.old.calls
            → self.new ≡ record self.old { calls = with_fault (with_call self.old.calls); asked = self.new.asked } }
        ensures unlisted { ¬ FailsNext self.old.calls
            → self.new ≡ record self.old { calls = with_call self.old.calls; asked = self.new.asked } }
    {
        into.clear();
        self.asked.note(self.alloc, name);
        if self.calls.count_call() {
            self.calls.count_fault();
            return Err(FetchFault::Failed);
        }
        match find_text(&self.texts, name) {
            Some(text) => copy_up_to(text, most, into),
            None => Err(FetchFault::Failed),
        }
    }
}

// The text of a name: the first in the list, which is the last added.
fn find_text<'a>(texts: &'a [Named], name: &str) -> Option<&'a [u8]>
    ensures { MatchOption result (text_of texts.now name.now ≡ None)
        (λ text. text_of texts.now name.now ≡ Some text.now) }
{
    for named in texts {
        if named.name.as_str() == name {
            return Some(&named.text);
        }
    }
    None
}

// Copies the text, or one byte more than the limit.
fn copy_up_to(text: &[u8], most: u64, into: &mut Vec<u8>) -> Result<(), FetchFault>
    requires limit { most ≤ 4294967296 }
    requires empty { into.old.items ≡ [] }
    ensures ok { OnOk result ((into.new.items ≡ text.now) × (length text.now ≤ most)) }
    ensures too_long { IsErrOf result FetchFault.TooLong
        → (length into.new.items ≡ most + 1) × (most < length text.now) }
    ensures failed { ¬ IsErrOf result FetchFault.Failed }
{
    let limit = most as usize;
    let end = text.len().min(limit + 1);
    into.extend_from_slice(&text[..end])
        .map_err(|_| FetchFault::Memory)?;
    if end > limit {
        return Err(FetchFault::TooLong);
    }
    Ok(())
}
