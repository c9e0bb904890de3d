// The names that a shelf in memory was asked for.
ghost use Rattle.std.specs.Prelude.{◌≡◌, [], ◌∷◌, Some, OnOk, map, option_map};
ghost use Rattle.std.specs.String.{string_bytes};
ghost use Rattle.qc_io.specs.Device.{HasAsked};

use qc_containers::Memory;
use std::alloc::Global;
use std::marker::Model;

/// The names that were asked for so far, in order, until memory was wanting to note one. A clause sees the list of
/// their bytes, or none.
#[derive(Drop)]
pub(crate) struct Asked {
    names: Vec<String>,
    is_whole: bool,
}

impl Model for Asked {
    ghost use Rattle.std.specs.Prelude.{List, ℕ, Option, Some, None, map, if◌then◌else◌};
    ghost use Rattle.std.specs.String.{string_bytes};

    ghost Value = { Option (List (List ℕ)) };

    ghost view = { λ asked. if asked.is_whole then Some (map string_bytes asked.names.items) else None };
}

impl Asked {
    /// No name so far.
    pub(crate) fn new(alloc: Global) -> Asked
        ensures { result ≡ Some [] }
    {
        Asked {
            names: Vec::new(alloc),
            is_whole: true,
        }
    }

    /// Notes a name behind the others.
    pub(crate) fn note(&mut self, alloc: Global, name: &str)
        ensures { HasAsked self.old self.new (name.now ∷ []) }
    {
        if self.add(alloc, name).is_err() {
            self.is_whole = false;
        }
    }

    /// The names in order, or `None` where memory was wanting to note one.
    pub(crate) fn names(&self) -> Option<&[String]>
        ensures { option_map (λ names. map string_bytes names.now) result ≡ self.now }
    {
        if self.is_whole {
            Some(self.names.as_slice())
        } else {
            None
        }
    }

    fn add(&mut self, alloc: Global, name: &str) -> Result<(), Memory>
        ensures { OnOk result (HasAsked self.old self.new (name.now ∷ [])) }
    {
        let name = String::from_str(alloc, name)?;
        self.names.push(name)?;
        Ok(())
    }
}
