// Names of fields and classes.
ghost use Rattle.std.specs.Prelude.{◌≡◌, ◌↔◌, IfOk, IsTrue, Some, None, cond, false};
ghost use Rattle.qc_containers.specs.Name.{is_marker, is_name, IsUser};

use crate::memory::Memory;
use crate::share::Share;
use crate::text::Chars;
use std::alloc::Global;
use std::marker::Model;
use thiserror::Error;

/// A text of 1 to 64 bytes that is none of the markers `$left`, `$right`, `$class` and `$data`. Clauses see its bytes.
#[derive(Drop)]
pub struct Name {
    text: Chars,
}

impl Model for Name {
    ghost use Rattle.std.specs.Prelude.{List, ℕ, IsTrue};
    ghost use Rattle.qc_containers.specs.Name.{is_name};

    ghost Value = { List ℕ };

    ghost view = { λ name. name.text };

    ghost invariant = { λ name. IsTrue (is_name name.text) };
}

/// Why a text gave no name.
#[derive(Clone, Copy, Debug, PartialEq, Eq, Error)]
pub enum NameFault {
    /// The text is no name.
    #[error("BadName")]
    BadName,
    /// Memory was wanting.
    #[error("Memory")]
    Memory,
}

impl Name {
    /// The name that the text spells: `BadName` exactly where it is none.
    pub fn of(alloc: Global, text: &str) -> Result<Name, NameFault>
        ensures ok { IfOk result (λ name. (name ≡ text.now) × IsTrue (is_name text.now)) }
        ensures bad { result ≡ Err NameFault.BadName → is_name text.now ≡ false }
        ensures exact { is_name text.now ≡ false → result ≡ Err NameFault.BadName }
    {
        if !is_name(text) {
            return Err(NameFault::BadName);
        }
        match Chars::of(alloc, text) {
            Ok(text) => Ok(Name { text }),
            Err(_) => Err(NameFault::Memory),
        }
    }

    /// The name that the text spells, which keeps the text: `None` exactly where it is none.
    pub fn spelled(text: Chars) -> Option<Name>
        ensures { result ≡ cond (is_name text) (Some text) None }
    {
        if is_name(text.as_str()) {
            Some(Name { text })
        } else {
            None
        }
    }

    /// The name's text.
    pub fn as_str(&self) -> &str
        ensures text { result.now ≡ self.now }
        ensures name { IsTrue (is_name self.now) }
    {
        self.text.as_str()
    }

    /// The same name.
    pub fn copy(&self, alloc: Global) -> Result<Name, Memory>
        ensures { IfOk result (λ name. name ≡ self.now) }
    {
        let text = self.text.copy(alloc)?;
        Ok(Name { text })
    }

    /// Whether a user may give this name: those that begin with `$` are the compiler's own.
    pub fn is_user(&self) -> bool
        ensures { IsTrue result ↔ IsUser self.now }
    {
        !self.as_str().starts_with('$')
    }
}

impl Share for Name {
    fn share(&self, alloc: Global) -> Result<Name, Memory> {
        self.copy(alloc)
    }
}

// Whether the text is one of the four markers.
fn is_marker(text: &str) -> bool
    ensures { result ≡ is_marker text.now }
{
    text == "$left" || text == "$right" || text == "$class" || text == "$data"
}

/// Whether the text is a name.
pub fn is_name(text: &str) -> bool
    ensures { result ≡ is_name text.now }
{
    !text.is_empty() && text.len() <= 64 && !is_marker(text)
}
