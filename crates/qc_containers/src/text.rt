// Texts.
ghost use Rattle.std.specs.Prelude.{◌≡◌, ◌++◌, IfOk};
ghost use Rattle.std.specs.String.{string_bytes};

use crate::memory::Memory;
use crate::share::Share;
use std::alloc::Global;
use std::marker::Model;
use std::rc::RcStr;

/// A text, which its copies share. Clauses see its UTF-8 bytes.
#[derive(Drop)]
pub struct Chars {
    text: RcStr,
}

impl Model for Chars {
    ghost use Rattle.std.specs.Prelude.{List, ℕ};
    ghost use Rattle.std.specs.Rc.{rc_str_bytes};

    ghost Value = { List ℕ };

    ghost view = { λ chars. rc_str_bytes chars.text };
}

impl Chars {
    /// A copy of the text.
    pub fn of(alloc: Global, text: &str) -> Result<Chars, Memory>
        ensures { IfOk result (λ chars. chars ≡ text.now) }
    {
        let text = RcStr::from_str(alloc, text)?;
        Ok(Chars { text })
    }

    /// The text of a string, which is moved and not copied.
    pub fn from_string(text: String) -> Result<Chars, Memory>
        ensures { IfOk result (λ chars. chars ≡ string_bytes text) }
    {
        let text = RcStr::from_string(text)?;
        Ok(Chars { text })
    }

    /// The first text and then the second, each copied once.
    pub fn joined(alloc: Global, first: &str, second: &str) -> Result<Chars, Memory>
        ensures { IfOk result (λ both. both ≡ first.now ++ second.now) }
    {
        let mut both = String::with_capacity(alloc, first.len() + second.len())?;
        both.push_str(first)?;
        both.push_str(second)?;
        Chars::from_string(both)
    }

    /// The text.
    pub fn as_str(&self) -> &str
        ensures { result.now ≡ self.now }
    {
        self.text.as_str()
    }

    /// The same text.
    pub fn copy(&self, alloc: Global) -> Result<Chars, Memory>
        ensures { IfOk result (λ chars. chars ≡ self.now) }
    {
        self.share(alloc)
    }
}

impl Share for Chars {
    fn share(&self, alloc: Global) -> Result<Chars, Memory> {
        let text = self.text.clone()?;
        Ok(Chars { text })
    }
}
