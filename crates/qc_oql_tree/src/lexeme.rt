// Tokens as the grammar sees them.
ghost use Rattle.std.specs.Prelude.{◌≡◌, ◌≤ℤ◌, pos, IfOk};
ghost use Rattle.qc_oql_tree.specs.Lexemes as spec;

use crate::kinds::{NONZERO, OTHER, TEXT, ZERO};
use crate::words::{mark_kind, word_kind};
use qc_containers::{Chars, Memory};
use qc_lex::{Kind, Words};
use std::alloc::Global;

/// A token of a scan.
#[derive(Clone, Copy)]
pub struct Lexeme<'a> {
    /// All tokens of the scan.
    pub words: &'a Words,
    /// Its number among them.
    pub at: u32,
}

impl<'a> Lexeme<'a> {
    /// The text of the token.
    fn piece(self) -> &'a str
        ensures { result.now ≡ (spec.lexeme self.entry).piece }
    {
        if self.at < self.words.len() {
            self.words.piece(self.at)
        } else {
            ""
        }
    }

    /// A copy of the text of the token.
    pub fn text(self, alloc: Global) -> Result<Chars, Memory>
        ensures { IfOk result (λ text. text ≡ (spec.lexeme self.entry).piece) }
    {
        Chars::of(alloc, self.piece())
    }

    /// The number that the token spells, or 0 where it is no whole number.
    pub fn whole(self) -> i64
        ensures same { result ≡ spec.whole (spec.lexeme self.entry) }
        ensures positive { pos 0 ≤ℤ result }
    {
        match self.words.get(self.at) {
            Some(token) => match token.kind {
                Kind::Whole => self.words.whole(self.at),
                Kind::Word | Kind::Quoted | Kind::Text | Kind::Mark => 0,
            },
            None => 0,
        }
    }

    /// What stands between the quotes of the token, or nothing where it is no text.
    pub fn content(self, alloc: Global) -> Result<Chars, Memory>
        ensures { IfOk result (λ text. text ≡ spec.content (spec.lexeme self.entry)) }
    {
        match self.words.get(self.at) {
            Some(token) => match token.kind {
                Kind::Text => self.words.content(alloc, self.at),
                Kind::Word | Kind::Quoted | Kind::Whole | Kind::Mark => Chars::of(alloc, ""),
            },
            None => Chars::of(alloc, ""),
        }
    }

    /// The kind of the token.
    pub fn kind(self) -> u32
        ensures { result ≡ spec.kind (spec.lexeme self.entry) }
    {
        match self.words.get(self.at) {
            Some(token) => match token.kind {
                Kind::Word => word_kind(self.piece()),
                Kind::Whole => whole_kind(self.whole()),
                Kind::Text => TEXT,
                Kind::Mark => mark_kind(self.piece()),
                Kind::Quoted => OTHER,
            },
            None => OTHER,
        }
    }
}

/// The kind of a whole number.
fn whole_kind(value: i64) -> u32
    ensures { result ≡ spec.whole_kind value }
{
    if value == 0 { ZERO } else { NONZERO }
}
