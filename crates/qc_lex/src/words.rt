// The tokens of a scan.
ghost use Rattle.std.specs.Prelude.{◌≡◌, ◌≤◌, ◌<◌, ◌⊎◌, length, slice_get, Some, IfOk};
ghost use Rattle.std.specs.Option.{option_map};
ghost use Rattle.qc_lex.specs.declared.token.Kind.TheVariants as kind;
ghost use Rattle.qc_lex.specs.Words as spec;

use crate::digits::number;
use crate::quotes;
use crate::token::{Placed, Token};
use qc_containers::{Chars, List, Memory};
use std::alloc::Global;
use std::marker::Model;

/// The tokens of a scan, with their pieces of the source. Clauses see the list of the lexemes with their places.
#[derive(Drop)]
pub struct Words {
    words: List<Placed>,
}

impl Model for Words {
    ghost use Rattle.std.specs.Prelude.{List, ◌≤◌, length};
    ghost use Rattle.qc_lex.specs.declared.token.Placed.{Placed};
    ghost use Rattle.qc_lex.specs.Words.{AllTokens};

    ghost Value = { List Placed };

    ghost view = { λ tokens. tokens.words };

    ghost invariant = { λ tokens. AllTokens tokens.words × (length tokens.words ≤ 1000) };
}

impl Words {
    /// The words of a list of tokens, which are no more than a source may have.
    pub(crate) fn new(words: List<Placed>) -> Words
        requires tokens { spec.AllTokens words }
        requires few { length words ≤ 1000 }
        ensures { result ≡ words }
    {
        Words { words }
    }

    /// How many tokens there are: at most 1,000.
    pub fn len(&self) -> u32
        ensures length { result ≡ length self.now }
        ensures few { result ≤ 1000 }
    {
        self.words.len() as u32
    }

    /// The kind and the place of a token: `None` exactly past the end.
    pub fn get(&self, at: u32) -> Option<Token>
        ensures { result ≡ option_map spec.token_of (slice_get self.now at) }
    {
        let word = self.words.get(at as usize)?;
        Some(Token {
            kind: word.lexeme.kind,
            start: word.start,
            end: word.end,
        })
    }

    /// The piece of the source that a token is.
    pub fn piece(&self, at: u32) -> &str
        requires { at < length self.now }
        ensures { Some result.now ≡ spec.piece_at self.now at }
    {
        match self.words.get(at as usize) {
            Some(word) => word.lexeme.piece.as_str(),
            None => unreachable!(),
        }
    }

    /// The number that a whole number spells.
    pub fn whole(&self, at: u32) -> i64
        requires { spec.kind_at self.now at ≡ Some kind.Whole }
        ensures { Some result ≡ spec.whole_at self.now at }
    {
        let Some(word) = self.words.get(at as usize) else {
            unreachable!();
        };
        match number(word.lexeme.piece.as_str().as_bytes()) {
            Some(value) => value,
            None => unreachable!(),
        }
    }

    /// What stands between the quotes of a text or a quoted name, with doubled quotes made single.
    pub fn content(&self, alloc: Global, at: u32) -> Result<Chars, Memory>
        requires { (spec.kind_at self.now at ≡ Some kind.Text) ⊎ (spec.kind_at self.now at ≡ Some kind.Quoted) }
        ensures { IfOk result (λ chars. Some chars ≡ spec.content_at self.now at) }
    {
        let Some(word) = self.words.get(at as usize) else {
            unreachable!();
        };
        let bytes = quotes::content(alloc, word.lexeme.piece.as_str().as_bytes())?;
        match str::from_utf8(bytes.as_slice()) {
            Ok(text) => Chars::of(alloc, text),
            Err(_) => unreachable!(),
        }
    }
}
