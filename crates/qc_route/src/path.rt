// Paths.
ghost use Rattle.std.specs.Prelude.{◌≡◌, ◌∷◌, [], IfOk, IfSome, IsTrue, None, OnErr, Some};
ghost use Rattle.qc_route.specs.Paths.{first_of, is_path, is_source, is_walk, path_in, pieces, usual, words_of};
ghost use Rattle.qc_route.specs.inner.Putting.{CannotPut, HasPut};

use crate::edge::Edge;
use crate::word::Word;
use arrayvec::ArrayVec;
use std::marker::Model;

/// A walk along edges from a source, of at most 16 words. Clauses see the words.
#[derive(Drop)]
pub struct Path {
    words: ArrayVec<Word, 16>,
}

impl Model for Path {
    ghost use Rattle.std.specs.Prelude.{IsTrue, List};
    ghost use Rattle.qc_route.specs.Paths.{is_path};
    ghost use Rattle.qc_route.specs.declared.word.Word.{Word};

    ghost Value = { List Word };

    ghost view = { λ path. path.words.items };

    ghost invariant = { λ path. IsTrue (is_path path.words.items) };
}

/// The text is no path.
#[derive(Clone, Copy, Debug, PartialEq, Eq)]
pub struct NoPath;

impl Path {
    /// The path through all stages.
    pub fn usual() -> Path
        ensures { result ≡ usual }
    {
        let words = [
            Word::Oql,
            Word::Nraenv,
            Word::Nnrc,
            Word::Nnrs,
            Word::Imp,
            Word::Js,
        ];
        let Ok(words) = ArrayVec::try_from(words.as_slice()) else {
            unreachable!();
        };
        Path { words }
    }

    /// The words, of which there are 16 at most.
    pub fn words(&self) -> &[Word]
        ensures same { result.now ≡ self.now }
        ensures path { IsTrue (is_path self.now) }
    {
        self.words.as_slice()
    }

    /// The source that it begins with.
    pub fn source(&self) -> Word
        ensures first { first_of self.now ≡ Some result }
        ensures source { IsTrue (is_source result) }
    {
        let [source, ..] = self.words() else {
            unreachable!();
        };
        *source
    }
}

/// The path that the text is: words with commas between them, which are a walk along edges from a source, 16 at most.
/// It takes no memory.
pub fn path_of(text: &str) -> Result<Path, NoPath>
    ensures ok { IfOk result (λ path. path_in text.now ≡ Some path) }
    ensures err { OnErr result (path_in text.now ≡ None) }
{
    let Some(words) = words_in(text.as_bytes()) else {
        return Err(NoPath);
    };
    if is_path(words.as_slice()) {
        Ok(Path { words })
    } else {
        Err(NoPath)
    }
}

// The words that the pieces of the text between its commas are, where they are words, and 16 at most.
fn words_in(text: &[u8]) -> Option<ArrayVec<Word, 16>>
    ensures some { IfSome result (λ words. words_of (pieces [] text.now) ≡ Some words.items) }
    ensures none { result ≡ None → path_in text.now ≡ None }
{
    let mut words = ArrayVec::new();
    let mut from = 0;
    for at in 0..text.len() {
        if text[at] == b',' {
            put_word(&mut words, &text[from..at])?;
            from = at + 1;
        }
    }
    put_word(&mut words, &text[from..])?;
    Some(words)
}

// Puts the word that is written so behind the others, where it is one and there is room.
fn put_word(words: &mut ArrayVec<Word, 16>, text: &[u8]) -> Option<()>
    ensures some { IfSome result (λ _. HasPut words.old.items words.new.items text.now) }
    ensures none { result ≡ None → CannotPut words.old.items text.now }
{
    let word = Word::of(text)?;
    words.try_push(word).ok()
}

// Whether the words are a path.
fn is_path(words: &[Word]) -> bool
    ensures { result ≡ is_path words.now }
{
    match words {
        [] => false,
        [source, ..] => *source == Word::Oql && words.len() <= 16 && is_walk(words),
    }
}

// Whether from each word an edge leads to the next.
fn is_walk(words: &[Word]) -> bool
    ensures { result ≡ is_walk words.now }
{
    match words {
        [word, next, ..] => Edge::between(*word, *next).is_some() && is_walk(&words[1..]),
        _ => true,
    }
}
