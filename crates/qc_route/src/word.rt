// The words of paths.
ghost use Rattle.std.specs.Prelude.{◌≡◌};
ghost use Rattle.qc_route.specs.Paths.{text_of, word_of};

/// A word of a path: a language that a query is in on its way.
#[derive(Clone, Copy, Debug, Default, PartialEq, Eq)]
pub enum Word {
    /// The object query language of ODMG, a source.
    #[default]
    Oql,
    /// The algebra.
    Nraenv,
    /// The calculus.
    Nnrc,
    /// Programs of statements.
    Nnrs,
    /// Imperative programs.
    Imp,
    /// Programs on JSON.
    Js,
}

impl Word {
    /// The word as it is written.
    pub fn text(self) -> &'static str
        ensures { result.now ≡ text_of self }
    {
        match self {
            Word::Oql => "oql",
            Word::Nraenv => "nraenv",
            Word::Nnrc => "nnrc",
            Word::Nnrs => "nnrs",
            Word::Imp => "imp",
            Word::Js => "js",
        }
    }

    /// The word that is written so.
    pub fn of(text: &[u8]) -> Option<Word>
        ensures { result ≡ word_of text.now }
    {
        if text == "oql".as_bytes() {
            Some(Word::Oql)
        } else if text == "nraenv".as_bytes() {
            Some(Word::Nraenv)
        } else if text == "nnrc".as_bytes() {
            Some(Word::Nnrc)
        } else if text == "nnrs".as_bytes() {
            Some(Word::Nnrs)
        } else if text == "imp".as_bytes() {
            Some(Word::Imp)
        } else if text == "js".as_bytes() {
            Some(Word::Js)
        } else {
            None
        }
    }
}
