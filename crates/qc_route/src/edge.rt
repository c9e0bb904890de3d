// The edges between stages.
ghost use Rattle.std.specs.Prelude.{◌≡◌, IfSome};
ghost use Rattle.qc_route.specs.Paths.{edge_between, from as starts_at, to as ends_at};

use crate::word::Word;

/// A pass of the compiler, from a word to a word.
#[derive(Clone, Copy, Debug, PartialEq, Eq)]
pub enum Edge {
    /// From OQL to the algebra.
    OqlToNraenv,
    /// From the algebra to the calculus.
    NraenvToNnrc,
    /// From the calculus to programs of statements.
    NnrcToNnrs,
    /// From programs of statements to imperative programs.
    NnrsToImp,
    /// From imperative programs to programs on JSON.
    ImpToJs,
}

impl Edge {
    /// The edge from a word to a word, where there is one.
    pub fn between(from: Word, to: Word) -> Option<Edge>
        ensures edge { result ≡ edge_between from to }
        ensures ends { IfSome result (λ edge. (starts_at edge ≡ from) × (ends_at edge ≡ to)) }
    {
        match (from, to) {
            (Word::Oql, Word::Nraenv) => Some(Edge::OqlToNraenv),
            (Word::Nraenv, Word::Nnrc) => Some(Edge::NraenvToNnrc),
            (Word::Nnrc, Word::Nnrs) => Some(Edge::NnrcToNnrs),
            (Word::Nnrs, Word::Imp) => Some(Edge::NnrsToImp),
            (Word::Imp, Word::Js) => Some(Edge::ImpToJs),
            _ => None,
        }
    }
}
