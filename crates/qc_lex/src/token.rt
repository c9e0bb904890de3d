// Tokens and their kinds.
use qc_containers::Chars;

/// The table of a source language: which tokens and comments it has.
#[derive(Clone, Copy, Debug, PartialEq, Eq)]
pub enum Table {
    /// OQL: comments begin with `//`, and texts stand between `"` or `'`.
    Oql,
    /// SQL: comments begin with `--`, texts stand between `'` and quoted names between `"`.
    Sql,
    /// Rules: comments begin with `;`, and texts stand between `"`.
    Rule,
}

/// The kind of a token.
#[derive(Clone, Copy, Debug, PartialEq, Eq)]
pub enum Kind {
    /// A name or a word of the language.
    Word,
    /// A name between quotes.
    Quoted,
    /// A whole number.
    Whole,
    /// A text between quotes.
    Text,
    /// A mark of one or two bytes.
    Mark,
}

/// A token: its kind, and the places in the bytes at which it begins and behind which it ends.
#[derive(Clone, Copy, Debug, PartialEq, Eq)]
pub struct Token {
    pub kind: Kind,
    pub start: u32,
    pub end: u32,
}

/// A token as a grammar sees it: its kind, and the bytes that it is.
#[derive(Drop)]
pub struct Lexeme {
    pub kind: Kind,
    pub piece: Chars,
}

/// A lexeme, and the places in the bytes at which it begins and behind which it ends.
#[derive(Drop)]
pub struct Placed {
    pub start: u32,
    pub end: u32,
    pub lexeme: Lexeme,
}
