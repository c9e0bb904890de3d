// The tokens of texts.
use qc_containers::Chars;

/// A token.
#[derive(Drop)]
pub enum Token {
    /// A word.
    Word(Chars),
    /// An integer.
    Int(i64),
    /// A string, by its content.
    Text(Chars),
    /// A mark, by its byte.
    Mark(u8),
}
