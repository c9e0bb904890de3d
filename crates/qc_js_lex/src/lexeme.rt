// Tokens as the grammar reads them.
ghost use Rattle.std.specs.Prelude.{◌≡◌};
ghost use Rattle.qc_js_lex.specs.Lexemes as spec;

use qc_containers::Chars;
use qc_rt::Rt;

/// A token as the grammar reads it.
#[derive(Drop)]
pub enum Lexeme {
    /// The word of a variable, by its number.
    Var(u128),
    /// The word of a function of the runtime.
    Function(Rt),
    /// An integer.
    Int(i64),
    /// A string, by its content.
    Text(Chars),
    /// Another word or a mark, by its place among them.
    Fixed(u8),
}

impl Lexeme {
    /// The number of its kind.
    pub fn kind(&self) -> u32
        ensures { result ≡ spec.kind self.now }
    {
        match self {
            Lexeme::Var(_) => 0,
            Lexeme::Function(_) => 1,
            Lexeme::Int(_) => 2,
            Lexeme::Text(_) => 3,
            Lexeme::Fixed(n) => u32::from(*n) + 4,
        }
    }
}
