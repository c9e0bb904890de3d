// Words and marks as the grammar reads them.
ghost use Rattle.std.specs.Prelude.{◌≡◌, decimal, if◌then◌else◌, Some, None};
ghost use Rattle.std.specs.Str.{bytes_eq};
ghost use Rattle.qc_js_lex.specs.Lexemes as spec;

use crate::lexeme::Lexeme;
use itoa::Buffer;
use qc_rt::Rt;

/// The lexeme of a word.
#[tactic(auto, unfolding(crate::specs::Lexemes::word_lexeme))]
pub(crate) fn word_lexeme(word: &str) -> Lexeme
    ensures { result ≡ spec.word_lexeme word.now }
{
    match fixed_word(word) {
        Some(n) => Lexeme::Fixed(n),
        None => free_word(word),
    }
}

// The lexeme of a word that the grammar does not name.
#[tactic(auto, unfolding(crate::specs::Lexemes::free_word))]
fn free_word(word: &str) -> Lexeme
    ensures { result ≡ spec.free_word word.now }
{
    match Rt::of_word(word) {
        Some(function) => Lexeme::Function(function),
        None => match variable_in(word) {
            Some(x) => Lexeme::Var(x),
            None => Lexeme::Fixed(25),
        },
    }
}

// The place of a word that the grammar names.
fn fixed_word(word: &str) -> Option<u8>
    ensures { result ≡ spec.fixed_word word.now }
{
    if word == "function" {
        Some(0)
    } else if word == "query" {
        Some(1)
    } else if word == "w" {
        Some(2)
    } else if word == "rt" {
        Some(3)
    } else if word == "return" {
        Some(4)
    } else if word == "let" {
        Some(5)
    } else if word == "const" {
        Some(6)
    } else {
        later_word(word)
    }
}

// The same of the others.
fn later_word(word: &str) -> Option<u8>
    ensures { result ≡ spec.later_word word.now }
{
    if word == "push" {
        Some(7)
    } else if word == "for" {
        Some(8)
    } else if word == "of" {
        Some(9)
    } else if word == "if" {
        Some(10)
    } else if word == "else" {
        Some(11)
    } else if word == "true" {
        Some(12)
    } else if word == "false" {
        Some(13)
    } else if word == "null" {
        Some(14)
    } else {
        None
    }
}

// The number of the variable that the word is.
fn variable_in(word: &str) -> Option<u128>
    ensures { result ≡ spec.variable_in word.now }
{
    match word.strip_prefix("v") {
        Some(digits) => number_in(digits),
        None => None,
    }
}

// The number below 2^128 of which these are the shortest digits.
#[tactic(auto, using(crate::proofs::Variables::unread, crate::proofs::Variables::parsed_in))]
fn number_in(digits: &str) -> Option<u128>
    ensures { result ≡ spec.number_in digits.now }
{
    match digits.parse::<u128>() {
        Ok(x) => if_shortest(x, digits),
        Err(_) => None,
    }
}

// The number, if these are its shortest digits.
fn if_shortest(x: u128, digits: &str) -> Option<u128>
    ensures { result ≡ (if bytes_eq (decimal x) digits.now then Some x else None) }
{
    let mut buffer = Buffer::new();
    if buffer.format(x) == digits {
        Some(x)
    } else {
        None
    }
}

/// The place of a mark.
pub(crate) fn mark_place(b: u8) -> u8
    ensures { result ≡ spec.mark_place b }
{
    match b {
        b'(' => 15,
        b')' => 16,
        b'{' => 17,
        b'}' => 18,
        b'[' => 19,
        b']' => 20,
        b',' => 21,
        b';' => 22,
        b'.' => 23,
        b'=' => 24,
        _ => 25,
    }
}
