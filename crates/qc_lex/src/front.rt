// What bytes begin with.
ghost use Rattle.std.specs.Prelude.{◌≡◌, ◌≤◌, ◌∷◌, length, take, IfOk, IfSome};
ghost use Rattle.qc_lex.specs.inner.Steps as steps;

use crate::digits::number;
use crate::token::{Kind, Lexeme, Table};
use crate::{class, quotes};
use qc_containers::{Chars, Memory};
use std::alloc::Global;

/// What bytes begin with.
#[derive(Drop)]
pub enum Next {
    /// Nothing: they are at their end.
    End,
    /// A blank or a comment of so many bytes.
    Gap(usize),
    /// A token.
    Token(Lexeme),
    /// None of these.
    Bad,
}

/// What the bytes begin with.
pub fn begins(alloc: Global, table: Table, bytes: &[u8]) -> Result<Next, Memory>
    ensures { IfOk result (λ found. found ≡ steps.begins table bytes.now) }
{
    let Some((first, rest)) = bytes.split_first() else {
        return Ok(Next::End);
    };
    if class::is_blank(*first) {
        return Ok(Next::Gap(1));
    }
    if class::opens_comment(table, bytes) {
        return Ok(Next::Gap(1 + class::line_length(rest)));
    }
    token(alloc, table, bytes)
}

/// The token that the bytes begin with, or `Bad`.
fn token(alloc: Global, table: Table, bytes: &[u8]) -> Result<Next, Memory>
    ensures { IfOk result (λ found. found ≡ steps.token_or_bad (steps.front table bytes.now)) }
{
    let Some((first, rest)) = bytes.split_first() else {
        return Ok(Next::Bad);
    };
    let kind = class::kind_of(table, *first);
    let Some(more) = goes_on(table, kind, *first, rest) else {
        return Ok(Next::Bad);
    };
    fitting(alloc, kind, &bytes[..more + 1])
}

/// How many bytes a token of the kind goes on behind its first one, at the longest.
fn goes_on(table: Table, kind: Kind, first: u8, rest: &[u8]) -> Option<usize>
    ensures same { result ≡ steps.goes_on table kind first rest.now }
    ensures within { IfSome result (λ n. n ≤ length rest.now) }
{
    match kind {
        Kind::Word => Some(class::word_length(rest)),
        Kind::Whole => Some(class::digit_count(rest)),
        Kind::Text | Kind::Quoted => quotes::text_end(first, rest),
        Kind::Mark => mark_end(table, first, rest),
    }
}

/// How many bytes a mark goes on behind its first one.
fn mark_end(table: Table, first: u8, rest: &[u8]) -> Option<usize>
    ensures same { result ≡ steps.mark_end table first rest.now }
    ensures within { IfSome result (λ n. n ≤ length rest.now) }
{
    if let Some(second) = rest.first() {
        if class::is_double(table, &[first, *second]) {
            return Some(1);
        }
    }
    if class::is_mark(table, first) {
        return Some(0);
    }
    None
}

/// The token that the piece is, or `Bad`.
#[tactic(auto, using(crate::proofs::Valid::valid, crate::proofs::Valid::invalid))]
fn fitting(alloc: Global, kind: Kind, piece: &[u8]) -> Result<Next, Memory>
    ensures { IfOk result (λ found. found ≡ steps.token_or_bad (steps.fitting kind piece.now)) }
{
    let Ok(text) = str::from_utf8(piece) else {
        return Ok(Next::Bad);
    };
    if !fits(alloc, kind, text)? {
        return Ok(Next::Bad);
    }
    let piece = Chars::of(alloc, text)?;
    Ok(Next::Token(Lexeme { kind, piece }))
}

/// Whether the piece is within the limit of its kind.
fn fits(alloc: Global, kind: Kind, piece: &str) -> Result<bool, Memory>
    ensures { IfOk result (λ fits. fits ≡ steps.fits kind piece.now) }
{
    match kind {
        Kind::Word => Ok(piece.len() <= 64),
        Kind::Whole => Ok(number(piece.as_bytes()).is_some()),
        Kind::Quoted => {
            let name = quotes::content(alloc, piece.as_bytes())?;
            Ok(quotes::is_user_name(name.as_slice()))
        }
        Kind::Text | Kind::Mark => Ok(true),
    }
}
