// Texts and names between quotes.
ghost use Rattle.std.specs.Prelude.{◌≡◌, ◌≤◌, length, false, IfOk, IfSome};
ghost use Rattle.qc_lex.specs.Pieces as pieces;
ghost use Rattle.qc_lex.specs.inner.Steps.{text_end};

use qc_containers::Memory;
use std::alloc::Global;

/// How many bytes a text goes on behind its opening quote, up to and with its closing one.
pub fn text_end(quote: u8, bytes: &[u8]) -> Option<usize>
    ensures same { result ≡ text_end quote false 0 bytes.now }
    ensures within { IfSome result (λ n. n ≤ length bytes.now) }
{
    let mut closed = false;
    for (at, byte) in bytes.iter().enumerate() {
        if *byte == quote {
            closed = !closed;
        } else if closed {
            return Some(at);
        }
    }
    if closed { Some(bytes.len()) } else { None }
}

/// What stands between the quotes of a piece, with doubled quotes made single.
pub fn content(alloc: Global, piece: &[u8]) -> Result<Vec<u8>, Memory>
    ensures { IfOk result (λ kept. kept.items ≡ pieces.content piece.now) }
{
    match piece.split_first() {
        Some((quote, rest)) => undoubled(alloc, *quote, rest),
        None => Ok(Vec::new(alloc)),
    }
}

/// The bytes with the second quote of each two in place of both, and without a last quote that is alone.
fn undoubled(alloc: Global, quote: u8, bytes: &[u8]) -> Result<Vec<u8>, Memory>
    ensures { IfOk result (λ kept. kept.items ≡ pieces.undoubled quote false bytes.now) }
{
    let mut kept = Vec::new(alloc);
    let mut second = false;
    for byte in bytes {
        if *byte == quote && !second {
            second = true;
        } else {
            kept.push(*byte)?;
            second = false;
        }
    }
    Ok(kept)
}

/// Whether a user may give the name.
pub fn is_user_name(name: &[u8]) -> bool
    ensures { result ≡ pieces.is_user_name name.now }
{
    match name.first() {
        Some(first) => *first != b'$' && name.len() <= 64,
        None => false,
    }
}
