// Bytes to the tokens that they are.
ghost use Rattle.std.specs.Prelude.{◌≡◌, ◌≤◌, ◌+◌, length};
ghost use Rattle.qc_lex.specs.Scanned.{Answers};
ghost use Rattle.qc_lex.specs.Tokens.{placed};

use crate::fault::ScanFault;
use crate::front::{Next, begins};
use crate::token::{Lexeme, Placed, Table};
use crate::words::Words;
use qc_containers::List;
use std::alloc::Global;

/// The most tokens of a source.
const MOST_TOKENS: usize = 1000;

/// Scans a source of at most 65,536 bytes: the one list of tokens that the bytes are (`IsScan`). `BadScan` comes
/// exactly where they are none, with the first byte at which no blank, comment or token begins (`IsBad`), and
/// `TooManyTokens` exactly where they are more than 1,000 tokens. `Memory` says that memory was wanting.
pub fn scan(alloc: Global, bytes: &[u8], table: Table) -> Result<Words, ScanFault>
    requires { length bytes.now ≤ 65536 }
    ensures { Answers table bytes.now result }
{
    let mut words = List::new(alloc);
    let mut at = 0;
    loop {
        match begins(alloc, table, &bytes[at..])? {
            Next::End => break,
            Next::Gap(size) => at += size,
            Next::Token(lexeme) => {
                let word = placed(at, lexeme);
                at += word.lexeme.piece.as_str().len();
                words.add(word)?;
            }
            Next::Bad => return Err(ScanFault::BadScan { at: at as u32 }),
        }
    }
    if words.len() > MOST_TOKENS {
        return Err(ScanFault::TooManyTokens);
    }
    Ok(Words::new(words))
}

/// The lexeme with the place at which it begins.
fn placed(at: usize, lexeme: Lexeme) -> Placed
    requires { at + length lexeme.piece ≤ 65536 }
    ensures { result ≡ placed at lexeme }
{
    let end = at + lexeme.piece.as_str().len();
    Placed {
        start: at as u32,
        end: end as u32,
        lexeme,
    }
}
