// From the bytes of a file to tokens.
ghost use Rattle.std.specs.Prelude.{◌≤◌, length, MatchResult};
ghost use Rattle.qc_source.specs.Queries.{IsTokens, IsScanFault};

use crate::fault::QueryFault;
use qc_lex::{Table, Words, scan};
use std::alloc::Global;

/// The tokens that at most 65,536 bytes are by a source's table (`IsTokens`). A fault comes exactly where they are none
/// or too many: `BadScan` with the first byte at which no blank, comment or token begins; `TooManyTokens` of more than
/// 1,000 tokens. `Memory` says that memory was wanting.
pub fn tokens_of(alloc: Global, table: Table, bytes: &[u8]) -> Result<Words, QueryFault>
    requires { length bytes.now ≤ 65536 }
    ensures { MatchResult result (IsTokens table bytes.now) (IsScanFault table bytes.now) }
{
    Ok(scan(alloc, bytes, table)?)
}
