// Why a list of tokens has no tree.
use qc_containers::Memory;
use thiserror::Error;

/// Why a list of tokens has no tree.
#[derive(Clone, Copy, Debug, PartialEq, Eq, Error)]
pub enum SyntaxFault {
    /// The list spells no tree.
    #[error("BadSyntax")]
    BadSyntax {
        /// The place of the fault: the number of the token, or of all tokens where more might have followed.
        at: u32,
    },
    /// Memory was wanting.
    #[error("Memory")]
    Memory,
}

impl From<Memory> for SyntaxFault {
    ghost use Rattle.std.specs.Prelude.{◌≡◌};
    ghost use Rattle.qc_grammar.specs.declared.fault.SyntaxFault.TheVariants as fault;

    ghost from_gives = { λ _ error. error ≡ fault.Memory };

    fn from(_: Memory) -> SyntaxFault {
        SyntaxFault::Memory
    }
}
