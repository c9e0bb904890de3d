// Why bytes are no query of a schema.
ghost use Rattle.std.specs.Prelude.{◌≡◌};
ghost use Rattle.qc_source.specs.Faults.{of_scan, of_syntax, of_type};

use qc_grammar::SyntaxFault;
use qc_lex::ScanFault;
use qc_typing::TypeFault;
use thiserror::Error;

/// Why bytes are no query of a schema.
#[derive(Clone, Copy, Debug, PartialEq, Eq, Error)]
pub enum QueryFault {
    /// At this byte no blank, comment or token begins.
    #[error("BadScan")]
    BadScan { at: u32 },
    /// There are more tokens than a query may have.
    #[error("TooManyTokens")]
    TooManyTokens,
    /// The tokens spell no query, and this is the place of the fault: the number of the token, or of all tokens where
    /// more might have followed.
    #[error("BadSyntax")]
    BadSyntax { at: u32 },
    /// The query has no type in the schema, and this is the place of the first fault: the number of the token.
    #[error("BadType")]
    BadType { at: u32 },
    /// Memory was wanting.
    #[error("Memory")]
    Memory,
}

impl From<ScanFault> for QueryFault {
    ghost use Rattle.std.specs.Prelude.{◌≡◌};
    ghost use Rattle.qc_source.specs.Faults.{of_scan};

    ghost from_gives = { λ fault made. made ≡ of_scan fault };

    fn from(fault: ScanFault) -> QueryFault {
        match fault {
            ScanFault::BadScan { at } => QueryFault::BadScan { at },
            ScanFault::TooManyTokens => QueryFault::TooManyTokens,
            ScanFault::Memory => QueryFault::Memory,
        }
    }
}

impl From<SyntaxFault> for QueryFault {
    ghost use Rattle.std.specs.Prelude.{◌≡◌};
    ghost use Rattle.qc_source.specs.Faults.{of_syntax};

    ghost from_gives = { λ fault made. made ≡ of_syntax fault };

    fn from(fault: SyntaxFault) -> QueryFault {
        match fault {
            SyntaxFault::BadSyntax { at } => QueryFault::BadSyntax { at },
            SyntaxFault::Memory => QueryFault::Memory,
        }
    }
}

impl From<TypeFault> for QueryFault {
    ghost use Rattle.std.specs.Prelude.{◌≡◌};
    ghost use Rattle.qc_source.specs.Faults.{of_type};

    ghost from_gives = { λ fault made. made ≡ of_type fault };

    fn from(fault: TypeFault) -> QueryFault {
        match fault {
            TypeFault::BadType { at } => QueryFault::BadType { at },
            TypeFault::Memory => QueryFault::Memory,
        }
    }
}
