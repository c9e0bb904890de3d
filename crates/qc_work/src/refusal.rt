// Why a call is refused, and its exit status.
use qc_containers::Memory;
use qc_js_text::JsFault;
use qc_schema::{InputFault, SchemaFault};
use qc_source::QueryFault;

/// A file of a job.
#[derive(Clone, Copy, Debug, PartialEq, Eq)]
pub enum File {
    Schema,
    Query,
    Input,
    Script,
}

/// Why a call is refused.
#[derive(Clone, Copy, Debug, PartialEq, Eq)]
pub enum Refusal {
    /// The words are no job.
    Usage,
    /// The file could not be read.
    ReadFault(File),
    /// The file has more bytes than are taken.
    TooLong(File),
    /// The file has no schema.
    BadSchema,
    /// At this byte of the file no blank, comment or token begins.
    BadScan(File, u32),
    /// The query has too many tokens.
    TooManyTokens,
    /// From this token on the tokens begin no query.
    BadSyntax(u32),
    /// The query has no type, which shows first at this token.
    BadType(u32),
    /// The file has no input: no world of the schema, or for a script no JSON.
    BadInput,
    /// The script is no program.
    BadJs,
    /// The query or the script leaves 64 bits on the input.
    Range,
    /// A value of the script is of another kind than its use wants.
    Stuck,
    /// The output took only a front of the text.
    WriteFault,
    /// Memory was wanting.
    Memory,
}

impl From<Memory> for Refusal {
    ghost use Rattle.std.specs.Prelude.{◌≡◌};
    ghost use Rattle.qc_work.specs.declared.refusal.Refusal.TheVariants as refusal;

    ghost from_gives = { λ _ made. made ≡ refusal.Memory };

    fn from(_: Memory) -> Refusal {
        Refusal::Memory
    }
}

impl From<SchemaFault> for Refusal {
    ghost use Rattle.std.specs.Prelude.{◌≡◌};
    ghost use Rattle.qc_work.specs.Causes.{of_schema};

    ghost from_gives = { λ fault made. made ≡ of_schema fault };

    fn from(fault: SchemaFault) -> Refusal {
        match fault {
            SchemaFault::BadSchema => Refusal::BadSchema,
            SchemaFault::Memory => Refusal::Memory,
        }
    }
}

impl From<QueryFault> for Refusal {
    ghost use Rattle.std.specs.Prelude.{◌≡◌};
    ghost use Rattle.qc_work.specs.Causes.{of_query};

    ghost from_gives = { λ fault made. made ≡ of_query fault };

    fn from(fault: QueryFault) -> Refusal {
        match fault {
            QueryFault::BadScan { at } => Refusal::BadScan(File::Query, at),
            QueryFault::TooManyTokens => Refusal::TooManyTokens,
            QueryFault::BadSyntax { at } => Refusal::BadSyntax(at),
            QueryFault::BadType { at } => Refusal::BadType(at),
            QueryFault::Memory => Refusal::Memory,
        }
    }
}

impl From<InputFault> for Refusal {
    ghost use Rattle.std.specs.Prelude.{◌≡◌};
    ghost use Rattle.qc_work.specs.Causes.{of_input};

    ghost from_gives = { λ fault made. made ≡ of_input fault };

    fn from(fault: InputFault) -> Refusal {
        match fault {
            InputFault::BadInput => Refusal::BadInput,
            InputFault::Memory => Refusal::Memory,
        }
    }
}

impl From<JsFault> for Refusal {
    ghost use Rattle.std.specs.Prelude.{◌≡◌};
    ghost use Rattle.qc_work.specs.Causes.{of_script};

    ghost from_gives = { λ fault made. made ≡ of_script fault };

    fn from(fault: JsFault) -> Refusal {
        match fault {
            JsFault::TooLong => Refusal::TooLong(File::Script),
            JsFault::BadScan { at } => Refusal::BadScan(File::Script, at),
            JsFault::BadJs => Refusal::BadJs,
            JsFault::Memory => Refusal::Memory,
        }
    }
}

impl Refusal {
    ghost use Rattle.std.specs.Prelude.{◌≡◌};
    ghost use Rattle.qc_work.specs.Refusals.{status_of};

    /// The exit status.
    pub fn status(self) -> u8
        ensures { result ≡ status_of self }
    {
        match self {
            Refusal::Usage => 2,
            Refusal::ReadFault(_) => 3,
            Refusal::TooLong(_)
            | Refusal::BadSchema
            | Refusal::BadScan(_, _)
            | Refusal::TooManyTokens
            | Refusal::BadSyntax(_)
            | Refusal::BadType(_)
            | Refusal::BadInput
            | Refusal::BadJs => 1,
            Refusal::Range => 6,
            Refusal::Stuck => 7,
            Refusal::WriteFault => 4,
            Refusal::Memory => 5,
        }
    }
}
