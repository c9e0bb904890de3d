// Why a text is no program.
use thiserror::Error;

/// Why a text was not read.
#[derive(Clone, Copy, Debug, PartialEq, Eq, Error)]
pub enum JsFault {
    /// The text has over 16 MiB.
    #[error("TooLong")]
    TooLong,
    /// No blank, comment or token begins at this place, which is the first one.
    #[error("BadScan")]
    BadScan {
        /// The place.
        at: u32,
    },
    /// The tokens spell no program, or brackets are open too deep.
    #[error("BadJs")]
    BadJs,
    /// Memory was wanting.
    #[error("Memory")]
    Memory,
}
