// What a shelf and a sink tell, and what their calls do to it.
ghost use Rattle.std.specs.Prelude.{◌≡◌, ℕ, ◌≤◌, ◌⊎◌, List, [], ◌∷◌, Option, None, IfSome, OnOk, OnErr, IsErrOf};
ghost use Rattle.std.specs.Io.KnownBytes.{append_known};
ghost use Rattle.qc_io.specs.Device.{Texts, Rose, IsMissing, IsText, IsTooLong, HasAsked, AppendsFront};

use thiserror::Error;

/// Why a text was not fetched.
#[derive(Clone, Copy, Debug, PartialEq, Eq, Error)]
pub enum FetchFault {
    /// The shelf failed, or has no text of that name.
    #[error("Failed")]
    Failed,

    /// The text has more bytes than the caller takes.
    #[error("TooLong")]
    TooLong,

    /// Memory was wanting.
    #[error("Memory")]
    Memory,
}

/// A sink did not take the whole piece.
#[derive(Clone, Copy, Debug, PartialEq, Eq, Error)]
#[error("Failed")]
pub struct Failed;

/// A place of named texts, as a file system.
pub trait Shelf {
    /// The text of each name, where the shelf tells them.
    ghost texts: { Self → Option Texts };

    /// How often the shelf failed. The count stays at its last value, 2^64 - 1.
    ghost faults: { Self → ℕ };

    /// The names that it was asked for so far, in order, where the shelf tells them.
    ghost asked: { Self → Option (List (List ℕ)) };

    /// Empties `into`, and puts the whole text of `name` there, if it has at most `most` bytes.
    /// The limit is itself at most 2^32.
    ///
    /// The texts stay as they are, and so does whether they are told (`same`). The name follows those that were asked
    /// for before, where the shelf still tells them (`asks`).
    ///
    /// # Errors
    ///
    /// `Failed` where the count of faults rose (`Rose`), or where no text has that name (`IsMissing`).
    /// `TooLong` where the text is longer than `most` (`IsTooLong`); `into` then holds `most + 1` bytes.
    /// `Memory` where memory is wanting. After `Failed` and `Memory`, `into` may hold anything.
    fn fetch(&mut self, name: &str, most: u64, into: &mut Vec<u8>) -> Result<(), FetchFault>
        requires { most ≤ 4294967296 }
        ensures ok { OnOk result (IsText (texts self.old) name.now most into.new.items) }
        ensures too_long { IsErrOf result FetchFault.TooLong
            → IsTooLong (texts self.old) name.now most into.new.items }
        ensures failed { IsErrOf result FetchFault.Failed
            → Rose (faults self.old) (faults self.new) ⊎ IsMissing (texts self.old) name.now }
        ensures count { faults self.old ≤ faults self.new }
        ensures asks { HasAsked (asked self.old) (asked self.new) (name.now ∷ []) }
        ensures same { texts self.new ≡ texts self.old };
}

/// A place that bytes are written to, as a stream.
pub trait Sink {
    /// The bytes written so far, where the sink tells them.
    ghost written: { Self → Option (List ℕ) };

    /// How often the sink failed. The count stays at its last value, 2^64 - 1.
    ghost faults: { Self → ℕ };

    /// Writes the whole piece after what was written. Whether the bytes are told stays as it is.
    ///
    /// # Errors
    ///
    /// `Failed` where the count of faults rose (`Rose`). Some front of the piece was written
    /// then, maybe none of it (`AppendsFront`).
    fn put(&mut self, piece: &[u8]) -> Result<(), Failed>
        ensures ok { OnOk result (written self.new ≡ append_known (written self.old) piece.now) }
        ensures err { OnErr result (AppendsFront (written self.old) (written self.new) piece.now) }
        ensures failed { OnErr result (Rose (faults self.old) (faults self.new)) }
        ensures count { faults self.old ≤ faults self.new };
}
