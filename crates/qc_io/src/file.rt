// The files of the system as a shelf, which tells no texts.
ghost use Rattle.std.specs.Prelude.{◌≡◌, ◌+◌, ◌≤◌, [], length, None, IfSome, OnOk, IsErrOf};

use crate::{FetchFault, Shelf};
use std::fs;
use std::io::Read;
use std::rt::Files;

/// The files of the system, by their paths. It tells no texts and not what it was asked for, and counts a fault at
/// each `Failed`, that of a missing file too. A file that gives no byte has ended.
#[derive(Drop)]
pub struct FileShelf<'a, R: Files> {
    files: &'a R,
    faults: u64,
}

impl<'a, R: Files> FileShelf<'a, R> {
    /// The files that `files` opens, with no fault so far.
    pub fn new(files: &'a R) -> FileShelf<'a, R> {
        FileShelf { files, faults: 0 }
    }
}

impl<R: Files> Shelf for FileShelf<'_, R> {
    ghost texts = { λ _. None };

    ghost faults = { λ shelf. shelf.faults };

    ghost asked = { λ _. None };

    fn fetch(&mut self, name: &str, most: u64, into: &mut Vec<u8>) -> Result<(), FetchFault> {
        into.clear();
        let answer = read_named(self.files, name, most, into);
        if let Err(FetchFault::Failed) = answer {
            self.faults = self.faults.saturating_add(1);
        }
        answer
    }
}

// Reads a file to its end, or to one byte more than the limit.
fn read_named<R: Files>(
    files: &R,
    name: &str,
    most: u64,
    into: &mut Vec<u8>,
) -> Result<(), FetchFault>
    requires limit { most ≤ 4294967296 }
    requires empty { into.old.items ≡ [] }
    ensures ok { OnOk result (length into.new.items ≤ most) }
    ensures too_long { IsErrOf result FetchFault.TooLong → length into.new.items ≡ most + 1 }
{
    let mut file = fs::open(files, name).map_err(|_| FetchFault::Failed)?;
    read_up_to(&mut file, most, into)
}

// Reads to the end, or to one byte more than the limit. Each turn takes a byte at least. `whole`
// speaks of a reader that tells what it has left; a file tells nothing.
fn read_up_to<F: Read>(file: &mut F, most: u64, into: &mut Vec<u8>) -> Result<(), FetchFault>
    requires limit { most ≤ 4294967296 }
    requires empty { into.old.items ≡ [] }
    ensures ok { OnOk result (length into.new.items ≤ most) }
    ensures too_long { IsErrOf result FetchFault.TooLong → length into.new.items ≡ most + 1 }
    ensures whole { OnOk result (IfSome (F.remaining file.old) (λ bytes. into.new.items ≡ bytes)) }
{
    let mut chunk = [0u8; 4096];
    let limit = most as usize + 1;
    while into.len() < limit {
        let want = chunk.len().min(limit - into.len());
        let taken = file
            .read(&mut chunk[..want])
            .map_err(|_| FetchFault::Failed)?;
        if taken == 0 {
            return Ok(());
        }
        into.extend_from_slice(&chunk[..taken])
            .map_err(|_| FetchFault::Memory)?;
    }
    Err(FetchFault::TooLong)
}
