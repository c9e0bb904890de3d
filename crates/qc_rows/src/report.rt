// What is told of the rows of a file.
use crate::compared::Compared;
use crate::form::Form;
use crate::odd::Odd;
use qc_data::Json;
use qc_io::Sink;
use std::alloc::Global;

/// The most bytes that are told of what was wanted, and of what came.
const MOST_TOLD: usize = 400;

/// The rows of a file that were tried, and those that held.
#[derive(Drop)]
pub struct Report<'a, O: Sink> {
    out: &'a mut O,
    file: &'a str,
    tried: u64,
    held: u64,
}

impl<'a, O: Sink> Report<'a, O> {
    /// A report of no rows.
    pub fn new(out: &'a mut O, file: &'a str) -> Report<'a, O> {
        Report {
            out,
            file,
            tried: 0,
            held: 0,
        }
    }

    /// Counts a row, and tells of it if it doesn't hold.
    pub fn row(&mut self, row: &Json, tried: Result<Compared, Odd>) -> Result<(), Odd> {
        self.tried = self.tried.saturating_add(1);
        match tried {
            Ok(compared) if compared.holds() => {
                self.held = self.held.saturating_add(1);
                Ok(())
            }
            Ok(compared) => {
                let (wanted, came) = (front(&compared.wanted), front(&compared.came));
                self.tell(&[
                    name_of(row).as_bytes(),
                    b": wanted ",
                    wanted,
                    b" came ",
                    came,
                ])
            }
            Err(Odd::Form) => self.tell(&[name_of(row).as_bytes(), b": is of an unknown form"]),
            Err(Odd::Memory) => self.tell(&[name_of(row).as_bytes(), b": memory was wanting"]),
        }
    }

    /// Tells how many rows hold, and answers whether all do.
    pub fn end(&mut self, alloc: Global) -> Result<bool, Odd> {
        let (tried, held) = (self.tried, self.held);
        let line = if tried == held {
            format!(in alloc; "{held} rows hold")?
        } else {
            format!(in alloc; "{held} of {tried} rows hold")?
        };
        self.tell(&[line.as_bytes()])?;
        Ok(tried == held)
    }

    /// Tells that the file could not be read, so that none of its rows holds.
    pub fn unread(&mut self) -> Result<bool, Odd> {
        self.tell(&[b"is no file of rows"])?;
        Ok(false)
    }

    // A line of the file's name and the pieces.
    fn tell(&mut self, pieces: &[&[u8]]) -> Result<(), Odd> {
        self.put(self.file.as_bytes())?;
        self.put(b": ")?;
        for piece in pieces {
            self.put(piece)?;
        }
        self.put(b"\n")
    }

    fn put(&mut self, piece: &[u8]) -> Result<(), Odd> {
        match self.out.put(piece) {
            Ok(()) => Ok(()),
            Err(_) => Err(Odd::Memory),
        }
    }
}

fn name_of(row: &Json) -> &str {
    match Form::of(row) {
        Ok(mut form) => match form.word("row") {
            Ok(name) => name,
            Err(_) => "a row without a name",
        },
        Err(_) => "a row without a name",
    }
}

// The longest front of the bytes that is told.
fn front(bytes: &[u8]) -> &[u8] {
    match bytes.get(..MOST_TOLD) {
        Some(front) => front,
        None => bytes,
    }
}
