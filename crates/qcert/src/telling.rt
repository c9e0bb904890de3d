// The line that tells of a refusal, put piece by piece.
ghost use Rattle.std.specs.Prelude.{◌≡◌, ◌≤◌, map};
ghost use Rattle.qc_io.specs.Device.{Rose};
ghost use Rattle.qc_work.specs.Refusals.{file_word};
ghost use Rattle.qcert.specs.Delivery.{put, Complains, IsPut};
ghost use Rattle.qcert.specs.inner.Pieces.{all_pieces};

use itoa::Buffer;
use qc_io::{Failed, Sink};
use qc_work::{File, Refusal};

/// Puts the line that tells of the refusal, or a front of it where the sink fails.
pub fn tell<E: Sink>(refusal: Refusal, err: &mut E)
    ensures { Complains (put E.written E.faults err.old err.new) refusal }
{
    let mut buffer = Buffer::new();
    let _ = match refusal {
        Refusal::Usage => put_all(&["qcert: Usage\n"], err),
        Refusal::ReadFault(file) => put_all(&["qcert: ReadFault ", word(file), "\n"], err),
        Refusal::TooLong(file) => put_all(&["qcert: TooLong ", word(file), "\n"], err),
        Refusal::BadSchema => put_all(&["qcert: BadSchema\n"], err),
        Refusal::BadScan(file, at) => {
            let number = buffer.format(at);
            put_all(
                &["qcert: BadScan at byte ", number, " of ", word(file), "\n"],
                err,
            )
        }
        Refusal::TooManyTokens => put_all(&["qcert: TooManyTokens\n"], err),
        Refusal::BadSyntax(at) => {
            put_all(
                &["qcert: BadSyntax at token ", buffer.format(at), "\n"],
                err,
            )
        }
        Refusal::BadType(at) => {
            put_all(&["qcert: BadType at token ", buffer.format(at), "\n"], err)
        }
        Refusal::BadInput => put_all(&["qcert: BadInput\n"], err),
        Refusal::BadJs => put_all(&["qcert: BadJs\n"], err),
        Refusal::Range => put_all(&["qcert: Range\n"], err),
        Refusal::Stuck => put_all(&["qcert: Stuck\n"], err),
        Refusal::WriteFault => put_all(&["qcert: WriteFault\n"], err),
        Refusal::Memory => put_all(&["qcert: Memory\n"], err),
    };
}

// Puts the pieces one after another, or a front of all where the sink fails.
fn put_all<E: Sink>(pieces: &[&str], err: &mut E) -> Result<(), Failed>
    ensures bytes { IsPut (E.written err.old) (E.written err.new) (Rose (E.faults err.old) (E.faults err.new))
        (all_pieces (map (λ piece. piece.now) pieces.now)) }
    ensures count { E.faults err.old ≤ E.faults err.new }
{
    match pieces {
        [] => Ok(()),
        [piece, rest @ ..] => {
            err.put(piece.as_bytes())?;
            put_all(rest, err)
        }
    }
}

// The word of a file.
fn word(file: File) -> &'static str
    ensures { result.now ≡ file_word file }
{
    match file {
        File::Schema => "schema",
        File::Query => "query",
        File::Input => "input",
        File::Script => "script",
    }
}
