// The top call.
ghost use Rattle.std.specs.Prelude.{◌≡◌, ◌≤◌, ◌⊎◌, Ok, OnErr, OnOk, Some, map};
ghost use Rattle.std.specs.Io.KnownBytes.{append_known};
ghost use Rattle.std.specs.Rc.{rc_str_bytes};
ghost use Rattle.qc_io.specs.Device.{AppendsFront, Rose};
ghost use Rattle.qc_work.specs.declared.refusal.Refusal.{Refusal as Refused};
ghost use Rattle.qc_work.specs.Refusals.{status_of};
ghost use Rattle.qc_work.specs.Texts.{bytes_of};
ghost use Rattle.qcert.specs.Delivery.{put, Complains, IsDelivered, IsRefusedFor};
ghost use Rattle.qcert.specs.Jobs.{Subject, Compile, job_of};
ghost use Rattle.qcert.specs.Ran.{Ran, HasAskedFor, IsServed, IsCompiled, IsServable, IsDue};
ghost use Rattle.qcert.specs.Steps.{visit};

use crate::serving::ending;
use crate::telling::tell;
use qc_io::{Failed, Shelf, Sink};
use qc_js::emit;
use qc_work::{Refusal, Text};
use std::alloc::Global;
use std::rc::RcStr;

/// Serves the words of a call, of which the first is the program's name, and returns the exit status.
///
/// The words are `qcert ACTION --source oql --query QUERY`, and then maybe `--schema SCHEMA`, and for `run` maybe
/// `--input INPUT`. `check` asks for the type of the query in the file QUERY, in the schema of the file SCHEMA,
/// `compile` for its JavaScript, and `run` for its answer on the input of the file INPUT. It is put into `out` whole
/// and the status is 0, or `err` gets one line that tells the refusal and the status is the refusal's.
pub fn run<S: Shelf, O: Sink, E: Sink>(
    alloc: Global,
    words: &[RcStr],
    shelf: &mut S,
    out: &mut O,
    err: &mut E,
) -> u8
    // What was delivered is an ending that the words may have: a text with its meaning, or a refusal with its cause.
    ensures ran { Ran (map rc_str_bytes words.now) (visit S.texts S.faults S.asked shelf.old shelf.new)
        (put O.written O.faults out.old out.new) (put E.written E.faults err.old err.new) result }

    // At status 0 what was added to the output is what the job's work gives.
    ensures served { result ≡ 0
        → IsServed (map rc_str_bytes words.now) (S.texts shelf.old) (put O.written O.faults out.old out.new) }

    // Where the job is to compile, it is right for the query in every world of the schema.
    ensures compiled { (subject : Subject) → result ≡ 0 → job_of (map rc_str_bytes words.now) ≡ Some (Compile subject)
        → IsCompiled subject (S.texts shelf.old) (put O.written O.faults out.old out.new) }

    // A job whose files are accepted, with no cause to refuse its work, is served, unless a device failed or memory was
    // wanting.
    ensures complete { IsServable (map rc_str_bytes words.now) (S.texts shelf.old)
        → ¬ Rose (S.faults shelf.old) (S.faults shelf.new) → ¬ Rose (O.faults out.old) (O.faults out.new)
        → (result ≡ 0) ⊎ (result ≡ 5) }

    // A refusal that has its cause comes, unless the shelf failed or memory was wanting.
    ensures refused { (due : Refused) → IsDue (map rc_str_bytes words.now) (S.texts shelf.old) due
        → ¬ Rose (S.faults shelf.old) (S.faults shelf.new)
        → IsRefusedFor (put O.written O.faults out.old out.new) (put E.written E.faults err.old err.new) result due }

    // The shelf was asked for the job's files in order, each where the steps before it accepted what they read, until a
    // step was refused, and for nothing else.
    ensures asked { HasAskedFor (map rc_str_bytes words.now) (visit S.texts S.faults S.asked shelf.old shelf.new)
        (put O.written O.faults out.old out.new) (put E.written E.faults err.old err.new) result }

    // The shelf keeps its texts.
    ensures same { S.texts shelf.new ≡ S.texts shelf.old }
{
    deliver_ending(alloc, words, shelf, out, err)
}

fn deliver_ending<S: Shelf, O: Sink, E: Sink>(
    alloc: Global,
    words: &[RcStr],
    shelf: &mut S,
    out: &mut O,
    err: &mut E,
) -> u8
    ensures ran { Ran (map rc_str_bytes words.now) (visit S.texts S.faults S.asked shelf.old shelf.new)
        (put O.written O.faults out.old out.new) (put E.written E.faults err.old err.new) result }
    ensures same { S.texts shelf.new ≡ S.texts shelf.old }
{
    match ending(alloc, words, shelf) {
        Ok(text) => deliver(&text, out, err),
        Err(refusal) => refuse(refusal, err),
    }
}

fn deliver<O: Sink, E: Sink>(text: &Text, out: &mut O, err: &mut E) -> u8
    ensures { IsDelivered (Ok (bytes_of text.now)) (put O.written O.faults out.old out.new)
        (put E.written E.faults err.old err.new) result }
{
    match put_text(text, out) {
        Ok(()) => 0,
        Err(_) => refuse(Refusal::WriteFault, err),
    }
}

// A program is put piece by piece.
fn put_text<O: Sink>(text: &Text, out: &mut O) -> Result<(), Failed>
    ensures ok { OnOk result (O.written out.new ≡ append_known (O.written out.old) (bytes_of text.now)) }
    ensures err { OnErr result (AppendsFront (O.written out.old) (O.written out.new) (bytes_of text.now)) }
    ensures failed { OnErr result (Rose (O.faults out.old) (O.faults out.new)) }
    ensures count { O.faults out.old ≤ O.faults out.new }
{
    match text {
        Text::Line(line) => out.put(line.as_bytes()),
        Text::Program(js) => emit(js, out),
    }
}

// An error output that fails changes no status.
fn refuse<E: Sink>(refusal: Refusal, err: &mut E) -> u8
    ensures status { result ≡ status_of refusal }
    ensures line { Complains (put E.written E.faults err.old err.new) refusal }
{
    tell(refusal, err);
    refusal.status()
}
