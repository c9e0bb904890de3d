// How the words of a call end: with a text for the output, or with a refusal.
ghost use Rattle.std.specs.Prelude.{◌≡◌, ◌≤◌, map};
ghost use Rattle.std.specs.Option.{option_copied};
ghost use Rattle.std.specs.Result.{result_map_both};
ghost use Rattle.std.specs.Rc.{rc_str_bytes};
ghost use Rattle.qc_work.specs.Texts.{bytes_of};
ghost use Rattle.qcert.specs.Jobs.{Check, Compile, Run, Exec, job_seen, subject_seen};
ghost use Rattle.qcert.specs.Ran.{IsEnding};
ghost use Rattle.qcert.specs.Fetching.{serve};
ghost use Rattle.qcert.specs.Steps.{visit};
ghost use Rattle.qcert.specs.inner.Promises.{Stage};

use crate::job::{Job, Subject, job_of};
use crate::stages::{checked_in, input_of, script_of, tree_of};
use qc_io::Shelf;
use qc_work::{Refusal, Text, answer_line, program_text, result_line, type_line};
use std::alloc::Global;
use std::rc::RcStr;

/// The text that the words give, or why there is none. No output is touched.
pub fn ending<S: Shelf>(alloc: Global, words: &[RcStr], shelf: &mut S) -> Result<Text, Refusal>
    ensures ending { IsEnding (map rc_str_bytes words.now) (visit S.texts S.faults S.asked shelf.old shelf.new)
        (result_map_both bytes_of (λ r. r) result) }
    ensures same { S.texts shelf.new ≡ S.texts shelf.old }
{
    match job_of(words) {
        Some(job) => serve(alloc, shelf, &job),
        None => Err(Refusal::Usage),
    }
}

// The text that a job gives.
fn serve<S: Shelf>(alloc: Global, shelf: &mut S, job: &Job<'_>) -> Result<Text, Refusal>
    ensures ended { Stage (serve (job_seen job.now)) (visit S.texts S.faults S.asked shelf.old shelf.new)
        (result_map_both bytes_of (λ r. r) result) }
    ensures same { S.texts shelf.new ≡ S.texts shelf.old }
{
    match job {
        Job::Check(subject) => check(alloc, shelf, subject),
        Job::Compile(subject) => compile(alloc, shelf, subject),
        Job::Run(subject, input) => run_query(alloc, shelf, subject, *input),
        Job::Exec(script, input) => execute(alloc, shelf, script, *input),
    }
}

fn check<S: Shelf>(alloc: Global, shelf: &mut S, subject: &Subject<'_>) -> Result<Text, Refusal>
    ensures ended { Stage (serve (Check (subject_seen subject.now)))
        (visit S.texts S.faults S.asked shelf.old shelf.new) (result_map_both bytes_of (λ r. r) result) }
    ensures same { S.texts shelf.new ≡ S.texts shelf.old }
{
    let checked = checked_in(alloc, shelf, subject)?;
    type_line(alloc, &checked)
}

fn compile<S: Shelf>(alloc: Global, shelf: &mut S, subject: &Subject<'_>) -> Result<Text, Refusal>
    ensures ended { Stage (serve (Compile (subject_seen subject.now)))
        (visit S.texts S.faults S.asked shelf.old shelf.new) (result_map_both bytes_of (λ r. r) result) }
    ensures same { S.texts shelf.new ≡ S.texts shelf.old }
{
    let checked = checked_in(alloc, shelf, subject)?;
    program_text(alloc, checked)
}

fn run_query<S: Shelf>(
    alloc: Global,
    shelf: &mut S,
    subject: &Subject<'_>,
    input: Option<&str>,
) -> Result<Text, Refusal>
    ensures ended { Stage (serve (Run (subject_seen subject.now) (option_copied input.entry)))
        (visit S.texts S.faults S.asked shelf.old shelf.new) (result_map_both bytes_of (λ r. r) result) }
    ensures same { S.texts shelf.new ≡ S.texts shelf.old }
{
    let checked = checked_in(alloc, shelf, subject)?;
    let world = input_of(alloc, shelf, &checked.schema, input)?;
    answer_line(alloc, &checked, &world)
}

fn execute<S: Shelf>(
    alloc: Global,
    shelf: &mut S,
    script: &str,
    input: Option<&str>,
) -> Result<Text, Refusal>
    ensures ended { Stage (serve (Exec script.now (option_copied input.entry)))
        (visit S.texts S.faults S.asked shelf.old shelf.new) (result_map_both bytes_of (λ r. r) result) }
    ensures same { S.texts shelf.new ≡ S.texts shelf.old }
{
    let js = script_of(alloc, shelf, script)?;
    let tree = tree_of(alloc, shelf, input)?;
    result_line(alloc, &js, &tree)
}
