// What the words of a call ask for.
ghost use Rattle.std.specs.Prelude.{◌≡◌, map};
ghost use Rattle.std.specs.Option.{option_copied, option_map};
ghost use Rattle.std.specs.Rc.{rc_str_bytes};
ghost use Rattle.std.specs.Str.{bytes_eq};
ghost use Rattle.qcert.specs.Jobs.{action_of, are_options, is_among, is_new, job_of, job_on, job_seen, source_of};
ghost use Rattle.qcert.specs.Jobs.{subject_in, subject_seen, takes, value_at};

use qc_work::Source;
use std::rc::RcStr;

/// The query in the file of this name, and the file of its schema, if one is named.
#[derive(Clone, Copy, Debug)]
pub struct Subject<'a> {
    pub source: Source,
    pub query: &'a str,
    pub schema: Option<&'a str>,
}

/// An action with the files that it needs.
#[derive(Clone, Copy, Debug)]
pub enum Job<'a> {
    /// The query's type is told.
    Check(Subject<'a>),
    /// The query becomes a JavaScript program.
    Compile(Subject<'a>),
    /// The query is answered on the input of a file, if one is named.
    Run(Subject<'a>, Option<&'a str>),
    /// The script of a file is executed on the input of a file, if one is named.
    Exec(&'a str, Option<&'a str>),
}

/// An action.
#[derive(Clone, Copy, Debug)]
pub enum Action {
    Check,
    Compile,
    Run,
    Exec,
}

/// What the words ask for, if they are a job.
pub fn job_of(words: &[RcStr]) -> Option<Job<'_>>
    ensures { option_map job_seen result ≡ job_of (map rc_str_bytes words.now) }
{
    let [_, action, options @ ..] = words else {
        return None;
    };
    let action = action_of(action.as_str())?;
    if takes(action, options) {
        job_on(action, options)
    } else {
        None
    }
}

// The action of a word.
fn action_of(word: &str) -> Option<Action>
    ensures { result ≡ action_of word.now }
{
    match word {
        "check" => Some(Action::Check),
        "compile" => Some(Action::Compile),
        "run" => Some(Action::Run),
        "exec" => Some(Action::Exec),
        _ => None,
    }
}

// Whether the words are options that the action takes.
fn takes(action: Action, words: &[RcStr]) -> bool
    ensures { result ≡ are_options (takes action) (map rc_str_bytes words.now) }
{
    match action {
        Action::Check => are_options(&["--source", "--query", "--schema"], words),
        Action::Compile => are_options(&["--source", "--query", "--schema"], words),
        Action::Run => are_options(&["--source", "--query", "--schema", "--input"], words),
        Action::Exec => are_options(&["--script", "--input"], words),
    }
}

// Whether the words are some of these names, each once and with its value.
fn are_options(names: &[&str], words: &[RcStr]) -> bool
    ensures { result ≡ are_options (map (λ name. name.now) names.now) (map rc_str_bytes words.now) }
{
    match words {
        [] => true,
        [key, _, rest @ ..] => is_new(key.as_str(), names, rest) && are_options(names, rest),
        _ => false,
    }
}

// Whether the word is one of the names, and no name of the words that follow.
fn is_new(key: &str, names: &[&str], words: &[RcStr]) -> bool
    ensures { result ≡ is_new key.now (map (λ name. name.now) names.now) (map rc_str_bytes words.now) }
{
    is_among(key, names) && value_at(key, words).is_none()
}

// Whether the word is one of the names.
fn is_among(word: &str, names: &[&str]) -> bool
    ensures { result ≡ is_among word.now (map (λ name. name.now) names.now) }
{
    for name in names {
        if word == *name {
            return true;
        }
    }
    false
}

// What stands behind the name, in words that are names with their values.
fn value_at<'a>(name: &str, words: &'a [RcStr]) -> Option<&'a str>
    ensures { option_copied result ≡ value_at name.now (map rc_str_bytes words.now) }
{
    match words {
        [key, value, rest @ ..] => {
            if key.as_str() == name {
                Some(value.as_str())
            } else {
                value_at(name, rest)
            }
        }
        _ => None,
    }
}

// The job of an action with its options, where those that are needed are among them.
fn job_on(action: Action, words: &[RcStr]) -> Option<Job<'_>>
    ensures { option_map job_seen result ≡ job_on action (map rc_str_bytes words.now) }
{
    let input = value_at("--input", words);
    match action {
        Action::Check => Some(Job::Check(subject_in(words)?)),
        Action::Compile => Some(Job::Compile(subject_in(words)?)),
        Action::Run => Some(Job::Run(subject_in(words)?, input)),
        Action::Exec => Some(Job::Exec(value_at("--script", words)?, input)),
    }
}

// The query that the options name.
fn subject_in(words: &[RcStr]) -> Option<Subject<'_>>
    ensures { option_map subject_seen result ≡ subject_in (map rc_str_bytes words.now) }
{
    let source = source_of(value_at("--source", words)?)?;
    let query = value_at("--query", words)?;
    let schema = value_at("--schema", words);
    Some(Subject {
        source,
        query,
        schema,
    })
}

// The source of a word.
fn source_of(word: &str) -> Option<Source>
    ensures { result ≡ source_of word.now }
{
    match word {
        "oql" => Some(Source::Oql),
        _ => None,
    }
}
