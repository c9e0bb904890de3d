// Bytes to lexemes.

ghost use Rattle.std.specs.Prelude.{◌≡◌, ◌+◌, ◌<◌, ◌≤◌, ◌∷◌, ◌++◌, [], length, drop, Ok, Err, Some, None, true, false};
ghost use Rattle.std.specs.Prelude.{IfOk, MatchBool, MatchResult, is_ok, if◌then◌else◌};
ghost use Rattle.std.specs.Str.{is_utf8};
ghost use Rattle.qc_js_lex.specs.Lexemes.{word_lexeme};
ghost use Rattle.qc_js_lex.specs.Scanned.{Answers};
ghost use Rattle.qc_js_lex.specs.inner.Machine.{scan, scan_on, turn, perform, finish, ended, in_front, Has};
ghost use Rattle.qc_js_lex.specs.declared.step.Act.TheVariants.{EndText};
ghost use Rattle.qc_js_lex.specs.declared.step.Mode.TheVariants.{Between};

use crate::lexeme::Lexeme;
use crate::step::{Act, Mode, ends_word, next, start};
use crate::words::{mark_place, word_lexeme};
use qc_containers::{Chars, Memory};
use std::alloc::Global;

#[derive(Drop)]
struct Scanner {
    alloc: Global,
    lexemes: Vec<Lexeme>,
    text: Vec<u8>,
    mode: Mode,
    from: usize,
}

/// What a scan answers.
#[derive(Drop)]
pub enum Scan {
    /// The lexemes.
    Lexemes(Vec<Lexeme>),
    /// The place of the first byte at which no blank, comment or token begins.
    BadScan(usize),
}

impl Scanner {
    // The text, where it is UTF-8.
    #[tactic(auto, using(crate::proofs::Valid::valid, crate::proofs::Valid::invalid))]
    fn chars(&self) -> Result<Option<Chars>, Memory>
        ensures { IfOk result (λ c. c ≡ (if is_utf8 self.now.text.items then Some self.now.text.items else None)) }
    {
        match str::from_utf8(self.text.as_slice()) {
            Ok(s) => Ok(Some(Chars::of(self.alloc, s)?)),
            Err(_) => Ok(None),
        }
    }

    // The lexeme of the text as a word, where the text is UTF-8.
    #[tactic(auto, using(crate::proofs::Valid::word, crate::proofs::Valid::no_word))]
    fn word(&self) -> Option<Lexeme>
        ensures { result ≡ (if is_utf8 self.now.text.items then Some (word_lexeme self.now.text.items) else None) }
    {
        match str::from_utf8(self.text.as_slice()) {
            Ok(word) => Some(word_lexeme(word)),
            Err(_) => None,
        }
    }

    fn begin(&mut self, mode: Mode, at: usize)
        ensures lexemes { self.new.lexemes ≡ self.old.lexemes }
        ensures text { self.new.text.items ≡ [] }
        ensures mode { self.new.mode ≡ mode }
        ensures from { self.new.from ≡ at }
    {
        self.text.clear();
        self.mode = mode;
        self.from = at;
    }

    // Whether lexemes may go on after the byte `b`; else `from` is the fault.
    fn perform(&mut self, act: Act, at: usize, b: u8) -> Result<bool, Memory>
        ensures { IfOk result (λ more. (k : _)
            → in_front self.old.lexemes.items (perform act self.old.text.items self.old.from at b k)
            ≡ (if more then in_front self.new.lexemes.items (k self.new.mode self.new.text.items self.new.from)
            else Err self.new.from)) }
    {
        match act {
            Act::Stay(mode) => {
                self.mode = mode;
                Ok(true)
            }
            Act::Keep(mode) => {
                self.text.push(b)?;
                self.mode = mode;
                Ok(true)
            }
            Act::Put(c) => {
                let mut buffer = [0; 4];
                let piece = c.encode_utf8(&mut buffer);
                self.text.extend_from_slice(piece.as_bytes())?;
                self.mode = Mode::Text;
                Ok(true)
            }
            Act::Begin(mode) => {
                self.begin(mode, at);
                Ok(true)
            }
            Act::BeginKeep(mode) => {
                self.begin(mode, at);
                self.text.push(b)?;
                Ok(true)
            }
            Act::Number(n) => {
                self.lexemes.push(Lexeme::Int(n))?;
                self.begin(Mode::Between, at);
                Ok(true)
            }
            Act::EndText => self.end_text(at),
            Act::Mark => {
                self.lexemes.push(Lexeme::Fixed(mark_place(b)))?;
                self.begin(Mode::Between, at);
                Ok(true)
            }
            Act::Skip => {
                self.begin(Mode::Between, at);
                Ok(true)
            }
            Act::Bad => Ok(false),
            Act::BadHere => {
                self.from = at;
                Ok(false)
            }
        }
    }

    fn end_text(&mut self, at: usize) -> Result<bool, Memory>
        ensures { IfOk result (λ more. (k : _)
            → in_front self.old.lexemes.items (perform EndText self.old.text.items self.old.from at 34 k)
            ≡ (if more then in_front self.new.lexemes.items (k self.new.mode self.new.text.items self.new.from)
            else Err self.new.from)) }
    {
        match self.chars()? {
            Some(text) => {
                self.lexemes.push(Lexeme::Text(text))?;
                self.begin(Mode::Between, at);
                Ok(true)
            }
            None => Ok(false),
        }
    }
}

impl Scanner {
    fn new(alloc: Global) -> Scanner
        ensures lexemes { result.lexemes.items ≡ [] }
        ensures text { result.text.items ≡ [] }
        ensures mode { result.mode ≡ Between }
        ensures from { result.from ≡ 0 }
    {
        Scanner {
            alloc,
            lexemes: Vec::new(alloc),
            text: Vec::new(alloc),
            mode: Mode::Between,
            from: 0,
        }
    }

    // A word ends before the byte at `at`.
    fn end_word(&mut self, at: usize) -> Result<bool, Memory>
        ensures value { IfOk result (λ more. (k : _)
            → in_front self.old.lexemes.items (ended self.old.text.items self.old.from k)
            ≡ (if more then in_front self.new.lexemes.items k else Err self.new.from)) }
        ensures begun { IfOk result (λ more. more ≡ true → self.new.text.items ≡ []) }
        ensures from { IfOk result (λ more. more ≡ true → self.new.from ≡ at) }
    {
        match self.word() {
            Some(lexeme) => {
                self.lexemes.push(lexeme)?;
                self.begin(Mode::Between, at);
                Ok(true)
            }
            None => Ok(false),
        }
    }

    fn turn(&mut self, at: usize, b: u8) -> Result<bool, Memory>
        ensures { IfOk result (λ more. (k : _)
            → in_front self.old.lexemes.items (turn self.old.mode self.old.text.items self.old.from at b k)
            ≡ (if more then in_front self.new.lexemes.items (k self.new.mode self.new.text.items self.new.from)
            else Err self.new.from)) }
    {
        if ends_word(self.mode, b) {
            if !self.end_word(at)? {
                return Ok(false);
            }
            let more = self.perform(start(b), at, b)?;
            return Ok(more);
        }
        let more = self.perform(next(self.mode, b), at, b)?;
        Ok(more)
    }

    // The end of the text.
    fn finish(mut self) -> Result<Scan, Memory>
        ensures { IfOk result
            (λ r. Has (in_front self.lexemes.items (finish self.mode self.text.items self.from)) r) }
    {
        match self.mode {
            Mode::Between | Mode::Comment | Mode::CommentE2 | Mode::CommentE280 => Ok(Scan::Lexemes(
                self.lexemes,
            )),
            Mode::Word => match self.word() {
                Some(lexeme) => {
                    self.lexemes.push(lexeme)?;
                    Ok(Scan::Lexemes(self.lexemes))
                }
                None => Ok(Scan::BadScan(self.from)),
            },
            _ => Ok(Scan::BadScan(self.from)),
        }
    }
}

/// The lexemes of the bytes, or the first byte at which no blank, comment or token begins.
#[tactic(auto, using(crate::proofs::Answered::answers))]
pub fn lexemes_of(alloc: Global, bytes: &[u8]) -> Result<Scan, Memory>
    ensures { IfOk result (λ r. Answers bytes.now r) }
{
    let scan = scanned(alloc, bytes)?;
    Ok(scan)
}

// What the machine comes to.
fn scanned(alloc: Global, bytes: &[u8]) -> Result<Scan, Memory>
    ensures { IfOk result (λ r. Has (scan bytes.now) r) }
{
    let mut scanner = Scanner::new(alloc);
    for (at, b) in bytes.iter().enumerate() {
        if !scanner.turn(at, *b)? {
            return Ok(Scan::BadScan(scanner.from));
        }
    }
    scanner.finish()
}
