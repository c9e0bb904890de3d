// Texts to programs.
ghost use Rattle.std.specs.Prelude.{◌≡◌, ◌≤◌, length, true};
ghost use Rattle.qc_grammar.specs.Parsing.{Spells};
ghost use Rattle.qc_js_lex.specs.Scanned.{IsScan};
ghost use Rattle.qc_js_text.specs.Reading.{Answers, most_bytes, most_open};
ghost use Rattle.qc_js_text.specs.inner.Depths.{is_shallow};
ghost use Rattle.qc_js_text.specs.inner.Trees.{Reads};

use crate::depth::is_shallow;
use crate::fault::JsFault;
use crate::parsing::parse;
use qc_containers::Memory;
use qc_grammar::SyntaxFault;
use qc_js::{Js, Program, held, meets_rules};
use qc_js_lex::{Lexeme, Scan, lexemes_of};
use std::alloc::Global;

/// The most bytes that a text may have.
pub const MOST_BYTES: usize = 16777216;

/// The most brackets that may be open at once.
pub const MOST_OPEN: usize = 2000;

/// The one program that the text spells (`Answers`). `TooLong` comes exactly past 16 MiB; `BadScan` exactly where the
/// text is no tokens, with the first byte at which no blank, comment or token begins; `BadJs` exactly where the tokens
/// spell no program that meets the rules, or over 2,000 brackets are open at once. `Err(Memory)` says that memory was
/// wanting.
pub fn read_js(alloc: Global, bytes: &[u8]) -> Result<Js, JsFault>
    ensures { Answers bytes.now result }
{
    if bytes.len() > MOST_BYTES {
        return Err(JsFault::TooLong);
    }
    short_js(alloc, bytes)
}

// The program of a text that is not too long.
#[tactic(auto, using(crate::proofs::Answered::bad_scan, crate::proofs::Answered::bad_place))]
fn short_js(alloc: Global, bytes: &[u8]) -> Result<Js, JsFault>
    requires short { length bytes.now ≤ most_bytes }
    ensures { Answers bytes.now result }
{
    match lexemes_of(alloc, bytes) {
        Ok(Scan::Lexemes(lexemes)) => program_of(alloc, bytes, lexemes.as_slice()),
        Ok(Scan::BadScan(at)) => Err(JsFault::BadScan { at: at as u32 }),
        Err(Memory) => Err(JsFault::Memory),
    }
}

// The program of the lexemes of a text.
fn program_of(alloc: Global, bytes: &[u8], lexemes: &[Lexeme]) -> Result<Js, JsFault>
    requires short { length bytes.now ≤ most_bytes }
    requires scanned { IsScan bytes.now lexemes.now }
    ensures { Answers bytes.now result }
{
    if !is_shallow(lexemes, MOST_OPEN) {
        return Err(JsFault::BadJs);
    }
    match parse(alloc, lexemes) {
        Ok(program) => checked(alloc, bytes, lexemes, program),
        Err(SyntaxFault::BadSyntax { .. }) => Err(JsFault::BadJs),
        Err(SyntaxFault::Memory) => Err(JsFault::Memory),
    }
}

// The program, if it meets the rules.
fn checked(alloc: Global, bytes: &[u8], lexemes: &[Lexeme], program: Program) -> Result<Js, JsFault>
    requires short { length bytes.now ≤ most_bytes }
    requires scanned { IsScan bytes.now lexemes.now }
    requires shallow { is_shallow most_open lexemes.now ≡ true }
    requires parsed { Spells Reads lexemes.now program }
    ensures { Answers bytes.now result }
{
    held(&program);
    match meets_rules(alloc, &program) {
        Ok(true) => Ok(Js::of(program)),
        Ok(false) => Err(JsFault::BadJs),
        Err(Memory) => Err(JsFault::Memory),
    }
}
