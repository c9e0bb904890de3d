// Whole lists of lexemes to trees.
ghost use Rattle.std.specs.Prelude.{◌≡◌, ◌<◌, ◌^◌, true, map, length, IfOk};
ghost use Rattle.qc_grammar.specs.Parsing.{Parses};
ghost use Rattle.qc_grammar.specs.inner.Certificate.{is_exact, rules};
ghost use Rattle.qc_grammar.specs.inner.Machine as machine;
ghost use Rattle.qc_js_lex.specs.Lexemes.{kind};
ghost use Rattle.qc_js_text.specs.Table.{grammar};
ghost use Rattle.qc_js_text.specs.inner.Actions as spec;
ghost use Rattle.qc_js_text.specs.inner.Actions.{made};
ghost use Rattle.qc_js_text.specs.inner.Notes.{notes};
ghost use Rattle.qc_js_text.specs.inner.Trees.{Reads};

use crate::acting::act;
use crate::stack::{take_statements, take_tree};
use crate::table::{STEPS, TURNS, WIDTH};
use qc_containers::{List, Memory};
use qc_grammar::{Event, Stack, SyntaxFault, Table, read};
use qc_js::Program;
use qc_js_lex::Lexeme;
use std::alloc::Global;

// The table in the code: it has the rules of the grammar, and is exact.
pub(crate) fn table() -> Table<'static>
    ensures same { rules (machine.table result) notes ≡ grammar }
    ensures exact { is_exact (machine.table result) notes ≡ true }
{
    Table {
        steps: STEPS,
        width: WIDTH,
        turns: TURNS,
    }
}

// The kinds of the lexemes.
fn kinds(alloc: Global, lexemes: &[Lexeme]) -> Result<List<u32>, Memory>
    ensures { IfOk result (λ kinds. kinds ≡ map kind lexemes.now) }
{
    let mut kinds = List::new(alloc);
    for lexeme in lexemes {
        kinds.add(lexeme.kind())?;
    }
    Ok(kinds)
}

// The actions that make the one program whose lexemes these are.
fn derivation(alloc: Global, lexemes: &[Lexeme]) -> Result<List<Event>, SyntaxFault>
    requires { length lexemes.now < 2 ^ 32 }
    ensures { Parses Reads lexemes.now (made lexemes.now result) }
{
    match kinds(alloc, lexemes) {
        Ok(kinds) => read(alloc, table(), kinds.as_slice()),
        Err(Memory) => Err(SyntaxFault::Memory),
    }
}

/// The one program whose lexemes these are, and which has no bare constant. `BadSyntax` comes exactly where there is
/// none.
pub(crate) fn parse(alloc: Global, lexemes: &[Lexeme]) -> Result<Program, SyntaxFault>
    requires { length lexemes.now < 2 ^ 32 }
    ensures { Parses Reads lexemes.now result }
{
    match derivation(alloc, lexemes) {
        Ok(events) => match program(alloc, lexemes, events.as_slice()) {
            Ok(program) => Ok(program),
            Err(Memory) => Err(SyntaxFault::Memory),
        },
        Err(fault) => Err(fault),
    }
}

// The program that the actions make.
fn program(alloc: Global, lexemes: &[Lexeme], events: &[Event]) -> Result<Program, Memory>
    ensures { IfOk result (λ program. program ≡ spec.program_of lexemes.now events.now) }
{
    let mut stack = Stack::new(alloc);
    let mut rest = events;
    while let Some((event, others)) = rest.split_first() {
        act(alloc, lexemes, *event, &mut stack)?;
        rest = others;
    }
    let result = take_tree(&mut stack);
    Ok(Program {
        body: take_statements(alloc, &mut stack),
        result,
    })
}
