// Whole scans to actions.
ghost use Rattle.std.specs.Prelude.{◌≡◌, ◌≤◌, true, map, length, IfOk};
ghost use Rattle.qc_grammar.specs.Parsing.{Parses};
ghost use Rattle.qc_grammar.specs.inner.Certificate.{is_exact, rules};
ghost use Rattle.qc_grammar.specs.inner.Machine as machine;
ghost use Rattle.qc_lex.specs.Words.{lexemes};
ghost use Rattle.qc_oql_tree.specs.Grammar as oql;
ghost use Rattle.qc_oql_tree.specs.Lexemes.{kind};
ghost use Rattle.qc_oql_table.specs.Actions.{made};
ghost use Rattle.qc_oql_table.specs.Table.{grammar};
ghost use Rattle.qc_oql_table.specs.inner.Notes.{notes};

use crate::table::{STEPS, TURNS, WIDTH};
use qc_containers::{List, Memory};
use qc_grammar::{Event, SyntaxFault, Table, read};
use qc_lex::Words;
use qc_oql_tree::Lexeme;
use std::alloc::Global;

/// The table in the code: it has the rules of the grammar, and is exact.
#[tactic(auto, unfolding(crate::specs::Table::grammar, crate::specs::inner::Notes::notes, qc_grammar::specs::inner::Certificate::rules))]
fn table() -> Table<'static>
    ensures same { rules (machine.table result) notes ≡ grammar }
    ensures exact { is_exact (machine.table result) notes ≡ true }
{
    Table {
        steps: STEPS,
        width: WIDTH,
        turns: TURNS,
    }
}

/// The kinds of the tokens.
fn kinds(alloc: Global, words: &Words) -> Result<List<u32>, Memory>
    ensures all { IfOk result (λ kinds. kinds ≡ map kind (lexemes words.now)) }
    ensures few { IfOk result (λ kinds. length kinds ≤ 1000) }
{
    let mut kinds = List::new(alloc);
    for at in 0..words.len() {
        kinds.add(Lexeme { words, at }.kind())?;
    }
    Ok(kinds)
}

/// The actions that make the one query which the whole list of tokens spells (`Parses`, of what is `made` by them).
/// `BadSyntax` comes exactly where the list spells none, with the place from which on it begins no list that spells a
/// query, or the number of tokens where it begins one. `Err(Memory)` says that memory was wanting.
pub fn derivation(alloc: Global, words: &Words) -> Result<List<Event>, SyntaxFault>
    ensures { Parses oql.Query (lexemes words.now) (made (lexemes words.now) result) }
{
    match kinds(alloc, words) {
        Ok(kinds) => read(alloc, table(), kinds.as_slice()),
        Err(Memory) => Err(SyntaxFault::Memory),
    }
}
