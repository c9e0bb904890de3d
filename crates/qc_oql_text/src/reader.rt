// Whole scans to trees.
ghost use Rattle.std.specs.Prelude.{◌≡◌, ◌≤◌, length, IfOk};
ghost use Rattle.qc_grammar.specs.Parsing.{Parses};
ghost use Rattle.qc_lex.specs.Words.{lexemes};
ghost use Rattle.qc_oql_tree.specs.Grammar as oql;
ghost use Rattle.qc_oql_tree.specs.Sizes.{query_size};
ghost use Rattle.qc_oql_table.specs.Actions as spec;

use crate::actions::act;
use crate::stack::{take_entries, take_tree};
use qc_containers::Memory;
use qc_grammar::{Event, Stack, SyntaxFault};
use qc_lex::Words;
use qc_oql_table::derivation;
use qc_oql_tree::Query;
use std::alloc::Global;

/// The one query that the whole list of tokens spells (`Parses`), which has at most one node for each token.
/// `BadSyntax` comes exactly where the list spells none, with the place from which on it begins no list that spells a
/// query, or the number of tokens where it begins one. `Err(Memory)` says that memory was wanting.
pub fn parse(alloc: Global, words: &Words) -> Result<Query, SyntaxFault>
    ensures parses { Parses oql.Query (lexemes words.now) result }
    ensures small { IfOk result (λ query. query_size query ≤ length words.now) }
{
    tree(alloc, words)
}

/// The same, without a word on the query's size.
fn tree(alloc: Global, words: &Words) -> Result<Query, SyntaxFault>
    ensures { Parses oql.Query (lexemes words.now) result }
{
    match derivation(alloc, words) {
        Ok(events) => match query(alloc, words, events.as_slice()) {
            Ok(query) => Ok(query),
            Err(Memory) => Err(SyntaxFault::Memory),
        },
        Err(fault) => Err(fault),
    }
}

/// The query that the actions make.
fn query(alloc: Global, words: &Words, events: &[Event]) -> Result<Query, Memory>
    ensures { IfOk result (λ query. query ≡ spec.query_of (lexemes words.now) events.now) }
{
    let mut stack = Stack::new(alloc);
    let mut rest = events;
    while let Some((event, others)) = rest.split_first() {
        act(alloc, words, *event, &mut stack)?;
        rest = others;
    }
    let body = take_tree(&mut stack);
    Ok(Query {
        defines: take_entries(alloc, &mut stack),
        body,
    })
}
