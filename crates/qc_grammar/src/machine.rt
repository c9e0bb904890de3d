// Lists of kinds, read by a table.
ghost use Rattle.std.specs.Prelude.{◌≡◌, ◌<◌, ◌≤◌, ◌^◌, ◌+◌, ◌∷◌, length, true, OnOk};
ghost use Rattle.qc_grammar.specs.Parsing.{Parses};
ghost use Rattle.qc_grammar.specs.inner.Certificate.{Notes, is_exact, rules};
ghost use Rattle.qc_grammar.specs.inner.Derivations.{Whole};
ghost use Rattle.qc_grammar.specs.inner.Machine as spec;
ghost use Rattle.qc_grammar.specs.inner.Turns.{Expands};

use crate::fault::SyntaxFault;
use crate::stack::Stack;
use crate::symbol::{Event, Symbol};
use crate::table::Table;
use qc_containers::{List, Memory};
use std::alloc::Global;

/// What comes first of what is left, once its rules and actions are done.
pub(crate) enum Top {
    /// A token of this kind, and this place behind it.
    Wants(u32, usize),
    /// Nothing.
    Ends,
    /// A rule that does not begin with what comes next.
    Fails,
}

/// What comes next.
fn peek(rest: &[u32]) -> u64
    ensures { result ≡ spec.next rest.now }
{
    match rest.split_first() {
        Some((kind, _)) => u64::from(*kind) + 1,
        None => 0,
    }
}

/// Keeps what is left from a place on for later, unless it is nothing.
fn keep(table: Table<'_>, place: usize, stack: &mut Stack<usize>) -> Result<(), Memory>
    ensures same { let t = spec.table table.entry in
        OnOk result (spec.left t stack.new ≡ spec.left t (place ∷ stack.old)) }
    ensures few { OnOk result (length stack.new ≤ length stack.old + 1) }
{
    if table.ends(place) {
        return Ok(());
    }
    stack.push(place)
}

/// Does the rules and the actions from a place on, and behind it from those of the stack on.
fn expand(
    table: Table<'_>,
    next: u64,
    at: u32,
    start: usize,
    stack: &mut Stack<usize>,
    events: &mut List<Event>,
) -> Result<Top, Memory>
    ghost notes: { Notes }
    requires { is_exact (spec.table table) notes ≡ true }
    ensures { let t = spec.table table.entry in
        Expands (rules t notes) t next at (start ∷ stack.old) events.old stack.new events.new result }
{
    let mut place = start;
    'places: loop {
        match table.symbol(place) {
            Some(Symbol::Token(kind)) => return Ok(Top::Wants(kind, place + 2)),
            Some(Symbol::Action(action)) => {
                events.add(Event { action, at })?;
                place += 2;
            }
            Some(Symbol::Rule(rule)) => match table.choose(rule, next) {
                Some(chosen) => {
                    keep(table, place + 2, stack)?;
                    place = chosen;
                }
                None => return Ok(Top::Fails),
            },
            None => match stack.pop() {
                Some(behind) => place = behind,
                None => return Ok(Top::Ends),
            },
        }
    }
}

/// The actions of the one derivation that a list of kinds has by a table, in order, each with the number of tokens
/// before it. `BadSyntax` comes exactly where it has none, with the place from which on it begins no list that has
/// one, or the number of kinds where it begins one. `Err(Memory)` says that memory was wanting.
///
/// The table is exact (`is_exact`), with these notes; that is a check which computes.
pub fn read(alloc: Global, table: Table<'_>, kinds: &[u32]) -> Result<List<Event>, SyntaxFault>
    ghost notes: { Notes }
    requires exact { is_exact (spec.table table) notes ≡ true }
    requires few { length kinds.now < 2 ^ 32 }
    ensures { Parses (Whole (rules (spec.table table.entry) notes)) kinds.now result }
{
    let Some(start) = table.choose(0, peek(kinds)) else {
        return Err(SyntaxFault::BadSyntax { at: 0 });
    };
    let mut stack = Stack::new(alloc);
    let mut events = List::new(alloc);
    let mut rest = kinds;
    let mut at = 0u32;
    let mut place = start;
    'tokens: loop {
        match expand(table, peek(rest), at, place, &mut stack, &mut events)? {
            Top::Wants(kind, behind) => match rest.split_first() {
                Some((first, others)) => {
                    if *first != kind {
                        return Err(SyntaxFault::BadSyntax { at });
                    }
                    rest = others;
                    at += 1;
                    place = behind;
                }
                None => return Err(SyntaxFault::BadSyntax { at }),
            },
            Top::Ends => {
                if rest.len() == 0 {
                    return Ok(events);
                }
                return Err(SyntaxFault::BadSyntax { at });
            }
            Top::Fails => return Err(SyntaxFault::BadSyntax { at }),
        }
    }
}
