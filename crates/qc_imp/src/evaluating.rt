// What programs return in 64 bits. Statements change the declared variables in place.
ghost use Rattle.std.specs.Prelude.{◌≡◌, [], map};
ghost use Rattle.qc_data.specs.Outcome.{and_then, bits64, Gives};
ghost use Rattle.qc_imp.specs.Meaning as spec;
ghost use Rattle.qc_imp.specs.Meaning.{cell_of, imp, stmt, value_in};
ghost use Rattle.qc_imp.specs.declared.tree.ImpStmt.TheViews.{out-ImpStmt};
ghost use Rattle.qc_imp.specs.inner.Stores.{Leads, store_of};
ghost use Rattle.qc_ops.specs.Operands.{found};

use crate::expressions::{outcome, truth, value_of};
use crate::slots::Slot;
use crate::store::Store;
use crate::tree::{Imp, ImpStmt};
use qc_data::{Datum, Halt, Items, copy};
use qc_trees::items_of;
use qc_types::World;
use std::alloc::Global;

// What a program returns.
pub(crate) fn value_of_program(alloc: Global, t: &Imp, world: &World) -> Result<Datum, Halt>
    ensures { Gives (imp bits64 world.now t.now) result }
{
    returned(alloc, statements_of(&t.body), world, t.result)
}

// The statements of a block.
fn statements_of(body: &ImpStmt) -> &[ImpStmt]
    ensures { result.now ≡ spec.statements (out-ImpStmt body.now) }
{
    match body {
        ImpStmt::Block(statements) => statements.as_slice(),
        _ => &[],
    }
}

// The value of a variable behind statements.
fn returned(alloc: Global, statements: &[ImpStmt], world: &World, x: u128) -> Result<Datum, Halt>
    ensures { Gives
        (and_then (spec.all_of (map (stmt bits64 world.now) statements.now) [])
        (λ st. found (value_in (cell_of x st)))) result }
{
    let mut store = Store::new(alloc);
    all_of(alloc, statements, world, &mut store)?;
    Ok(copy(alloc, value_of(&store, x)?)?)
}

// Runs a statement.
#[cycle(run)]
fn run(alloc: Global, s: &ImpStmt, world: &World, store: &mut Store) -> Result<(), Halt>
    ensures { Leads (stmt bits64 world.now s.now (store_of store.old)) (store_of store.new) result }
{
    match s {
        ImpStmt::Block(statements) => block(alloc, statements.as_slice(), world, store),
        ImpStmt::Var(x) => Ok(store.declare(*x, Slot::Settable(None))?),
        ImpStmt::Val(x, e) => {
            let value = outcome(alloc, e.get(), world, &*store)?;
            Ok(store.declare(*x, Slot::Constant(value))?)
        }
        ImpStmt::Set(x, e) => {
            let value = outcome(alloc, e.get(), world, &*store)?;
            store.set(*x, value)
        }
        ImpStmt::Collect(x, statements) => {
            collect(alloc, *x, statements.as_slice(), world, store)
        }
        ImpStmt::Push(x, e) => {
            let value = outcome(alloc, e.get(), world, &*store)?;
            store.push(*x, value)
        }
        ImpStmt::For(x, e, body) => {
            let value = outcome(alloc, e.get(), world, &*store)?;
            let members = items_of(&value)?;
            for_each(alloc, body.get(), *x, members.as_slice(), world, store)
        }
        ImpStmt::If(e, a, b) => {
            if truth(alloc, e.get(), world, &*store)? {
                scoped(alloc, a.get(), world, store)
            } else {
                scoped(alloc, b.get(), world, store)
            }
        }
    }
}

// Runs statements in order.
#[cycle(run)]
fn all_of(
    alloc: Global,
    statements: &[ImpStmt],
    world: &World,
    store: &mut Store,
) -> Result<(), Halt>
    ensures { Leads (spec.all_of (map (stmt bits64 world.now) statements.now) (store_of store.old))
        (store_of store.new) result }
{
    for statement in statements {
        run(alloc, statement, world, store)?;
    }
    Ok(())
}

// Runs statements whose declarations end with them.
#[cycle(run)]
#[tactic(auto, unfolding(crate::specs::Meaning::scoped))]
fn block(
    alloc: Global,
    statements: &[ImpStmt],
    world: &World,
    store: &mut Store,
) -> Result<(), Halt>
    ensures { Leads (spec.scoped (spec.all_of (map (stmt bits64 world.now) statements.now)) (store_of store.old))
        (store_of store.new) result }
{
    let outer = store.len();
    all_of(alloc, statements, world, store)?;
    store.cut(outer);
    Ok(())
}

// Runs a statement whose declarations end with it.
#[cycle(run)]
#[tactic(auto, unfolding(crate::specs::Meaning::scoped))]
fn scoped(alloc: Global, s: &ImpStmt, world: &World, store: &mut Store) -> Result<(), Halt>
    ensures { Leads (spec.scoped (stmt bits64 world.now s.now) (store_of store.old)) (store_of store.new) result }
{
    let outer = store.len();
    run(alloc, s, world, store)?;
    store.cut(outer);
    Ok(())
}

// Runs a statement with one more variable, which ends with it.
#[cycle(run)]
#[tactic(auto, unfolding(crate::specs::Meaning::with_constant))]
fn with_constant(
    alloc: Global,
    body: &ImpStmt,
    x: u128,
    value: Datum,
    world: &World,
    store: &mut Store,
) -> Result<(), Halt>
    ensures { Leads (spec.with_constant x (stmt bits64 world.now body.now) value (store_of store.old))
        (store_of store.new) result }
{
    let outer = store.len();
    store.declare(x, Slot::Constant(value))?;
    run(alloc, body, world, store)?;
    store.cut(outer);
    Ok(())
}

// Runs a statement for each member in order.
#[cycle(run)]
fn for_each(
    alloc: Global,
    body: &ImpStmt,
    x: u128,
    members: &[Datum],
    world: &World,
    store: &mut Store,
) -> Result<(), Halt>
    ensures { Leads
        (spec.for_each (spec.with_constant x (stmt bits64 world.now body.now)) members.now (store_of store.old))
        (store_of store.new) result }
{
    for member in members {
        let value = copy(alloc, member)?;
        with_constant(alloc, body, x, value, world, store)?;
    }
    Ok(())
}

// Runs a block that pushes to a variable, which stands for what was pushed once it is done.
#[cycle(run)]
#[tactic(auto, unfolding(crate::specs::Meaning::collected))]
fn collect(
    alloc: Global,
    x: u128,
    statements: &[ImpStmt],
    world: &World,
    store: &mut Store,
) -> Result<(), Halt>
    ensures { Leads (spec.collected x (spec.all_of (map (stmt bits64 world.now) statements.now)) (store_of store.old))
        (store_of store.new) result }
{
    store.declare(x, Slot::Collecting(Items::new(alloc)))?;
    block(alloc, statements, world, store)?;
    Ok(store.finish()?)
}
