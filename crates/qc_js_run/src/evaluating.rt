// What programs return in 64 bits. Statements change the declared variables in place.
ghost use Rattle.std.specs.Prelude.{◌≡◌, [], map};
ghost use Rattle.qc_data.specs.Outcome.{and_then, bits64, Gives};
ghost use Rattle.qc_js.specs.Meaning as spec;
ghost use Rattle.qc_js.specs.Meaning.{expr, stmt};
ghost use Rattle.qc_js_run.specs.inner.Stores.{Leads, store_of};

use crate::expressions::{condition, items_of, outcome};
use crate::slots::Slot;
use crate::store::Store;
use qc_data::{Halt, Json, Jsons, copy_json};
use qc_js::{Expr, Js, Stmt};
use std::alloc::Global;

/// What the program answers on the JSON of the world in 64 bits. `Range`: an integer that a function makes has more;
/// `Stuck`: a value is of another kind than its use wants; `Memory`: memory was wanting.
pub fn exec(alloc: Global, js: &Js, world: &Json) -> Result<Json, Halt>
    ensures { Gives (spec.js bits64 js.now world.now) result }
{
    let program = js.program();
    returned(alloc, program.body.as_slice(), &program.result, world)
}

// The outcome of an expression behind statements.
fn returned(alloc: Global, statements: &[Stmt], e: &Expr, world: &Json) -> Result<Json, Halt>
    ensures { Gives
        (and_then (spec.all_of (map (stmt bits64 world.now) statements.now) []) (expr bits64 world.now e.now)) result }
{
    let mut store = Store::new(alloc);
    all_of(alloc, statements, world, &mut store)?;
    outcome(alloc, e, world, &store)
}

// Runs a statement.
#[cycle(run)]
fn run(alloc: Global, s: &Stmt, world: &Json, store: &mut Store) -> Result<(), Halt>
    ensures { Leads (stmt bits64 world.now s.now (store_of store.old)) (store_of store.new) result }
{
    match s {
        Stmt::Let(x) => Ok(store.declare(*x, Slot::Settable(None))?),
        Stmt::Set(x, e) => {
            let value = outcome(alloc, e, world, &*store)?;
            store.set(*x, value)
        }
        Stmt::Const(x, e) => {
            let value = outcome(alloc, e, world, &*store)?;
            Ok(store.declare(*x, Slot::Constant(value))?)
        }
        Stmt::Collect(x, statements) => collect(alloc, statements.as_slice(), *x, world, store),
        Stmt::Push(x, e) => {
            let value = outcome(alloc, e, world, &*store)?;
            store.push(*x, value)
        }
        Stmt::For(x, e, statements) => {
            let value = outcome(alloc, e, world, &*store)?;
            let members = items_of(&value)?;
            for_each(
                alloc,
                statements.as_slice(),
                *x,
                members.as_slice(),
                world,
                store,
            )
        }
        Stmt::If(e, statements, others) => {
            if condition(alloc, e, world, &*store)? {
                block(alloc, statements.as_slice(), world, store)
            } else {
                block(alloc, others.as_slice(), world, store)
            }
        }
        Stmt::Block(statements) => block(alloc, statements.as_slice(), world, store),
    }
}

// Runs statements in order.
#[cycle(run)]
fn all_of(alloc: Global, statements: &[Stmt], world: &Json, store: &mut Store) -> Result<(), Halt>
    ensures { Leads (spec.all_of (map (stmt bits64 world.now) statements.now) (store_of store.old))
        (store_of store.new) result }
{
    for statement in statements {
        run(alloc, statement, world, store)?;
    }
    Ok(())
}

// Runs statements whose declarations end with them.
#[cycle(run)]
#[tactic(auto, unfolding(qc_js::specs::Meaning::scoped))]
fn block(alloc: Global, statements: &[Stmt], world: &Json, store: &mut Store) -> Result<(), Halt>
    ensures { Leads (spec.scoped (map (stmt bits64 world.now) statements.now) (store_of store.old))
        (store_of store.new) result }
{
    let outer = store.len();
    all_of(alloc, statements, world, store)?;
    store.cut(outer);
    Ok(())
}

// Runs statements with one more variable, which ends with them.
#[cycle(run)]
#[tactic(auto, unfolding(qc_js::specs::Meaning::with_constant))]
fn with_constant(
    alloc: Global,
    statements: &[Stmt],
    x: u128,
    value: Json,
    world: &Json,
    store: &mut Store,
) -> Result<(), Halt>
    ensures { Leads (spec.with_constant x (map (stmt bits64 world.now) statements.now) value (store_of store.old))
        (store_of store.new) result }
{
    let outer = store.len();
    store.declare(x, Slot::Constant(value))?;
    all_of(alloc, statements, world, store)?;
    store.cut(outer);
    Ok(())
}

// Runs statements for each member in order.
#[cycle(run)]
fn for_each(
    alloc: Global,
    statements: &[Stmt],
    x: u128,
    members: &[Json],
    world: &Json,
    store: &mut Store,
) -> Result<(), Halt>
    ensures { Leads
        (spec.for_each (spec.with_constant x (map (stmt bits64 world.now) statements.now)) members.now
        (store_of store.old)) (store_of store.new) result }
{
    for member in members {
        let value = copy_json(alloc, member)?;
        with_constant(alloc, statements, x, value, world, store)?;
    }
    Ok(())
}

// Runs a block that pushes to a variable, which stands for what was pushed once it is done.
#[cycle(run)]
#[tactic(auto, unfolding(qc_js::specs::Meaning::collected))]
fn collect(
    alloc: Global,
    statements: &[Stmt],
    x: u128,
    world: &Json,
    store: &mut Store,
) -> Result<(), Halt>
    ensures { Leads (spec.collected x (map (stmt bits64 world.now) statements.now) (store_of store.old))
        (store_of store.new) result }
{
    store.declare(x, Slot::Collecting(Jsons::new(alloc)))?;
    block(alloc, statements, world, store)?;
    Ok(store.finish()?)
}
