// The writes of statements in 64 bits, which are put behind a log.
ghost use Rattle.std.specs.Prelude.{[], ◌∷◌};
ghost use Rattle.qc_data.specs.Outcome.{bits64, Gives};
ghost use Rattle.qc_nnrs.specs.Meaning.{nnrs, Reads};
ghost use Rattle.qc_nnrs_store.specs.Chains.{frame_of};
ghost use Rattle.qc_nnrs.specs.inner.Logged.{logged, logs_after_push, logs_after_set, logs_for, logs_with};
ghost use Rattle.qc_nnrs_store.specs.Logs.{Leads};

use crate::expressions::{held, truth, value};
use crate::tree::{Nnrs, NnrsStmt};
use qc_data::{Datum, Halt};
use qc_nnrs_store::{Chain, Writes, push_to, set_to, take_all, take_last};
use qc_trees::items_of;
use qc_types::World;
use std::alloc::Global;

// The outcome of a program in a world. `Range`: an integer that it makes has more than 64 bits; `Stuck`: a value is of
// another kind than a form needs, a variable is used otherwise than its class says or has no value, or the world has no
// global of a name; `Memory`: memory was wanting.
pub(crate) fn outcome(alloc: Global, t: &Nnrs, world: &World) -> Result<Datum, Halt>
    ensures { Gives (nnrs bits64 world.now t.now) result }
{
    let all = writes(alloc, &t.body, world, &Chain::Sets(t.result, &Chain::Empty))?;
    let mut others = Writes::new(alloc);
    take_last(all, t.result, &mut others)?.ok_or(Halt::Stuck)
}

// Puts the writes of a statement last.
#[cycle(run)]
fn run(
    alloc: Global,
    s: &NnrsStmt,
    world: &World,
    chain: &Chain,
    log: &mut Writes,
) -> Result<(), Halt>
    ensures { Leads (logged bits64 world.now s.now (frame_of chain.now) log.old) log.new result }
{
    match s {
        NnrsStmt::Seq(a, b) => {
            run(alloc, a.get(), world, chain, log)?;
            run(alloc, b.get(), world, chain, log)
        }
        NnrsStmt::Let(x, e, b) => {
            let v = held(alloc, e.get(), &*world, &*chain)?;
            run_with(alloc, b.get(), world, chain, *x, v.get(), log)
        }
        NnrsStmt::LetMut(x, a, b) => {
            let part = writes(alloc, a.get(), world, &Chain::Sets(*x, &*chain))?;
            run_after_set(alloc, b.get(), world, chain, *x, part, log)
        }
        NnrsStmt::LetColl(x, a, b) => {
            let part = writes(alloc, a.get(), world, &Chain::Pushes(*x, &*chain))?;
            run_after_push(alloc, b.get(), world, chain, *x, part, log)
        }
        NnrsStmt::Set(x, e) => set_to(chain, *x, value(alloc, e.get(), world, chain)?, log),
        NnrsStmt::Push(x, e) => push_to(chain, *x, value(alloc, e.get(), world, chain)?, log),
        NnrsStmt::For(x, e, b) => {
            let v = held(alloc, e.get(), &*world, &*chain)?;
            run_each(alloc, b.get(), world, chain, *x, v.get(), log)
        }
        NnrsStmt::If(e, a, b) => {
            if truth(alloc, e.get(), world, chain)? {
                run(alloc, a.get(), world, chain, log)
            } else {
                run(alloc, b.get(), world, chain, log)
            }
        }
        NnrsStmt::Either(e, x, a, y, b) => {
            let v = held(alloc, e.get(), &*world, &*chain)?;
            match v.get() {
                Datum::Left(inner) => run_with(alloc, a.get(), world, chain, *x, inner.get(), log),
                Datum::Right(inner) => run_with(alloc, b.get(), world, chain, *y, inner.get(), log),
                _ => Err(Halt::Stuck),
            }
        }
    }
}

// Puts the writes of a body with a variable that is read last.
#[cycle(run)]
fn run_with(
    alloc: Global,
    body: &NnrsStmt,
    world: &World,
    chain: &Chain,
    x: u128,
    value: &Datum,
    log: &mut Writes,
) -> Result<(), Halt>
    ensures { Leads (logs_with x (logged bits64 world.now body.now) (frame_of chain.now) log.old value.now) log.new
        result }
{
    run(
        alloc,
        body,
        world,
        &Chain::Reads(x, Some(&*value), &*chain),
        log,
    )
}

// Puts the writes of a body with a variable that is read, and that may have no value, last.
#[cycle(run)]
fn run_after(
    alloc: Global,
    body: &NnrsStmt,
    world: &World,
    chain: &Chain,
    x: u128,
    last: &Option<Datum>,
    log: &mut Writes,
) -> Result<(), Halt>
    ensures { Leads (logged bits64 world.now body.now ((x, Reads last.now) ∷ frame_of chain.now) log.old) log.new
        result }
{
    run(
        alloc,
        body,
        world,
        &Chain::Reads(x, last.as_ref(), &*chain),
        log,
    )
}

// Puts what a body writes for each member of a collection last.
#[cycle(run)]
#[tactic(auto, unfolding(crate::specs::inner::Logged::logs_for))]
fn run_each(
    alloc: Global,
    body: &NnrsStmt,
    world: &World,
    chain: &Chain,
    x: u128,
    source: &Datum,
    log: &mut Writes,
) -> Result<(), Halt>
    ensures { Leads (logs_for x (logged bits64 world.now body.now) (frame_of chain.now) log.old source.now) log.new
        result }
{
    let items = items_of(source)?;
    for item in items.as_slice() {
        run_with(alloc, body, world, chain, x, item, log)?;
    }
    Ok(())
}

// The writes of a statement alone.
#[cycle(run)]
fn writes(alloc: Global, s: &NnrsStmt, world: &World, chain: &Chain) -> Result<Writes, Halt>
    ensures { Gives (logged bits64 world.now s.now (frame_of chain.now) []) result }
{
    let mut log = Writes::new(alloc);
    run(alloc, s, world, chain, &mut log)?;
    Ok(log)
}

// Puts the writes of a first part to others last, and then those of a body that reads the last value that the part set
// the variable to.
#[cycle(run)]
fn run_after_set(
    alloc: Global,
    body: &NnrsStmt,
    world: &World,
    chain: &Chain,
    x: u128,
    part: Writes,
    log: &mut Writes,
) -> Result<(), Halt>
    ensures { Leads (logs_after_set x (logged bits64 world.now body.now) (frame_of chain.now) log.old part) log.new
        result }
{
    let last = take_last(part, x, log)?;
    run_after(alloc, body, world, chain, x, &last, log)
}

// The same, where the body reads the collection of all that the part pushed to the variable.
#[cycle(run)]
fn run_after_push(
    alloc: Global,
    body: &NnrsStmt,
    world: &World,
    chain: &Chain,
    x: u128,
    part: Writes,
    log: &mut Writes,
) -> Result<(), Halt>
    ensures { Leads (logs_after_push x (logged bits64 world.now body.now) (frame_of chain.now) log.old part) log.new
        result }
{
    let all = Datum::Coll(take_all(alloc, part, x, log)?);
    run_with(alloc, body, world, chain, x, &all, log)
}
