// Whether some or each member of a collection meets a condition.
ghost use Rattle.std.specs.Prelude.{◌≡◌, [], ◌∷◌};
ghost use Rattle.qc_data.specs.Outcome.{bits64, Gives};
ghost use Rattle.qc_oql_eval.specs.inner.Scopes.{bindings_of};
ghost use Rattle.qc_oql_tree.specs.FormMeanings as form;
ghost use Rattle.qc_oql_tree.specs.Meaning as meaning;

use crate::expression::truth;
use crate::operands::items_of;
use crate::scope::Scope;
use qc_containers::Chars;
use qc_data::{Datum, Halt};
use qc_oql_tree::{Oql, Quantifier};
use qc_types::World;
use std::alloc::Global;

// Whether some member of a value, or each, meets a condition.
#[cycle(eval)]
pub(crate) fn tested(
    alloc: Global,
    world: &World,
    scope: &Scope,
    test: &Oql,
    quantifier: Quantifier,
    name: &Chars,
    source: &Datum,
) -> Result<Datum, Halt>
    ensures { Gives
        (form.tested quantifier name.now (meaning.oql bits64 world.now test.now) (bindings_of scope.now) source.now)
        result }
{
    let items = items_of(source)?;
    let answer = decided(
        alloc,
        world,
        scope,
        test,
        quantifier,
        name,
        items.as_slice(),
    )?;
    Ok(Datum::Bool(answer))
}

// Whether some member, or each, meets the condition, which is evaluated on every one.
#[cycle(eval)]
#[tactic(auto, using(crate::proofs::Deciding::decided_is))]
fn decided(
    alloc: Global,
    world: &World,
    scope: &Scope,
    test: &Oql,
    quantifier: Quantifier,
    name: &Chars,
    items: &[Datum],
) -> Result<bool, Halt>
    ensures { Gives
        (form.decided quantifier name.now (meaning.oql bits64 world.now test.now) (bindings_of scope.now) items.now)
        result }
{
    let mut answer = starts(quantifier);
    for item in items {
        let holds = member_truth(alloc, world, scope, test, name, item)?;
        answer = joins(quantifier, answer, holds);
    }
    Ok(answer)
}

// The truth value of a condition on a member.
#[cycle(eval)]
pub(crate) fn member_truth(
    alloc: Global,
    world: &World,
    scope: &Scope,
    test: &Oql,
    name: &Chars,
    member: &Datum,
) -> Result<bool, Halt>
    ensures { Gives
        (form.truth (meaning.oql bits64 world.now test.now) ((name.now, member.now) ∷ bindings_of scope.now)) result }
{
    truth(alloc, world, &Scope::Bind(&*name, &*member, &*scope), test)
}

// The answer where there is no member.
#[tactic(auto, unfolding(qc_oql_tree::specs::FormMeanings::decides))]
fn starts(quantifier: Quantifier) -> bool
    ensures { result ≡ form.decides quantifier [] }
{
    match quantifier {
        Quantifier::Exists => false,
        Quantifier::ForAll => true,
    }
}

// The answer with one more member.
#[tactic(auto, unfolding(qc_oql_tree::specs::FormMeanings::decides))]
fn joins(quantifier: Quantifier, answer: bool, holds: bool) -> bool
    ensures { result ≡ form.decides quantifier (answer ∷ holds ∷ []) }
{
    match quantifier {
        Quantifier::Exists => answer || holds,
        Quantifier::ForAll => answer && holds,
    }
}
