// The trees of the algebra for queries.
ghost use Rattle.std.specs.Prelude.{◌≡◌, ◌≤◌, ◌*◌, [], map, IfOk, IsTrue};
ghost use Rattle.qc_data.specs.Facts.{all_true};
ghost use Rattle.qc_data.specs.Outcome.{IsKept, Mode};
ghost use Rattle.qc_data.specs.declared.data.Datum.TheVariants.{Rec, Unit as Nothing};
ghost use Rattle.qc_nra.specs.Meaning.{nra};
ghost use Rattle.qc_nra.specs.Sizes.{size};
ghost use Rattle.qc_oql_tree.specs.Meaning as meaning;
ghost use Rattle.qc_oql_tree.specs.Sizes.{query_size};
ghost use Rattle.qc_types.specs.Schemas.{WorldOf};
ghost use Rattle.qc_oql_nra.specs.HasNames.{has_names, named_has_names, query_has_names};
ghost use Rattle.qc_oql_nra.specs.OqlTrees as trees;
ghost use Rattle.qc_to_nra.specs.inner.Scopes.{names_of};

use crate::oql_expressions::{named_part, tree_of};
use crate::oql_forms::binding;
use crate::scope::Scope;
use qc_containers::{Boxed, Memory};
use qc_nra::Nra;
use qc_oql_tree::{Named, Oql, Query};
use std::alloc::Global;

// The tree for a query, which keeps its value in every mode and world and is at most 32 times as large.
#[tactic(auto, using(qc_oql_nra::proofs::NameForms::by_names))]
pub(crate) fn query_tree(alloc: Global, query: &Query) -> Result<Nra, Memory>
    requires { IsTrue (query_has_names query.now) }
    ensures same { IfOk result (λ made. made ≡ trees.query_tree query.now) }
    ensures keeps { IfOk result
        (λ made. (m : Mode) (w : WorldOf) → IsKept (meaning.query m w query.now) (nra m w made Nothing (Rec []))) }
    ensures size { IfOk result (λ made. size made ≤ 32 * query_size query.now) }
{
    defined(alloc, &Scope::Empty, query.defines.as_slice(), &query.body)
}

// The expression with what is defined, each definition bound for the later ones.
#[tactic(auto, using(qc_oql_nra::proofs::OqlTreeForms::named_name, qc_oql_nra::proofs::NameForms::by_names))]
fn defined(alloc: Global, scope: &Scope, defines: &[Named], body: &Oql) -> Result<Nra, Memory>
    requires defines { IsTrue (all_true (map named_has_names defines.now)) }
    requires body { IsTrue (has_names body.now) }
    ensures { IfOk result (λ made. made
        ≡ trees.defined_tree (map trees.named_tree defines.now) (trees.oql_tree body.now) (names_of scope.now)) }
{
    match defines {
        [] => tree_of(alloc, scope, body),
        [first, rest @ ..] => {
            let value = named_part(alloc, scope, first)?;
            let bound = binding(alloc, &first.name, value)?;
            let inner = Scope::Bind(&first.name, &*scope);
            let rest = defined(alloc, &inner, rest, body)?;
            let rest = Boxed::of(alloc, rest)?;
            Ok(Nra::EnvComp(rest, bound))
        }
    }
}
