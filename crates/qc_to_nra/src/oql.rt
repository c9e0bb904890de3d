// From queries to the algebra.
ghost use Rattle.std.specs.Prelude.{IsTrue};
ghost use Rattle.qc_oql_nra.specs.HasNames.{are_names};

use crate::oql_queries::query_tree;
use qc_containers::{Memory, Name};
use qc_lang::Pass;
use qc_nra::Nra;
use qc_oql::TypedQuery;
use qc_types::{Schema, Ty};
use std::alloc::Global;

/// The pass from typed queries to the algebra. The environment of the tree is the record of what the query binds, at
/// each place under the names that it binds there. A query with a type has names alone where the tree has names, and no
/// divisor 0, so `Memory` comes only where a growth was refused.
#[derive(Drop)]
pub struct OqlToNra;

impl Pass<TypedQuery, Nra> for OqlToNra {
    ghost use Rattle.std.specs.Prelude.{◌^◌, Some};
    ghost use Rattle.std.proofs.Common.{lit≤};

    ghost most = { 2 ^ 100 };

    ghost grows = { Some 32 };

    #[tactic(auto, using(qc_oql_nra::proofs::OqlAnswered::keeps_in))]
    fn pass(&self, alloc: Global, schema: &Schema, from: TypedQuery) -> Result<Nra, Memory> {
        named(schema.globals().as_slice());
        query_tree(alloc, &from.query)
    }

    ghost growth = { lit≤ tt };
}

// The globals' names are names. It reads them, and answers nothing.
fn named(globals: &[(Name, Ty)])
    ensures { IsTrue (are_names globals.now) }
{
    for pair in globals {
        let _name = pair.0.as_str();
    }
}
