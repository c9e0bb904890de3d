// Typed queries as a language.

use crate::reading::TypedQuery;
use qc_data::{Datum, Halt};
use qc_lang::Lang;
use qc_oql_eval::eval;
use qc_types::World;
use std::alloc::Global;

impl Lang for TypedQuery {
    ghost use Rattle.std.specs.Prelude.{◌≡◌, Ok};
    ghost use Rattle.qc_oql_tree.specs.Meaning.{query};
    ghost use Rattle.qc_oql_tree.specs.Sizes.{query_size};
    ghost use Rattle.qc_oql_tree.specs.Typing.{query_type};
    ghost use Rattle.qc_oql_tree.proofs.MeaningLaws.{agrees_query};
    ghost use Rattle.qc_oql_tree.proofs.Sizes.{query_sized};

    ghost meaning = { λ mode typed world. query mode world typed.query };

    ghost good = { λ schema typed. query_type schema typed.query ≡ Ok typed.ty };

    ghost size = { λ _ typed. query_size typed.query };

    fn eval(&self, alloc: Global, world: &World) -> Result<Datum, Halt> {
        eval(alloc, &self.query, world)
    }

    ghost agrees = { λ low high typed world. agrees_query low high world typed.query };

    ghost sized = { λ _ typed. query_sized typed.query };
}
