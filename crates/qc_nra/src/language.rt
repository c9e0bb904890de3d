// The algebra as a language.

use crate::evaluating::eval_at;
use crate::tree::Nra;
use qc_data::{Datum, Fields, Halt};
use qc_lang::Lang;
use qc_types::World;
use std::alloc::Global;

impl Lang for Nra {
    ghost use Rattle.std.specs.Prelude.{[]};
    ghost use Rattle.qc_data.specs.declared.data.Datum.TheVariants.{Rec, Unit as Nothing};
    ghost use Rattle.qc_nra.specs.Laws.{agrees_nra, sized};
    ghost use Rattle.qc_nra.specs.Meaning.{nra};
    ghost use Rattle.qc_nra.specs.Sizes.{size};

    ghost meaning = { λ mode tree world. nra mode world tree Nothing (Rec []) };

    ghost good = { λ _ _. Unit {0} };

    ghost size = { λ _ tree. size tree };

    fn eval(&self, alloc: Global, world: &World) -> Result<Datum, Halt> {
        let env = Datum::Rec(Fields::new(alloc));
        eval_at(alloc, self, world, &Datum::Unit, &env)
    }

    ghost agrees = { λ low high tree world. agrees_nra low high world tree Nothing (Rec []) };

    ghost sized = { λ _ tree. sized tree };
}
