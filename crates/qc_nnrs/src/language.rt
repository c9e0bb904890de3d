// Programs of statements as a language.

use crate::running::outcome;
use crate::tree::Nnrs;
use qc_data::{Datum, Halt};
use qc_lang::Lang;
use qc_types::World;
use std::alloc::Global;

impl Lang for Nnrs {
    ghost use Rattle.std.specs.Prelude.{IsTrue};
    ghost use Rattle.qc_nnrs.specs.Laws.{agrees_nnrs, sized};
    ghost use Rattle.qc_nnrs.specs.Meaning.{nnrs};
    ghost use Rattle.qc_nnrs.specs.Sizes.{size};
    ghost use Rattle.qc_nnrs.specs.WellFormed.{well_formed};

    ghost meaning = { λ mode tree world. nnrs mode world tree };

    ghost good = { λ _ tree. IsTrue (well_formed tree) };

    ghost size = { λ _ tree. size tree };

    fn eval(&self, alloc: Global, world: &World) -> Result<Datum, Halt> {
        outcome(alloc, self, world)
    }

    ghost agrees = { λ low high tree world. agrees_nnrs low high world tree };

    ghost sized = { λ _ tree. sized tree };
}
